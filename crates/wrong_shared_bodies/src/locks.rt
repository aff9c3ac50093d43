//! Critical sections, each broken: the work under the lock of a ring, with one thing wrong.

ghost use Rattle.std.specs.Prelude.{◌≡◌, ◌≢◌, ◌<◌, ◌≤◌, length, IfOk, IfSome};
ghost use Rattle.ring_model.specs.Groups.{Rises};
ghost use Rattle.ring_shared.specs.Calls.{IsCallUnderLock, IsRefusedUnderLock};
ghost use Rattle.ring_shared.specs.Groups.{IsGroupUnderLock};

use ring_book::{BookError, GroupError, GroupReceipt, Resource};
use ring_model::{Op, Receipt};
use ring_shared::{Locked, Name, Seat};
use std::sync::Wait;

/// The book records the order of a pass: another one is recorded.
pub fn book_records_another_order<N: Name, R: Resource + Drop, W: Wait>(
    locked: &mut Locked<N, R>,
    rt: &W,
    seat: &mut Seat<N>,
    machine: u32,
    order: u64,
    other: u64,
) -> Result<Receipt, BookError>
    requires machine { machine < length N.start.values }
    requires apart { other ≢ order }
    ensures wrong { IfOk result (λ r. IsCallUnderLock R.works R.first N.start N.seats N.legal
        locked.old locked.new seat.old seat.new (Op.Pass machine order) r → ⊥) }
{
    locked.pass(rt, seat, machine, other)
}

/// The book records a call under the number of the seat that called: another seat calls.
pub fn book_records_another_seat<N: Name, R: Resource + Drop, W: Wait>(
    locked: &mut Locked<N, R>,
    rt: &W,
    seat: &Seat<N>,
    other: &mut Seat<N>,
    machine: u32,
    order: u64,
) -> Result<Receipt, BookError>
    requires machine { machine < length N.start.values }
    requires apart { other.old.number ≢ seat.now.number }
    ensures wrong { IfOk result (λ r. IsCallUnderLock R.works R.first N.start N.seats N.legal
        locked.old locked.new seat.now seat.now (Op.Pass machine order) r → ⊥) }
{
    locked.pass(rt, other, machine, order)
}

/// A call is one event: it is made twice, and the second receipt is answered.
pub fn call_that_is_made_twice<N: Name, R: Resource + Drop, W: Wait>(
    locked: &mut Locked<N, R>,
    rt: &W,
    seat: &mut Seat<N>,
    machine: u32,
    order: u64,
) -> Result<Receipt, BookError>
    requires machine { machine < length N.start.values }
    ensures wrong { IfOk result (λ r. IsCallUnderLock R.works R.first N.start N.seats N.legal
        locked.old locked.new seat.old seat.new (Op.Pass machine order) r → ⊥) }
{
    locked.pass(rt, seat, machine, order)?;
    locked.pass(rt, seat, machine, order)
}

/// A refused call leaves the book as it was: one that was recorded is reported as refused.
pub fn call_refused_after_it_was_recorded<N: Name, R: Resource + Drop, W: Wait>(
    locked: &mut Locked<N, R>,
    rt: &W,
    seat: &mut Seat<N>,
    machine: u32,
    value: u32,
) -> Option<Result<Receipt, BookError>>
    requires machine { machine < length N.start.values }
    requires value { value < N.start.k }
    ensures wrong { IfSome result
        (λ answer. IsRefusedUnderLock locked.old locked.new seat.old seat.new answer → ⊥) }
{
    if locked.corrupt(rt, seat, machine, value).is_err() {
        return None;
    }
    Some(Err(BookError::OutOfMemory))
}

/// The book records the value of a corruption: another one is recorded.
pub fn book_records_another_value<N: Name, R: Resource + Drop, W: Wait>(
    locked: &mut Locked<N, R>,
    rt: &W,
    seat: &mut Seat<N>,
    machine: u32,
    value: u32,
    other: u32,
) -> Result<Receipt, BookError>
    requires machine { machine < length N.start.values }
    requires value { other < N.start.k }
    requires apart { other ≢ value }
    ensures wrong { IfOk result (λ r. IsCallUnderLock R.works R.first N.start N.seats N.legal
        locked.old locked.new seat.old seat.new (Op.Corrupt machine value) r → ⊥) }
{
    locked.corrupt(rt, seat, machine, other)
}

/// A group is recorded after the whole history: its receipt has another place.
pub fn book_records_a_group_elsewhere<N: Name, R: Resource + Drop, W: Wait>(
    locked: &mut Locked<N, R>,
    rt: &W,
    seat: &mut Seat<N>,
    machines: &[u32],
    order: u64,
) -> Result<GroupReceipt, GroupError>
    requires rising { Rises 0 (length N.start.values) machines.now }
    requires some { 1 ≤ length machines.now }
    ensures wrong { IfOk result (λ r. IsGroupUnderLock R.works R.first N.start N.seats N.legal
        locked.old locked.new seat.old seat.new order machines.now r → ⊥) }
{
    let receipt = locked.pass_group(rt, seat, machines, order)?;
    Ok(GroupReceipt {
        first: if receipt.first == 0 { 1 } else { 0 },
        count: receipt.count,
    })
}
