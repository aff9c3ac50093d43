//! Calls of a seat, each broken: a pass or a corruption of the ring in which one thing is wrong.

ghost use Rattle.std.specs.Prelude.{◌≡◌, ◌≢◌, ◌<◌, ◌≤◌, ◌+◌, ◌++◌, ◌∷◌, [], Some, slice_get, length, IfOk, IfSome, OnErr};
ghost use mathlib.Core.List.{IsPrefix};
ghost use Rattle.ring_shared.specs.Client.{IsUnchanged};

use ring_book::{BookError, Resource};
use ring_model::{Entry, Event, Op, Receipt, Reply};
use ring_shared::{Name, Ring, Seat};
use std::sync::Wait;

/// A receipt has the order of the pass that was asked for: the pass is made with another one.
pub fn pass_with_another_order<N: Name, R: Resource + Drop, W: Wait>(
    ring: &Ring<N, R>,
    rt: &W,
    seat: &mut Seat<N>,
    machine: u32,
    order: u64,
    other: u64,
) -> Result<Receipt, BookError>
    requires machine { machine < length N.start.values }
    requires apart { other ≢ order }
    ensures wrong { IfOk result
        (λ r. (r.event.seat ≡ seat.old.number) × (r.event.op ≡ Op.Pass machine order) → ⊥) }
{
    ring.pass(rt, seat, machine, other)
}

/// A receipt has the machine that was to pass: another machine passes.
pub fn pass_by_another_machine<N: Name, R: Resource + Drop, W: Wait>(
    ring: &Ring<N, R>,
    rt: &W,
    seat: &mut Seat<N>,
    machine: u32,
    other: u32,
    order: u64,
) -> Result<Receipt, BookError>
    requires machine { other < length N.start.values }
    requires apart { other ≢ machine }
    ensures wrong { IfOk result
        (λ r. (r.event.seat ≡ seat.old.number) × (r.event.op ≡ Op.Pass machine order) → ⊥) }
{
    ring.pass(rt, seat, other, order)
}

/// An event is under the number of the seat that called: another seat calls, and its receipt is answered.
pub fn pass_under_another_seat<N: Name, R: Resource + Drop, W: Wait>(
    ring: &Ring<N, R>,
    rt: &W,
    seat: &Seat<N>,
    other: &mut Seat<N>,
    machine: u32,
    order: u64,
) -> Result<Receipt, BookError>
    requires machine { machine < length N.start.values }
    requires apart { other.old.number ≢ seat.now.number }
    ensures wrong { IfOk result
        (λ r. (r.event.seat ≡ seat.now.number) × (r.event.op ≡ Op.Pass machine order) → ⊥) }
{
    ring.pass(rt, other, machine, order)
}

/// After a call its seat has seen the call's event: another seat calls, and this one has seen nothing.
pub fn pass_told_to_another_seat<N: Name, R: Resource + Drop, W: Wait>(
    ring: &Ring<N, R>,
    rt: &W,
    seat: &Seat<N>,
    other: &mut Seat<N>,
    machine: u32,
    order: u64,
) -> Result<Receipt, BookError>
    requires machine { machine < length N.start.values }
    requires fresh { seat.now.seen ≡ [] }
    ensures wrong { IfOk result (λ r. (length seat.now.seen ≡ r.position + 1)
        × (slice_get seat.now.seen r.position ≡ Some r.event) → ⊥) }
{
    ring.pass(rt, other, machine, order)
}

/// Another reply than this.
fn other_reply(reply: Reply) -> Reply
    ensures { result ≢ reply }
{
    match reply {
        Reply::NotPrivileged => Reply::Corrupted { old: 0 },
        Reply::Granted { .. } | Reply::Corrupted { .. } => Reply::NotPrivileged,
    }
}

/// A call answers the event that it made: the reply is an invented one.
pub fn pass_with_an_invented_reply<N: Name, R: Resource + Drop, W: Wait>(
    ring: &Ring<N, R>,
    rt: &W,
    seat: &mut Seat<N>,
    machine: u32,
    order: u64,
) -> Result<Receipt, BookError>
    requires machine { machine < length N.start.values }
    ensures wrong { IfOk result (λ r. (length seat.new.seen ≡ r.position + 1)
        × (slice_get seat.new.seen r.position ≡ Some r.event) → ⊥) }
{
    let receipt = ring.pass(rt, seat, machine, order)?;
    Ok(Receipt {
        position: receipt.position,
        event: Event {
            seat: receipt.event.seat,
            op: receipt.event.op,
            reply: other_reply(receipt.event.reply),
        },
    })
}

/// A receipt has the position at which the seat sees its event: the position is another one.
pub fn pass_at_another_position<N: Name, R: Resource + Drop, W: Wait>(
    ring: &Ring<N, R>,
    rt: &W,
    seat: &mut Seat<N>,
    machine: u32,
    order: u64,
) -> Result<Receipt, BookError>
    requires machine { machine < length N.start.values }
    ensures wrong { IfOk result (λ r. (length seat.new.seen ≡ r.position + 1)
        × (slice_get seat.new.seen r.position ≡ Some r.event) → ⊥) }
{
    let receipt = ring.pass(rt, seat, machine, order)?;
    Ok(Receipt {
        position: if receipt.position == 0 { 1 } else { 0 },
        event: receipt.event,
    })
}

/// The seat's log has the receipt that was answered: one with another position is answered.
pub fn pass_logged_with_another_position<N: Name, R: Resource + Drop, W: Wait>(
    ring: &Ring<N, R>,
    rt: &W,
    seat: &mut Seat<N>,
    machine: u32,
    order: u64,
) -> Result<Receipt, BookError>
    requires machine { machine < length N.start.values }
    ensures wrong { IfOk result (λ r. seat.new.log ≡ seat.old.log ++ Entry.Receipt r ∷ [] → ⊥) }
{
    let receipt = ring.pass(rt, seat, machine, order)?;
    Ok(Receipt {
        position: if receipt.position == 0 { 1 } else { 0 },
        event: receipt.event,
    })
}

/// A refused call has changed nothing: one that was made is reported as refused.
pub fn pass_refused_after_its_event<N: Name, R: Resource + Drop, W: Wait>(
    ring: &Ring<N, R>,
    rt: &W,
    seat: &mut Seat<N>,
    machine: u32,
    order: u64,
) -> Option<Result<Receipt, BookError>>
    requires machine { machine < length N.start.values }
    ensures wrong { IfSome result (λ answer. OnErr answer (IsUnchanged seat.old seat.new) → ⊥) }
{
    if ring.pass(rt, seat, machine, order).is_err() {
        return None;
    }
    Some(Err(BookError::OutOfMemory))
}

/// The events that a seat sees after a call begin with all that it saw: the seat is changed for one that has seen nothing.
pub fn pass_falls_back_to_a_shorter_list<N: Name, R: Resource + Drop, W: Wait>(
    ring: &Ring<N, R>,
    rt: &W,
    seat: &mut Seat<N>,
    fresh: Seat<N>,
    machine: u32,
    order: u64,
) -> Result<Receipt, BookError>
    requires machine { machine < length N.start.values }
    requires some { 1 ≤ length seat.old.seen }
    requires fresh { fresh.seen ≡ [] }
    ensures wrong { IfOk result (λ _. IsPrefix seat.old.seen seat.new.seen → ⊥) }
{
    let receipt = ring.pass(rt, seat, machine, order)?;
    *seat = fresh;
    Ok(receipt)
}

/// A corruption writes the value that was named: another one is written.
pub fn corrupt_with_another_value<N: Name, R: Resource + Drop, W: Wait>(
    ring: &Ring<N, R>,
    rt: &W,
    seat: &mut Seat<N>,
    machine: u32,
    value: u32,
    other: u32,
) -> Result<Receipt, BookError>
    requires machine { machine < length N.start.values }
    requires value { other < N.start.k }
    requires apart { other ≢ value }
    ensures wrong { IfOk result
        (λ r. (r.event.seat ≡ seat.old.number) × (r.event.op ≡ Op.Corrupt machine value) → ⊥) }
{
    ring.corrupt(rt, seat, machine, other)
}

/// A corruption is reported as a corruption: a pass is made instead.
pub fn corrupt_that_passes<N: Name, R: Resource + Drop, W: Wait>(
    ring: &Ring<N, R>,
    rt: &W,
    seat: &mut Seat<N>,
    machine: u32,
    value: u32,
) -> Result<Receipt, BookError>
    requires machine { machine < length N.start.values }
    ensures wrong { IfOk result
        (λ r. (r.event.seat ≡ seat.old.number) × (r.event.op ≡ Op.Corrupt machine value) → ⊥) }
{
    ring.pass(rt, seat, machine, u64::from(value))
}
