//! Group passes of a seat, each broken: a call of a group in which one thing is wrong.

ghost use Rattle.std.specs.Prelude.{◌≡◌, ◌≢◌, ◌<◌, ◌≤◌, ◌-◌, length, take, IfOk, IfSome, OnErr, IsErrOf};
ghost use Rattle.ring_model.specs.Groups.{Rises, IsHistory};
ghost use Rattle.ring_model.specs.History.{opening};
ghost use Rattle.ring_shared.specs.Client.{IsUnchanged};
ghost use Rattle.ring_shared.specs.Groups.{IsGroupLogged, IsRefusedFor};

use ring_book::{GroupError, GroupReceipt, Resource};
use ring_shared::{Name, Ring, Seat};
use std::sync::Wait;

/// Each member of a group has the order that was given: another one is given.
pub fn group_with_another_order<N: Name, R: Resource + Drop, W: Wait>(
    ring: &Ring<N, R>,
    rt: &W,
    seat: &mut Seat<N>,
    machines: &[u32],
    order: u64,
    other: u64,
) -> Result<GroupReceipt, GroupError>
    requires rising { Rises 0 (length N.start.values) machines.now }
    requires some { 1 ≤ length machines.now }
    requires apart { other ≢ order }
    ensures wrong { IfOk result
        (λ r. IsGroupLogged (length N.start.values) seat.old seat.new order machines.now r → ⊥) }
{
    let receipt = ring.pass_group(rt, seat, machines, other)?;
    Ok(receipt)
}

/// All machines of a group pass: one fewer is passed on.
pub fn group_without_one_machine<N: Name, R: Resource + Drop, W: Wait>(
    ring: &Ring<N, R>,
    rt: &W,
    seat: &mut Seat<N>,
    machines: &[u32],
    fewer: &[u32],
    order: u64,
) -> Result<GroupReceipt, GroupError>
    requires rising { Rises 0 (length N.start.values) fewer.now }
    requires some { 1 ≤ length fewer.now }
    requires apart { length fewer.now < length machines.now }
    ensures wrong { IfOk result
        (λ r. IsGroupLogged (length N.start.values) seat.old seat.new order machines.now r → ⊥) }
{
    ring.pass_group(rt, seat, fewer, order)
}

/// A seat's log has the receipt of each member of its group: one is missing, and the answer counts it all the same.
pub fn group_without_one_receipt<N: Name, R: Resource + Drop, W: Wait>(
    ring: &Ring<N, R>,
    rt: &W,
    seat: &mut Seat<N>,
    machines: &[u32],
    fewer: &[u32],
    order: u64,
    count: u32,
) -> Result<GroupReceipt, GroupError>
    requires rising { Rises 0 (length N.start.values) machines.now }
    requires fewer { Rises 0 (length N.start.values) fewer.now }
    requires some { 1 ≤ length fewer.now }
    requires apart { length fewer.now < length machines.now }
    requires leaves_out { length machines.now < length N.start.values }
    requires count { count ≡ length machines.now }
    ensures wrong { IfOk result
        (λ r. IsGroupLogged (length N.start.values) seat.old seat.new order machines.now r → ⊥) }
{
    let receipt = ring.pass_group(rt, seat, fewer, order)?;
    Ok(GroupReceipt {
        first: receipt.first,
        count,
    })
}

/// A group's receipt has the place where its block begins: it has another.
pub fn group_at_another_position<N: Name, R: Resource + Drop, W: Wait>(
    ring: &Ring<N, R>,
    rt: &W,
    seat: &mut Seat<N>,
    machines: &[u32],
    order: u64,
) -> Result<GroupReceipt, GroupError>
    requires rising { Rises 0 (length N.start.values) machines.now }
    requires some { 1 ≤ length machines.now }
    ensures wrong { IfOk result
        (λ r. IsGroupLogged (length N.start.values) seat.old seat.new order machines.now r → ⊥) }
{
    let receipt = ring.pass_group(rt, seat, machines, order)?;
    Ok(GroupReceipt {
        first: if receipt.first == 0 { 1 } else { 0 },
        count: receipt.count,
    })
}

/// The events that a seat sees end inside no block: a list that lacks the last member of a group is not a history.
pub fn group_that_is_shown_in_pieces<N: Name, R: Resource + Drop, W: Wait>(
    ring: &Ring<N, R>,
    rt: &W,
    seat: &mut Seat<N>,
    machines: &[u32],
    order: u64,
) -> Result<GroupReceipt, GroupError>
    requires rising { Rises 0 (length N.start.values) machines.now }
    requires some { 2 ≤ length machines.now }
    requires leaves_out { length machines.now < length N.start.values }
    ensures wrong { IfOk result (λ _. IsHistory R.works (opening N.start R.first)
        (take (length seat.new.seen - 1) seat.new.seen) → ⊥) }
{
    let receipt = ring.pass_group(rt, seat, machines, order)?;
    Ok(receipt)
}

/// Only a group of all machines is refused as the whole ring: a smaller one is.
pub fn group_refused_as_the_whole_ring<N: Name, R: Resource + Drop, W: Wait>(
    ring: &Ring<N, R>,
    rt: &W,
    seat: &mut Seat<N>,
    machines: &[u32],
    order: u64,
) -> Result<GroupReceipt, GroupError>
    requires rising { Rises 0 (length N.start.values) machines.now }
    requires some { 1 ≤ length machines.now }
    requires leaves_out { length machines.now < length N.start.values }
    ensures wrong { (IsErrOf result GroupError.WholeRing
        → length machines.now ≡ length N.start.values) → ⊥ }
{
    let _ = ring.pass_group(rt, seat, machines, order);
    Err(GroupError::WholeRing)
}

/// A group of all machines is refused as the whole ring: it is refused because the history is full.
pub fn whole_ring_refused_as_full<N: Name, R: Resource + Drop, W: Wait>(
    ring: &Ring<N, R>,
    rt: &W,
    seat: &mut Seat<N>,
    machines: &[u32],
    order: u64,
) -> Result<GroupReceipt, GroupError>
    requires rising { Rises 0 (length N.start.values) machines.now }
    requires some { 1 ≤ length machines.now }
    requires whole { length machines.now ≡ length N.start.values }
    ensures wrong { (length machines.now ≡ length N.start.values
        → IsRefusedFor GroupError.WholeRing result) → ⊥ }
{
    let _ = ring.pass_group(rt, seat, machines, order);
    Err(GroupError::HistoryFull)
}

/// A refused group has changed nothing: one that has passed is reported as refused.
pub fn group_refused_after_its_block<N: Name, R: Resource + Drop, W: Wait>(
    ring: &Ring<N, R>,
    rt: &W,
    seat: &mut Seat<N>,
    machines: &[u32],
    order: u64,
) -> Option<Result<GroupReceipt, GroupError>>
    requires rising { Rises 0 (length N.start.values) machines.now }
    requires some { 1 ≤ length machines.now }
    ensures wrong { IfSome result (λ answer. OnErr answer (IsUnchanged seat.old seat.new) → ⊥) }
{
    let Ok(_) = ring.pass_group(rt, seat, machines, order) else {
        return None;
    };
    Some(Err(GroupError::OutOfMemory))
}
