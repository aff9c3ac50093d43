//! Wrong bodies of [`Book::pass_group`].

ghost use Rattle.std.specs.Prelude.{◌≡◌, ◌≢◌, ◌<◌, ◌≤◌, ◌+◌, ◌↔◌, ◌∷◌, [], length, IsOk, IfOk, OnErr, IsErrOf};
ghost use Rattle.ring_model.specs.Limits.{event_limit, machine_limit, seat_limit};
ghost use Rattle.ring_model.specs.Groups.{Rises};
ghost use Rattle.ring_model.specs.GroupLaws.{CanMove};
ghost use Rattle.ring_book.specs.GroupView.{IsGroupRecorded, IsLeastWithout};

use crate::numbers::{another, another_narrow};
use ring_book::{Book, BookError, GroupError, GroupReceipt, Resource};

/// A group is recorded under its seat: this one under another.
pub fn passes_a_group_under_another_seat<R: Resource + Drop>(
    book: &mut Book<R>,
    seat: u32,
    other: u32,
    machines: &[u32],
    order: u64,
) -> Result<GroupReceipt, GroupError>
    requires seat { other < seat_limit }
    requires rising { Rises 0 (length book.old.now.ring.values) machines.now }
    requires some { 1 ≤ length machines.now }
    requires apart { other ≢ seat }
    ensures wrong { IfOk result
        (λ r. IsGroupRecorded R.works book.old book.new seat order machines.now r → ⊥) }
{
    let receipt = book.pass_group(other, machines, order)?;
    Ok(receipt)
}

/// A group is recorded with its order: this one with another.
pub fn passes_a_group_with_another_order<R: Resource + Drop>(
    book: &mut Book<R>,
    seat: u32,
    machines: &[u32],
    order: u64,
    other: u64,
) -> Result<GroupReceipt, GroupError>
    requires seat { seat < seat_limit }
    requires rising { Rises 0 (length book.old.now.ring.values) machines.now }
    requires some { 1 ≤ length machines.now }
    requires apart { other ≢ order }
    ensures wrong { IfOk result
        (λ r. IsGroupRecorded R.works book.old book.new seat order machines.now r → ⊥) }
{
    let receipt = book.pass_group(seat, machines, other)?;
    Ok(receipt)
}

/// Each machine of a group is a member of its block: here one of several is left out, and the receipt says nothing of it.
pub fn leaves_members_out<R: Resource + Drop>(
    book: &mut Book<R>,
    seat: u32,
    machines: &[u32],
    fewer: &[u32],
    order: u64,
) -> Result<GroupReceipt, GroupError>
    requires seat { seat < seat_limit }
    requires rising { Rises 0 (length book.old.now.ring.values) fewer.now }
    requires some { 1 ≤ length fewer.now }
    requires apart { length fewer.now < length machines.now }
    requires count { length machines.now ≤ machine_limit }
    ensures wrong { IfOk result
        (λ r. IsGroupRecorded R.works book.old book.new seat order machines.now r → ⊥) }
{
    let receipt = book.pass_group(seat, fewer, order)?;
    Ok(GroupReceipt {
        first: receipt.first,
        count: machines.len() as u32,
    })
}

/// A group is one block: this one is two, its first machine's and that of the others.
pub fn passes_a_group_in_pieces<R: Resource + Drop>(
    book: &mut Book<R>,
    seat: u32,
    machine: u32,
    others: &[u32],
    machines: &[u32],
    order: u64,
) -> Result<GroupReceipt, GroupError>
    requires seat { seat < seat_limit }
    requires machine { machine < length book.old.now.ring.values }
    requires rising { Rises 0 (length book.old.now.ring.values) others.now }
    requires some { 1 ≤ length others.now }
    requires several { 2 ≤ length machines.now }
    ensures wrong { IfOk result
        (λ r. IsGroupRecorded R.works book.old book.new seat order machines.now r → ⊥) }
{
    let receipt = book.pass_group(seat, &[machine], order)?;
    book.pass_group(seat, others, order)?;
    Ok(receipt)
}

/// A group of one machine is recorded as a member: this one as a call by itself.
pub fn passes_a_group_as_a_call<R: Resource + Drop>(
    book: &mut Book<R>,
    seat: u32,
    machine: u32,
    order: u64,
) -> Result<GroupReceipt, BookError>
    requires seat { seat < seat_limit }
    requires machine { machine < length book.old.now.ring.values }
    ensures wrong { IfOk result
        (λ r. IsGroupRecorded R.works book.old book.new seat order (machine ∷ []) r → ⊥) }
{
    let receipt = book.pass(seat, machine, order)?;
    Ok(GroupReceipt {
        first: receipt.position,
        count: 1,
    })
}

/// The receipt has the first position of the block: this one another.
pub fn tells_another_first_position<R: Resource + Drop>(
    book: &mut Book<R>,
    seat: u32,
    machines: &[u32],
    order: u64,
) -> Result<GroupReceipt, GroupError>
    requires seat { seat < seat_limit }
    requires rising { Rises 0 (length book.old.now.ring.values) machines.now }
    requires some { 1 ≤ length machines.now }
    ensures wrong { IfOk result
        (λ r. IsGroupRecorded R.works book.old book.new seat order machines.now r → ⊥) }
{
    let receipt = book.pass_group(seat, machines, order)?;
    Ok(GroupReceipt {
        first: another(receipt.first),
        count: receipt.count,
    })
}

/// The receipt has the number of the group's members: this one has one less.
pub fn tells_one_member_less<R: Resource + Drop>(
    book: &mut Book<R>,
    seat: u32,
    machines: &[u32],
    order: u64,
) -> Result<GroupReceipt, GroupError>
    requires seat { seat < seat_limit }
    requires rising { Rises 0 (length book.old.now.ring.values) machines.now }
    requires some { 1 ≤ length machines.now }
    ensures wrong { IfOk result
        (λ r. IsGroupRecorded R.works book.old book.new seat order machines.now r → ⊥) }
{
    let receipt = book.pass_group(seat, machines, order)?;
    Ok(GroupReceipt {
        first: receipt.first,
        count: another_narrow(receipt.count),
    })
}

/// A group of all machines is refused: here one of them passes instead, and that is reported as granted.
pub fn lets_the_whole_ring_pass<R: Resource + Drop>(
    book: &mut Book<R>,
    seat: u32,
    machine: u32,
    machines: &[u32],
    order: u64,
) -> Result<GroupReceipt, GroupError>
    requires seat { seat < seat_limit }
    requires machine { machine < length book.old.now.ring.values }
    requires whole { length machines.now ≡ length book.old.now.ring.values }
    ensures wrong { IfOk result (λ _. (IsErrOf result GroupError.WholeRing
        ↔ (length machines.now ≡ length book.old.now.ring.values)) → ⊥) }
{
    book.pass_group(seat, &[machine], order)
}

/// A group of all machines is reported as that: here as one with a machine that is not privileged.
pub fn tells_the_whole_ring_as_unprivileged<R: Resource + Drop>(
    book: &mut Book<R>,
    seat: u32,
    machines: &[u32],
    order: u64,
) -> Result<GroupReceipt, GroupError>
    requires seat { seat < seat_limit }
    requires rising { Rises 0 (length book.old.now.ring.values) machines.now }
    requires some { 1 ≤ length machines.now }
    requires whole { length machines.now ≡ length book.old.now.ring.values }
    ensures wrong { (IsErrOf result GroupError.WholeRing
        ↔ (length machines.now ≡ length book.old.now.ring.values)) → ⊥ }
{
    let Ok(receipt) = book.pass_group(seat, machines, order) else {
        return Err(GroupError::NotPrivileged(0));
    };
    Ok(receipt)
}

/// The least machine without privilege is reported: here another, which is found not to be it.
#[tactic(auto, using(ring_book::proofs::GroupGrowth::without_one))]
pub fn tells_another_machine_without_privilege<R: Resource + Drop>(
    book: &mut Book<R>,
    seat: u32,
    machines: &[u32],
    order: u64,
    least: u32,
) -> Result<GroupReceipt, GroupError>
    requires seat { seat < seat_limit }
    requires rising { Rises 0 (length book.old.now.ring.values) machines.now }
    requires some { 1 ≤ length machines.now }
    requires fewer { length machines.now ≢ length book.old.now.ring.values }
    requires least { IsLeastWithout book.old.now.ring.values machines.now least }
    ensures wrong { (IsErrOf result (GroupError.NotPrivileged least)
        ↔ (length machines.now ≢ length book.old.now.ring.values)
        × IsLeastWithout book.old.now.ring.values machines.now least) → ⊥ }
{
    match book.pass_group(seat, machines, order) {
        Err(GroupError::NotPrivileged(machine)) => {
            Err(GroupError::NotPrivileged(another_narrow(machine)))
        }
        _ => Err(GroupError::OutOfMemory),
    }
}

/// A history has room for a group up to its limit: here it is full one event early.
pub fn is_full_for_a_group_one_event_early<R: Resource + Drop>(
    book: &mut Book<R>,
    machines: &[u32],
) -> Result<GroupReceipt, GroupError>
    requires able { CanMove book.old.now.ring.values machines.now }
    requires just { length book.old.history + length machines.now ≡ event_limit }
    ensures wrong { (IsErrOf result GroupError.HistoryFull
        ↔ CanMove book.old.now.ring.values machines.now
        × (event_limit < length book.old.history + length machines.now)) → ⊥ }
{
    Err(GroupError::HistoryFull)
}

/// With room for its members a group that can move is not refused: here it is.
pub fn refuses_a_group_with_room<R: Resource + Drop>(
    book: &mut Book<R>,
    machines: &[u32],
) -> Result<GroupReceipt, GroupError>
    requires able { CanMove book.old.now.ring.values machines.now }
    requires room { length machines.now ≤ book.old.room }
    ensures wrong { (CanMove book.old.now.ring.values machines.now
        → length machines.now ≤ book.old.room → IsOk result) → ⊥ }
{
    Err(GroupError::OutOfMemory)
}

/// A group that is refused changes nothing: here its first machine has passed.
pub fn refuses_a_group_behind_a_pass<R: Resource + Drop>(
    book: &mut Book<R>,
    seat: u32,
    machine: u32,
    order: u64,
) -> Result<GroupReceipt, GroupError>
    requires seat { seat < seat_limit }
    requires machine { machine < length book.old.now.ring.values }
    requires room { 1 ≤ book.old.room }
    ensures wrong { OnErr result (book.new ≡ book.old) → ⊥ }
{
    match book.pass(seat, machine, order) {
        Ok(_) => Err(GroupError::OutOfMemory),
        Err(_) => Err(GroupError::OutOfMemory),
    }
}
