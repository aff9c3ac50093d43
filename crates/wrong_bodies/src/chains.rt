//! Wrong bodies of the calls that shift the numbers of a segment, and that give the base of the next.

ghost use Rattle.std.specs.Prelude.{◌≡◌, ◌+◌, ◌<◌, ◌≤◌, ◌^◌, ◌↔◌, true, false, None, IsTrue, IfSome};
ghost use Rattle.ring_model.specs.Limits.{event_limit};
ghost use Rattle.ring_model.specs.declared.events.Reply.TheVariants.{Granted, Corrupted};
ghost use Rattle.ring_model.specs.Bases.{IsBase, shifted_reply, shifted_receipt, shifted_survey};
ghost use Rattle.ring_model.specs.Tallies.{IsInSegment, tally_with, base_with};

use ring_model::{Base, Receipt, Reply, Survey, Tally};

/// The next base counts the grants before the segment: here it forgets them.
pub fn forgets_the_grants(base: &Base, tally: Tally, end: Survey) -> Option<Base>
    requires base { IsBase base.now }
    requires grants { tally.grants ≤ event_limit }
    requires position { end.position ≤ event_limit }
    requires calm { end.calm ≤ event_limit }
    requires some { 0 < base.now.grants }
    ensures wrong { IfSome result (λ next. next ≡ base_with base.now tally end → ⊥) }
{
    let next = base.next(tally, end)?;
    Some(Base {
        events: next.events,
        grants: tally.grants,
        amount: next.amount,
        calm: next.calm,
    })
}

/// The next segment begins where this one ends: here one call late.
pub fn begins_one_call_late(base: &Base, tally: Tally, end: Survey) -> Option<Base>
    requires base { IsBase base.now }
    requires grants { tally.grants ≤ event_limit }
    requires position { end.position < event_limit }
    requires calm { end.calm ≤ event_limit }
    ensures wrong { IfSome result (λ next. next ≡ base_with base.now tally end → ⊥) }
{
    let late = Survey {
        position: end.position + 1,
        privileged: end.privileged,
        first: end.first,
        calm: end.calm,
        rest: end.rest,
    };
    base.next(tally, late)
}

/// A base with room is returned: here none.
pub fn refuses_a_base_with_room(base: &Base, tally: Tally, end: Survey) -> Option<Base>
    requires room { IsBase (base_with base.now tally end) }
    ensures wrong { (result ≡ None → ¬ IsBase (base_with base.now tally end)) → ⊥ }
{
    None
}

/// A base has room, or none: here the other way.
pub fn has_room_the_other_way(base: &Base) -> bool
    ensures wrong { (IsTrue result ↔ IsBase base.now) → ⊥ }
{
    !base.has_room()
}

/// An amount stops at the most that the till can hold: here it wraps.
pub fn wraps_the_amount(base: &Base, number: u64, amount: u64) -> Reply
    requires base { IsBase base.now }
    requires within { number ≤ event_limit }
    requires high { 2 ^ 64 ≤ base.now.amount + amount }
    ensures wrong { result ≡ shifted_reply base.now (Granted number amount) → ⊥ }
{
    let empty = Base {
        events: base.events,
        grants: base.grants,
        amount: 0,
        calm: base.calm,
    };
    empty.shift_reply(Reply::Granted {
        number,
        result: base.amount.wrapping_add(amount),
    })
}

/// A grant's number counts the grants before its segment: here it is the segment's own.
pub fn numbers_by_the_segment(base: &Base, number: u64, amount: u64) -> Reply
    requires some { 0 < base.now.grants }
    ensures wrong { result ≡ shifted_reply base.now (Granted number amount) → ⊥ }
{
    Reply::Granted {
        number,
        result: base.amount.saturating_add(amount),
    }
}

/// A receipt's position counts the events before its segment: here it is the segment's own.
pub fn places_by_the_segment(base: &Base, receipt: Receipt) -> Receipt
    requires base { IsBase base.now }
    requires position { receipt.position ≤ event_limit }
    requires within { IsInSegment receipt.event.reply }
    requires some { 0 < base.now.events }
    ensures wrong { result ≡ shifted_receipt base.now receipt → ⊥ }
{
    let shifted = base.shift_receipt(receipt);
    Receipt {
        position: receipt.position,
        event: shifted.event,
    }
}

/// After a corruption the calm before the segment does not count: here it does.
pub fn adds_the_calm_over_a_corruption(base: &Base, survey: Survey) -> Survey
    requires base { IsBase base.now }
    requires position { survey.position ≤ event_limit }
    requires calm { survey.calm ≤ event_limit }
    requires some { 0 < base.now.calm }
    ensures wrong { result ≡ shifted_survey base.now false survey → ⊥ }
{
    base.shift_survey(true, survey)
}

/// A tally knows that a corruption came: here it forgets it.
pub fn forgets_a_corruption(tally: Tally, old: u32) -> Tally
    requires quiet { tally.quiet ≡ true }
    ensures wrong { result ≡ tally_with tally (Corrupted old) → ⊥ }
{
    tally.with_reply(Reply::NotPrivileged)
}
