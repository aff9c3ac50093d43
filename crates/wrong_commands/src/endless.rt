//! Wrong calls of rings whose histories have no end.

ghost use Rattle.std.specs.Prelude.{◌≡◌, ◌<◌, ◌≤◌, true, length, IfSome};
ghost use Rattle.ring_model.specs.Ring.{is_privileged};
ghost use Rattle.ring_model.specs.declared.events.Op.TheVariants as op;
ghost use Rattle.endless_ring.specs.declared.rings.NextError.TheVariants as error;
ghost use Rattle.endless_ring.specs.Endless.{IsCalled, IsTried, IsSurveyed, IsNextRing};
ghost use Rattle.ring_service.specs.Segments.{AreNext, IsFull};

use endless_ring::{EndlessRing, NextError};
use ring_book::Till;
use ring_model::{Base, Event, Receipt, Reply, Survey};
use ring_service::Served;
use std::alloc::Global;

/// A grant is answered with its number among all grants: here the numbers begin at 1 again.
pub fn pass_that_counts_from_one(
    ring: &mut EndlessRing,
    seat: u32,
    machine: u32,
    order: u64,
) -> Option<Receipt>
    ensures wrong { IfSome result
        (λ r. IsCalled ring.old ring.new seat (op.Pass machine order) r → ⊥) }
{
    let Ok(receipt) = ring.pass(seat, machine, order) else {
        return None;
    };
    match receipt.event.reply {
        Reply::Granted { number, result } if number > 1 => Some(Receipt {
            position: receipt.position,
            event: Event {
                seat: receipt.event.seat,
                op: receipt.event.op,
                reply: Reply::Granted { number: 1, result },
            },
        }),
        _ => None,
    }
}

/// So is one that cannot be refused: here the numbers begin at 1 again.
pub fn grant_that_counts_from_one(
    ring: &mut EndlessRing,
    seat: u32,
    machine: u32,
    order: u64,
) -> Option<Receipt>
    requires seat { seat < length ring.old.ring.clients }
    requires machine { machine < length ring.old.ring.book.now.ring.values }
    requires privileged { is_privileged ring.old.ring.book.now.ring.values machine ≡ true }
    requires room { 1 ≤ ring.old.ring.book.room }
    ensures wrong { IfSome result
        (λ r. IsCalled ring.old ring.new seat (op.Pass machine order) r → ⊥) }
{
    let receipt = ring.grant(seat, machine, order);
    match receipt.event.reply {
        Reply::Granted { number, result } if number > 1 => Some(Receipt {
            position: receipt.position,
            event: Event {
                seat: receipt.event.seat,
                op: receipt.event.op,
                reply: Reply::Granted { number: 1, result },
            },
        }),
        _ => None,
    }
}

/// A try of a machine that is not privileged changes nothing: here it is recorded as a pass.
pub fn try_that_is_recorded(
    ring: &mut EndlessRing,
    seat: u32,
    machine: u32,
    order: u64,
) -> Option<Option<Receipt>>
    ensures wrong { IfSome result
        (λ r. IsTried ring.old ring.new seat machine order r → ⊥) }
{
    match ring.pass(seat, machine, order) {
        Ok(_) => Some(None),
        Err(_) => None,
    }
}

/// A survey counts from the first event of all: here it counts from that of the segment.
pub fn survey_of_the_segment(ring: &mut EndlessRing, seat: u32) -> Option<Survey>
    requires { 1 ≤ ring.old.base.events }
    ensures wrong { IfSome result (λ s. IsSurveyed ring.old ring.new seat s → ⊥) }
{
    let survey = ring.segment().glance();
    match ring.survey(seat) {
        Ok(_) => Some(survey),
        Err(_) => None,
    }
}

/// The log of a seat has the surveys that it was given: here it lacks one.
pub fn survey_that_no_log_has(ring: &mut EndlessRing, seat: u32) -> Survey
    requires { seat < length ring.old.ring.clients }
    ensures wrong { IsSurveyed ring.old ring.new seat result → ⊥ }
{
    ring.glance()
}

/// The next segment has no events: here the one that ends is said to be next.
pub fn next_that_has_the_old_events(ring: EndlessRing) -> EndlessRing
    requires { 1 ≤ length ring.ring.book.history }
    ensures wrong { IsNextRing ring result → ⊥ }
{
    ring
}

/// The next segment has no events: here a call comes before it is handed out.
pub fn next_that_begins_with_a_call(
    alloc: Global,
    ring: &EndlessRing,
    seat: u32,
    machine: u32,
    order: u64,
) -> Option<EndlessRing>
    ensures wrong { IfSome result (λ next. IsNextRing ring.now next → ⊥) }
{
    let Ok(mut next) = ring.next(alloc) else {
        return None;
    };
    match next.pass(seat, machine, order) {
        Ok(_) => Some(next),
        Err(_) => None,
    }
}

/// The base counts the grants of the segments before: here it forgets them, and fencing tokens come back.
pub fn next_that_forgets_the_grants(alloc: Global, ring: &EndlessRing) -> Option<EndlessRing>
    requires { 1 ≤ ring.now.base.grants }
    ensures wrong { IfSome result (λ next. IsNextRing ring.now next → ⊥) }
{
    let base = Base {
        events: ring.base().events,
        grants: 0,
        amount: ring.base().amount,
        calm: 0,
    };
    let Ok(segment) = ring.segment().successor(alloc, Till::new()) else {
        return None;
    };
    if !base.has_room() {
        return None;
    }
    Some(EndlessRing::after(base, segment))
}

/// No next segment is refused for lack of room if there is room: here it is.
pub fn next_that_is_full_too_early(alloc: Global, served: &Served) -> Option<NextError>
    ensures wrong { IfSome result (λ e. (e ≡ error.Full → IsFull served.now) → ⊥) }
{
    match served.next(alloc) {
        Ok(_) => Some(NextError::Full),
        Err(_) => None,
    }
}

/// Each ring has a next segment: here none has.
pub fn next_without_the_rings(alloc: Global, _served: &Served) -> Served
    requires { 1 ≤ length _served.now }
    ensures wrong { AreNext _served.now result → ⊥ }
{
    Served::none(alloc)
}
