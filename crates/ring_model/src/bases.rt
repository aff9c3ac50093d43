//! The base of a segment of a ring's history, which is what came before it, and the segment's numbers counted with it.

ghost use Rattle.std.specs.Prelude.{◌≡◌, None, ◌+◌, ◌<◌, ◌≤◌, ◌^◌, ◌↔◌, IsTrue, IfSome};
ghost use Rattle.ring_model.specs.Limits.{event_limit};
ghost use Rattle.ring_model.specs.Bases.{no_base, IsBase, shifted_reply, shifted_calm, shifted_receipt, shifted_survey};
ghost use Rattle.ring_model.specs.Tallies.{base_with, IsInSegment};

use crate::events::{Event, Receipt, Reply, Survey};
use crate::limits::EVENT_LIMIT;
use crate::tallies::Tally;

/// The base of a segment of a ring's history: what came before it.
#[derive(Clone, Copy, Debug, PartialEq, Eq)]
pub struct Base {
    /// The number of events.
    pub events: u64,
    /// The number of granted passes.
    pub grants: u64,
    /// The amount in the till.
    pub amount: u64,
    /// The granted passes since the last corruption, or since the start where there was none.
    pub calm: u64,
}

impl Base {
    /// Nothing came before.
    pub fn none() -> Base
        ensures none { result ≡ no_base }
        ensures room { IsBase result }
    {
        Base {
            events: 0,
            grants: 0,
            amount: 0,
            calm: 0,
        }
    }

    /// Whether a segment has room after it.
    pub fn has_room(&self) -> bool
        ensures { IsTrue result ↔ IsBase self.now }
    {
        self.events <= u64::MAX - EVENT_LIMIT as u64
            && self.grants <= self.events
            && self.calm <= self.grants
    }

    /// A segment's reply, shifted.
    #[inline(always)]
    pub fn shift_reply(&self, reply: Reply) -> Reply
        requires base { IsBase self.now }
        requires within { IsInSegment reply }
        ensures { result ≡ shifted_reply self.now reply }
    {
        match reply {
            Reply::Granted { number, result } => Reply::Granted {
                number: self.grants + number,
                result: self.amount.saturating_add(result),
            },
            other => other,
        }
    }

    /// A segment's receipt, shifted.
    #[inline(always)]
    pub fn shift_receipt(&self, receipt: Receipt) -> Receipt
        requires base { IsBase self.now }
        requires position { receipt.position ≤ event_limit }
        requires within { IsInSegment receipt.event.reply }
        ensures { result ≡ shifted_receipt self.now receipt }
    {
        let event = Event {
            seat: receipt.event.seat,
            op: receipt.event.op,
            reply: self.shift_reply(receipt.event.reply),
        };
        Receipt {
            position: self.events + receipt.position,
            event,
        }
    }

    /// A segment's calm, shifted: that before the segment counts as long as no corruption has come in it.
    fn shift_calm(&self, quiet: bool, calm: u64) -> u64
        requires base { IsBase self.now }
        requires calm { calm ≤ event_limit }
        ensures { result ≡ shifted_calm self.now quiet calm }
    {
        if quiet { self.calm + calm } else { calm }
    }

    /// A segment's survey, shifted, of a place up to which the segment is quiet, or is not.
    pub fn shift_survey(&self, quiet: bool, survey: Survey) -> Survey
        requires base { IsBase self.now }
        requires position { survey.position ≤ event_limit }
        requires calm { survey.calm ≤ event_limit }
        ensures { result ≡ shifted_survey self.now quiet survey }
    {
        Survey {
            position: self.events + survey.position,
            privileged: survey.privileged,
            first: survey.first,
            calm: self.shift_calm(quiet, survey.calm),
            rest: survey.rest,
        }
    }

    /// The base of the next segment, from the tally of this one and the survey of its end; none if no segment has room
    /// after it.
    pub fn next(&self, tally: Tally, end: Survey) -> Option<Base>
        requires base { IsBase self.now }
        requires grants { tally.grants ≤ event_limit }
        requires position { end.position ≤ event_limit }
        requires calm { end.calm ≤ event_limit }
        ensures room { IfSome result (λ next. IsBase next) }
        ensures next { IfSome result (λ next. next ≡ base_with self.now tally end) }
        ensures none { result ≡ None → ¬ IsBase (base_with self.now tally end) }
    {
        let next = Base {
            events: self.events + end.position,
            grants: self.grants + tally.grants,
            amount: self.amount.saturating_add(tally.amount),
            calm: self.shift_calm(tally.quiet, end.calm),
        };
        if next.has_room() { Some(next) } else { None }
    }
}
