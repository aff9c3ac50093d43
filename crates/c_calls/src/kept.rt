//! The ring that C holds, over one of the two resources.

ghost use Rattle.ring_model.specs.Resources.{till};
ghost use Rattle.ring_model.specs.Bases.{no_base};
ghost use Rattle.one_thread_ring.specs.Rings.{IsOneThreadRing};
ghost use Rattle.endless_ring.specs.Files.{first_place, filed_at};
ghost use Rattle.c_calls.specs.Answers.{IsPassAnswer, IsTryAnswer, IsCorruptAnswer, IsGroupAnswer, IsSurveyAnswer, IsGlance, events_of, before_of, event_of, first_grant};
ghost use Rattle.c_calls.specs.Sealed.{kept_after};
ghost use Rattle.std.specs.Prelude.{◌≡◌};

use crate::answers::grant_in;
use endless_ring::{FilePlace, FileRing};
use one_thread_ring::{CallError, OneThreadRing};
use ring_book::{GroupReceipt, Idle, Till};
use ring_model::{Base, Event, Receipt, Survey};
use std::alloc::Global;

/// A ring over a till, which adds up the orders of granted passes, without end; or one over a resource that does no work.
#[derive(Drop)]
pub enum Kept {
    Till(FileRing),
    Idle(OneThreadRing<Idle>),
}

/// A ring over a till whose segment is the first file of a chain.
pub fn first_file(alloc: Global, ring: OneThreadRing<Till>) -> Kept
    requires { IsOneThreadRing till 0 ring }
    ensures { result ≡ Kept.Till (filed_at first_place no_base ring) }
{
    Kept::Till(FileRing::at(alloc, FilePlace::first(), Base::none(), ring))
}

/// A pass.
pub fn pass(kept: &mut Kept, seat: u32, machine: u32, order: u64) -> Result<Receipt, CallError>
    ensures { IsPassAnswer kept.old kept.new seat machine order result }
{
    match kept {
        Kept::Till(ring) => ring.pass(seat, machine, order),
        Kept::Idle(ring) => ring.pass(seat, machine, order),
    }
}

/// A pass, if the machine is privileged.
pub fn try_pass(
    kept: &mut Kept,
    seat: u32,
    machine: u32,
    order: u64,
) -> Result<Option<Receipt>, CallError>
    ensures { IsTryAnswer kept.old kept.new seat machine order result }
{
    match kept {
        Kept::Till(ring) => ring.try_pass(seat, machine, order),
        Kept::Idle(ring) => ring.try_pass(seat, machine, order),
    }
}

/// A fault.
pub fn corrupt(kept: &mut Kept, seat: u32, machine: u32, value: u32) -> Result<Receipt, CallError>
    ensures { IsCorruptAnswer kept.old kept.new seat machine value result }
{
    match kept {
        Kept::Till(ring) => ring.corrupt(seat, machine, value),
        Kept::Idle(ring) => ring.corrupt(seat, machine, value),
    }
}

/// A group pass.
pub fn pass_group(
    kept: &mut Kept,
    seat: u32,
    machines: &[u32],
    order: u64,
) -> Result<GroupReceipt, CallError>
    ensures { IsGroupAnswer kept.old kept.new seat machines.now order result }
{
    match kept {
        Kept::Till(ring) => ring.pass_group(seat, machines, order),
        Kept::Idle(ring) => ring.pass_group(seat, machines, order),
    }
}

/// The grant of the first member of a group that passed.
pub fn first_grant(kept: &Kept, answer: Result<GroupReceipt, CallError>) -> (u64, u64)
    ensures { result ≡ first_grant kept.now answer }
{
    match answer {
        Ok(receipt) => grant_in(event(kept, receipt.first)),
        Err(_) => (0, 0),
    }
}

/// A survey, which the seat's log keeps.
pub fn survey(kept: &mut Kept, seat: u32) -> Result<Survey, CallError>
    ensures { IsSurveyAnswer kept.old kept.new seat result }
{
    match kept {
        Kept::Till(ring) => ring.survey(seat),
        Kept::Idle(ring) => ring.survey(seat),
    }
}

/// The same, and nothing is logged.
pub fn glance(kept: &Kept) -> Survey
    ensures { IsGlance kept.now result }
{
    match kept {
        Kept::Till(ring) => ring.glance(),
        Kept::Idle(ring) => ring.glance(),
    }
}

/// How many events there were, over all segments.
pub fn history_length(kept: &Kept) -> u64
    ensures { result ≡ events_of kept.now }
{
    match kept {
        Kept::Till(ring) => ring.events(),
        Kept::Idle(ring) => ring.history_length(),
    }
}

/// How many of them are before the segment.
pub fn events_before(kept: &Kept) -> u64
    ensures { result ≡ before_of kept.now }
{
    match kept {
        Kept::Till(ring) => ring.ring().base().events,
        Kept::Idle(_) => 0,
    }
}

/// The event of this number over all segments, if this one has it.
pub fn event(kept: &Kept, number: u64) -> Option<Event>
    ensures { result ≡ event_of kept.now number }
{
    match kept {
        Kept::Till(ring) => ring.event(number),
        Kept::Idle(ring) => ring.history().get(number as usize).copied(),
    }
}

/// From now on a journal is kept, which has all of the segment so far.
pub(crate) fn keep(kept: &mut Kept)
    ensures { kept.new ≡ kept_after kept.old }
{
    match kept {
        Kept::Till(ring) => ring.keep(),
        Kept::Idle(_) => {}
    }
}
