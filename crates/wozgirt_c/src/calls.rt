//! The calls of a ring that C holds.

ghost use Rattle.std.specs.Prelude.{◌≡◌, true, false, Ok, Option, Result};
ghost use Rattle.ring_model.specs.declared.events.Receipt.{Receipt};
ghost use Rattle.ring_model.specs.declared.events.Survey.{Survey};
ghost use Rattle.ring_book.specs.declared.books.groups.GroupReceipt.{GroupReceipt};
ghost use Rattle.one_thread_ring.specs.declared.errors.CallError.{CallError};
ghost use Rattle.c_calls.specs.Answers.{IsPassAnswer, IsTryAnswer, IsCorruptAnswer, IsGroupAnswer, IsSurveyAnswer, IsGlance, events_of, before_of, event_of, first_grant};
ghost use Rattle.c_calls.specs.Codes.{closed};
ghost use Rattle.c_calls.specs.Reports.{IsCallReport, IsTryReport, IsGroupReport, IsSightReport, IsEventReport, sight_of};

use crate::handle::{Handle, opened, take_out};
use c_calls::answers::{
    Answer, EventRow, Group, Sight, report_call, report_event, report_group, report_sight,
    report_try,
};
use c_calls::codes::CLOSED;
use c_calls::kept;
use std::alloc::Global;

/// A pass by a machine, for a seat: 0 where it was granted, 1 where the machine is not privileged, else why it was refused.
#[unsafe(no_mangle)]
pub extern "C" fn wozgirt_pass(
    ring: &mut Handle,
    seat: u32,
    machine: u32,
    order: u64,
    out: &mut Answer,
) -> u32
    ensures closed { ring.old.full ≡ false
        → (result ≡ closed) × (ring.new ≡ ring.old) × (out.new ≡ out.old) }
    ensures full { ring.new.full ≡ ring.old.full }
    ensures reported { ring.old.full ≡ true
        → (answer : Result Receipt CallError)
        × IsPassAnswer ring.old.value ring.new.value seat machine order answer
        × IsCallReport answer result out.old out.new }
{
    let Some(kept) = opened(ring) else {
        return CLOSED;
    };
    let answer = kept::pass(kept, seat, machine, order);
    report_call(answer, out)
}

/// A pass by a machine, for a seat, if the machine is privileged: 0 where it was granted, 1 where the machine is not privileged,
/// and then nothing is recorded or written; else why it was refused.
#[unsafe(no_mangle)]
pub extern "C" fn wozgirt_try(
    ring: &mut Handle,
    seat: u32,
    machine: u32,
    order: u64,
    out: &mut Answer,
) -> u32
    ensures closed { ring.old.full ≡ false
        → (result ≡ closed) × (ring.new ≡ ring.old) × (out.new ≡ out.old) }
    ensures full { ring.new.full ≡ ring.old.full }
    ensures reported { ring.old.full ≡ true
        → (answer : Result (Option Receipt) CallError)
        × IsTryAnswer ring.old.value ring.new.value seat machine order answer
        × IsTryReport answer result out.old out.new }
{
    let Some(kept) = opened(ring) else {
        return CLOSED;
    };
    let answer = kept::try_pass(kept, seat, machine, order);
    report_try(answer, out)
}

/// A fault, for a seat: a value is written into a machine.
#[unsafe(no_mangle)]
pub extern "C" fn wozgirt_corrupt(
    ring: &mut Handle,
    seat: u32,
    machine: u32,
    value: u32,
    out: &mut Answer,
) -> u32
    ensures closed { ring.old.full ≡ false
        → (result ≡ closed) × (ring.new ≡ ring.old) × (out.new ≡ out.old) }
    ensures full { ring.new.full ≡ ring.old.full }
    ensures reported { ring.old.full ≡ true
        → (answer : Result Receipt CallError)
        × IsCorruptAnswer ring.old.value ring.new.value seat machine value answer
        × IsCallReport answer result out.old out.new }
{
    let Some(kept) = opened(ring) else {
        return CLOSED;
    };
    let answer = kept::corrupt(kept, seat, machine, value);
    report_call(answer, out)
}

/// A pass by machines whose numbers rise, all at once, for a seat.
#[unsafe(no_mangle)]
pub extern "C" fn wozgirt_pass_group(
    ring: &mut Handle,
    seat: u32,
    machines: &[u32],
    order: u64,
    out: &mut Group,
) -> u32
    ensures closed { ring.old.full ≡ false
        → (result ≡ closed) × (ring.new ≡ ring.old) × (out.new ≡ out.old) }
    ensures full { ring.new.full ≡ ring.old.full }
    ensures reported { ring.old.full ≡ true
        → (answer : Result GroupReceipt CallError)
        × IsGroupAnswer ring.old.value ring.new.value seat machines.now order answer
        × IsGroupReport answer (first_grant ring.new.value answer) result out.old out.new }
{
    let Some(kept) = opened(ring) else {
        return CLOSED;
    };
    let answer = kept::pass_group(kept, seat, machines, order);
    let grant = kept::first_grant(kept, answer);
    report_group(answer, grant, out)
}

/// A survey, for a seat, whose log keeps it.
#[unsafe(no_mangle)]
pub extern "C" fn wozgirt_survey(ring: &mut Handle, seat: u32, out: &mut Sight) -> u32
    ensures closed { ring.old.full ≡ false
        → (result ≡ closed) × (ring.new ≡ ring.old) × (out.new ≡ out.old) }
    ensures full { ring.new.full ≡ ring.old.full }
    ensures reported { ring.old.full ≡ true
        → (answer : Result Survey CallError)
        × IsSurveyAnswer ring.old.value ring.new.value seat answer
        × IsSightReport answer result out.old out.new }
{
    let Some(kept) = opened(ring) else {
        return CLOSED;
    };
    let answer = kept::survey(kept, seat);
    report_sight(answer, out)
}

/// The same, and nothing is logged.
#[unsafe(no_mangle)]
pub extern "C" fn wozgirt_glance(ring: &mut Handle, out: &mut Sight) -> u32
    ensures closed { ring.old.full ≡ false
        → (result ≡ closed) × (ring.new ≡ ring.old) × (out.new ≡ out.old) }
    ensures full { ring.new.full ≡ ring.old.full }
    ensures same { ring.old.full ≡ true → ring.new.value ≡ ring.old.value }
    ensures reported { ring.old.full ≡ true
        → (survey : Survey)
        × IsGlance ring.old.value survey
        × (result ≡ 0)
        × (out.new ≡ sight_of survey) }
{
    let Some(kept) = opened(ring) else {
        return CLOSED;
    };
    let survey = kept::glance(kept);
    report_sight(Ok(survey), out)
}

/// How many events there were, over all segments.
#[unsafe(no_mangle)]
pub extern "C" fn wozgirt_history_length(ring: &mut Handle, out: &mut u64) -> u32
    ensures closed { ring.old.full ≡ false
        → (result ≡ closed) × (ring.new ≡ ring.old) × (out.new ≡ out.old) }
    ensures full { ring.new.full ≡ ring.old.full }
    ensures same { ring.old.full ≡ true → ring.new.value ≡ ring.old.value }
    ensures reported { ring.old.full ≡ true
        → (result ≡ 0) × (out.new ≡ events_of ring.old.value) }
{
    let Some(kept) = opened(ring) else {
        return CLOSED;
    };
    *out = kept::history_length(kept);
    0
}

/// How many of the events are before the segment.
#[unsafe(no_mangle)]
pub extern "C" fn wozgirt_events_before(ring: &mut Handle, out: &mut u64) -> u32
    ensures closed { ring.old.full ≡ false
        → (result ≡ closed) × (ring.new ≡ ring.old) × (out.new ≡ out.old) }
    ensures full { ring.new.full ≡ ring.old.full }
    ensures same { ring.old.full ≡ true → ring.new.value ≡ ring.old.value }
    ensures reported { ring.old.full ≡ true
        → (result ≡ 0) × (out.new ≡ before_of ring.old.value) }
{
    let Some(kept) = opened(ring) else {
        return CLOSED;
    };
    *out = kept::events_before(kept);
    0
}

/// The event of this number, from 0 over all segments, if this one has it.
#[unsafe(no_mangle)]
pub extern "C" fn wozgirt_event_at(ring: &mut Handle, number: u64, out: &mut EventRow) -> u32
    ensures closed { ring.old.full ≡ false
        → (result ≡ closed) × (ring.new ≡ ring.old) × (out.new ≡ out.old) }
    ensures full { ring.new.full ≡ ring.old.full }
    ensures same { ring.old.full ≡ true → ring.new.value ≡ ring.old.value }
    ensures reported { ring.old.full ≡ true
        → IsEventReport (event_of ring.old.value number) result out.old out.new }
{
    let Some(kept) = opened(ring) else {
        return CLOSED;
    };
    let answer = kept::event(kept, number);
    report_event(answer, out)
}

/// Closes what C holds, and frees it; what is closed stays as it is.
#[unsafe(no_mangle)]
pub extern "C" fn wozgirt_close(alloc: Global, ring: &mut Handle)
    ensures empty { ring.new.full ≡ false }
    ensures same { ring.old.full ≡ false → ring.new ≡ ring.old }
{
    let _kept = take_out(ring, alloc);
}
