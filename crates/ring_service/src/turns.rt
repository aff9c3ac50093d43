//! The calls of one ring, each with its answer and its record.

ghost use Rattle.std.specs.Prelude.{◌≡◌, ℕ};
ghost use Rattle.endless_ring.specs.Endless.{IsEndless};
ghost use Rattle.ring_service.specs.Commands.{seen, ring_of, pass, try, group, corrupt, survey, glance};
ghost use Rattle.ring_service.specs.Standings.{standing_of};
ghost use Rattle.ring_service.specs.Turns.{IsTurnAt, turn_seen, answer_of, refusal_of};

use crate::answers::{Answer, Refusal};
use crate::commands::Command;
use endless_ring::EndlessRing;
use one_thread_ring::CallError;
use ring_model::{Reply, Survey};

/// The trace of a call: what is to be recorded of it.
#[derive(Clone, Copy)]
pub enum Trace {
    Nothing,
    /// The events of the ring's segment, from this place on.
    Events(usize),
    /// A survey of the segment, which the log of a seat keeps.
    Survey { seat: u32, survey: Survey },
}

/// The answer to a call, with its trace.
#[derive(Clone, Copy)]
pub struct CallAnswer {
    pub answer: Answer,
    pub trace: Trace,
}

/// The answer to a call that is refused.
pub(crate) fn refusal_answer(why: Refusal) -> CallAnswer
    ensures { result ≡ record { answer = Answer.Refused why; trace = Trace.Nothing } }
{
    CallAnswer {
        answer: Answer::Refused(why),
        trace: Trace::Nothing,
    }
}

/// The refusal of a ring that is called by numbers, as that of a command.
fn refusal_of(error: CallError) -> Refusal
    ensures { result ≡ refusal_of error }
{
    match error {
        CallError::NoSeat => Refusal::NoSeat,
        CallError::NoMachine => Refusal::NoMachine,
        CallError::NoValue => Refusal::NoValue,
        CallError::NotRising => Refusal::NotRising,
        CallError::WholeRing => Refusal::WholeRing,
        CallError::NotPrivileged(machine) => Refusal::NotPrivileged(machine),
        CallError::HistoryFull => Refusal::HistoryFull,
        CallError::OutOfMemory => Refusal::OutOfMemory,
    }
}

/// The answer to a reply.
fn answer_of(reply: Reply) -> Answer
    ensures { result ≡ answer_of reply }
{
    match reply {
        Reply::Granted { number, result } => Answer::Granted { number, result },
        Reply::NotPrivileged => Answer::Waits,
        Reply::Corrupted { old } => Answer::Corrupted { old },
    }
}

/// A pass by a machine, for a seat.
fn make_pass(ring: &mut EndlessRing, seat: u32, machine: u32, order: u64) -> CallAnswer
    ensures turn { (at : ℕ)
        → IsTurnAt (standing_of ring.old) (pass at seat machine order)
        (turn_seen at (standing_of ring.new) result) }
    ensures ring { IsEndless ring.new }
{
    let from = ring.segment().history().len();
    match ring.pass(seat, machine, order) {
        Ok(receipt) => CallAnswer {
            answer: answer_of(receipt.event.reply),
            trace: Trace::Events(from),
        },
        Err(error) => refusal_answer(refusal_of(error)),
    }
}

/// A pass by a machine, for a seat, if the machine is privileged; if not, there is nothing to record.
fn make_try(ring: &mut EndlessRing, seat: u32, machine: u32, order: u64) -> CallAnswer
    ensures turn { (at : ℕ)
        → IsTurnAt (standing_of ring.old) (try at seat machine order)
        (turn_seen at (standing_of ring.new) result) }
    ensures ring { IsEndless ring.new }
{
    let from = ring.segment().history().len();
    match ring.try_pass(seat, machine, order) {
        Ok(Some(receipt)) => CallAnswer {
            answer: answer_of(receipt.event.reply),
            trace: Trace::Events(from),
        },
        Ok(None) => CallAnswer {
            answer: Answer::Waits,
            trace: Trace::Nothing,
        },
        Err(error) => refusal_answer(refusal_of(error)),
    }
}

/// A fault, for a seat.
fn make_fault(ring: &mut EndlessRing, seat: u32, machine: u32, value: u32) -> CallAnswer
    ensures turn { (at : ℕ)
        → IsTurnAt (standing_of ring.old) (corrupt at seat machine value)
        (turn_seen at (standing_of ring.new) result) }
    ensures ring { IsEndless ring.new }
{
    let from = ring.segment().history().len();
    match ring.corrupt(seat, machine, value) {
        Ok(receipt) => CallAnswer {
            answer: answer_of(receipt.event.reply),
            trace: Trace::Events(from),
        },
        Err(error) => refusal_answer(refusal_of(error)),
    }
}

/// A pass by a group of machines at once, for a seat.
fn make_group(ring: &mut EndlessRing, seat: u32, order: u64, machines: &[u32]) -> CallAnswer
    ensures turn { (at : ℕ)
        → IsTurnAt (standing_of ring.old) (group at seat order machines.now)
        (turn_seen at (standing_of ring.new) result) }
    ensures ring { IsEndless ring.new }
{
    let from = ring.segment().history().len();
    match ring.pass_group(seat, machines, order) {
        Ok(receipt) => CallAnswer {
            answer: Answer::Block {
                first: receipt.first,
                count: receipt.count,
            },
            trace: Trace::Events(from),
        },
        Err(error) => refusal_answer(refusal_of(error)),
    }
}

/// A survey, which the log of a seat keeps.
fn make_survey(ring: &mut EndlessRing, seat: u32) -> CallAnswer
    ensures turn { (at : ℕ)
        → IsTurnAt (standing_of ring.old) (survey at seat)
        (turn_seen at (standing_of ring.new) result) }
    ensures ring { IsEndless ring.new }
{
    let survey = ring.segment().glance();
    match ring.survey(seat) {
        Ok(shifted) => CallAnswer {
            answer: Answer::Survey(shifted),
            trace: Trace::Survey { seat, survey },
        },
        Err(error) => refusal_answer(refusal_of(error)),
    }
}

/// A command for its ring.
pub(crate) fn make(ring: &mut EndlessRing, command: &Command) -> CallAnswer
    requires { IsEndless ring.old }
    ensures turn { IsTurnAt (standing_of ring.old) (seen command.now)
        (turn_seen (ring_of (seen command.now)) (standing_of ring.new) result) }
    ensures ring { IsEndless ring.new }
{
    match command {
        Command::Pass {
            seat,
            machine,
            order,
            ..
        } => make_pass(ring, *seat, *machine, *order),
        Command::Try {
            seat,
            machine,
            order,
            ..
        } => make_try(ring, *seat, *machine, *order),
        Command::Group {
            seat,
            order,
            machines,
            ..
        } => make_group(ring, *seat, *order, machines.as_slice()),
        Command::Corrupt {
            seat,
            machine,
            value,
            ..
        } => make_fault(ring, *seat, *machine, *value),
        Command::Survey { seat, .. } => make_survey(ring, *seat),
        Command::Glance { .. } => CallAnswer {
            answer: Answer::Survey(ring.glance()),
            trace: Trace::Nothing,
        },
        // the caller saves, or answers that it did not
        Command::Save => CallAnswer {
            answer: Answer::Saved,
            trace: Trace::Nothing,
        },
    }
}
