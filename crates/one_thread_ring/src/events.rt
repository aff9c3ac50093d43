//! Events and surveys as lines of a text.

ghost use Rattle.std.specs.Prelude.{◌≡◌};
ghost use Rattle.saved_history.specs.Spelling.{EventFits, SurveyFits};
ghost use Rattle.saved_history.specs.Versions.{latest_version};
ghost use Rattle.one_thread_ring.specs.SavedOf.{saved_for, old_of, saved_event, saved_survey};

use ring_model::{Event, Op, Reply, Survey};
use saved_history::{SavedEvent, SavedSurvey};

/// Returns the line of a pass; a reply that is not one to a pass is written as a refused pass.
fn saved_pass(seat: u32, machine: u32, order: u64, reply: Reply) -> SavedEvent
    ensures is { result ≡ saved_for seat (Op.Pass machine order) reply }
    ensures fits { EventFits latest_version result }
{
    match reply {
        Reply::Granted { number, result } => SavedEvent::Granted {
            seat,
            machine,
            order,
            number,
            result,
        },
        _ => SavedEvent::Refused {
            seat,
            machine,
            order,
        },
    }
}

/// The line of a member of a group, whose reply is that of a granted pass; a refused pass is written for any other.
fn saved_member(seat: u32, machine: u32, order: u64, left: u32, reply: Reply) -> SavedEvent
    ensures is { result ≡ saved_for seat (Op.Member machine order left) reply }
    ensures fits { EventFits latest_version result }
{
    match reply {
        Reply::Granted { number, result } => SavedEvent::Member {
            seat,
            machine,
            order,
            left,
            number,
            result,
        },
        _ => SavedEvent::Refused {
            seat,
            machine,
            order,
        },
    }
}

/// The value that was there before a corruption; the written one, if the reply does not say it.
fn old_of(value: u32, reply: Reply) -> u32
    ensures { result ≡ old_of value reply }
{
    match reply {
        Reply::Corrupted { old } => old,
        _ => value,
    }
}

/// The line of an event. Each event of a history is read back from its line. One whose reply is none to its call is in no
/// history: a pass is written as a refused pass, and a corruption as one that changes nothing.
pub fn saved_event(event: Event) -> SavedEvent
    ensures is { result ≡ saved_event event }
    ensures fits { EventFits latest_version result }
{
    let Event { seat, op, reply } = event;
    match op {
        Op::Pass { machine, order } => saved_pass(seat, machine, order, reply),
        Op::Member {
            machine,
            order,
            left,
        } => saved_member(seat, machine, order, left, reply),
        Op::Corrupt { machine, value } => SavedEvent::Corrupted {
            seat,
            machine,
            value,
            old: old_of(value, reply),
        },
    }
}

/// The line of a survey that a seat was given.
pub fn saved_survey(seat: u32, survey: Survey) -> SavedSurvey
    ensures is { result ≡ saved_survey seat survey }
    ensures fits { SurveyFits result }
{
    SavedSurvey {
        seat,
        position: survey.position,
        privileged: survey.privileged,
        first: survey.first,
        calm: survey.calm,
        rest: survey.rest,
    }
}
