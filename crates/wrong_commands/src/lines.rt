//! Wrong turns of a line: its answer, and its part in the journal.

ghost use Rattle.std.specs.Prelude.{IfSome, false};
ghost use Rattle.ring_service.specs.Turns.{IsTurnOfLine, turn_seen_among};

use ring_model::Survey;
use ring_service::{Answer, CallAnswer, LineAnswer, Refusal, Served, Trace, answer_line};
use std::alloc::Global;

/// A pass of a machine that is not privileged waits: here it is answered as granted. It gives up unless the line waits.
pub fn tells_a_wait_as_granted(
    alloc: Global,
    served: &mut Served,
    faults: bool,
    line: &[u8],
    number: u64,
    told: u64,
) -> Option<LineAnswer>
    ensures wrong { IfSome result
        (λ t. IsTurnOfLine faults served.old line.now (turn_seen_among t.ring served.new t.call)
        → ⊥) }
{
    let LineAnswer { ring, call } = answer_line(alloc, served, faults, line);
    match call.answer {
        Answer::Waits => {
            let answer = Answer::Granted {
                number,
                result: told,
            };
            let call = CallAnswer {
                answer,
                trace: call.trace,
            };
            Some(LineAnswer { ring, call })
        }
        _ => None,
    }
}

/// The numbers of a ring's grants continue those of its history: here they begin at 1. It gives up unless the line is granted a
/// later number.
pub fn begins_at_one(
    alloc: Global,
    served: &mut Served,
    faults: bool,
    line: &[u8],
) -> Option<LineAnswer>
    ensures wrong { IfSome result
        (λ t. IsTurnOfLine faults served.old line.now (turn_seen_among t.ring served.new t.call)
        → ⊥) }
{
    let LineAnswer { ring, call } = answer_line(alloc, served, faults, line);
    match call.answer {
        Answer::Granted { number, result } if number > 1 => {
            let answer = Answer::Granted { number: 1, result };
            let call = CallAnswer {
                answer,
                trace: call.trace,
            };
            Some(LineAnswer { ring, call })
        }
        _ => None,
    }
}

/// A try of a machine that is not privileged is not an event: here the ring's events from a place on are its record. It gives up at
/// any other line.
pub fn records_a_try_that_waits(
    alloc: Global,
    served: &mut Served,
    faults: bool,
    line: &[u8],
    from: usize,
) -> Option<LineAnswer>
    ensures wrong { IfSome result
        (λ t. IsTurnOfLine faults served.old line.now (turn_seen_among t.ring served.new t.call)
        → ⊥) }
{
    let LineAnswer { ring, call } = answer_line(alloc, served, faults, line);
    match (call.answer, call.trace) {
        (Answer::Waits, Trace::Nothing) => {
            let call = CallAnswer {
                answer: call.answer,
                trace: Trace::Events(from),
            };
            Some(LineAnswer { ring, call })
        }
        _ => None,
    }
}

/// A call that is refused is not recorded: here one of a machine that there is not is. It gives up at any other line.
pub fn records_a_refused_call(
    alloc: Global,
    served: &mut Served,
    faults: bool,
    line: &[u8],
    seat: u32,
    survey: Survey,
) -> Option<LineAnswer>
    ensures wrong { IfSome result
        (λ t. IsTurnOfLine faults served.old line.now (turn_seen_among t.ring served.new t.call)
        → ⊥) }
{
    let LineAnswer { ring, call } = answer_line(alloc, served, faults, line);
    match (call.answer, call.trace) {
        (Answer::Refused(why), Trace::Nothing) => match why {
            Refusal::NoMachine => {
                let trace = Trace::Survey { seat, survey };
                let call = CallAnswer {
                    answer: call.answer,
                    trace,
                };
                Some(LineAnswer { ring, call })
            }
            _ => None,
        },
        _ => None,
    }
}

/// A survey is recorded: here it is not. It gives up unless the line is one.
pub fn forgets_a_survey(
    alloc: Global,
    served: &mut Served,
    faults: bool,
    line: &[u8],
) -> Option<LineAnswer>
    ensures wrong { IfSome result
        (λ t. IsTurnOfLine faults served.old line.now (turn_seen_among t.ring served.new t.call)
        → ⊥) }
{
    let LineAnswer { ring, call } = answer_line(alloc, served, faults, line);
    match (call.answer, call.trace) {
        (Answer::Survey(_), Trace::Survey { .. }) => {
            let call = CallAnswer {
                answer: call.answer,
                trace: Trace::Nothing,
            };
            Some(LineAnswer { ring, call })
        }
        _ => None,
    }
}

/// The record is the called ring's: here it is another's. It gives up unless the line is a survey of another ring than the
/// given one.
pub fn exchanges_the_rings(
    alloc: Global,
    served: &mut Served,
    faults: bool,
    line: &[u8],
    other: u32,
) -> Option<LineAnswer>
    ensures wrong { IfSome result
        (λ t. IsTurnOfLine faults served.old line.now (turn_seen_among t.ring served.new t.call)
        → ⊥) }
{
    let LineAnswer { ring, call } = answer_line(alloc, served, faults, line);
    match (call.answer, call.trace) {
        (Answer::Survey(_), Trace::Survey { .. }) if ring != other => {
            Some(LineAnswer { ring: other, call })
        }
        _ => None,
    }
}

/// A fault is refused unless it is permitted: here it is made all the same. It gives up at any other line.
pub fn makes_a_fault_that_is_not_permitted(
    alloc: Global,
    served: &mut Served,
    line: &[u8],
) -> Option<LineAnswer>
    ensures wrong { IfSome result
        (λ t. IsTurnOfLine false served.old line.now (turn_seen_among t.ring served.new t.call)
        → ⊥) }
{
    let made = answer_line(alloc, served, true, line);
    match made.call.answer {
        Answer::Corrupted { .. } => Some(made),
        _ => None,
    }
}
