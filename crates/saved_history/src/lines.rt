//! The readers of single lines.

ghost use Rattle.std.specs.Prelude.{◌≡◌};
ghost use Rattle.text_lines.specs.Reading.{Gives};
ghost use Rattle.saved_history.specs.Lines.{version_at, reply_at, pass_at, corruption_at, member_at, end_at, event_or_end_at, head_at, done_at, survey_at, survey_or_next_at, item_of, follow_of};

use crate::saved::{RingHeader, SavedEvent, SavedSurvey};
use crate::versions::{FIRST_VERSION, LATEST_VERSION};
use text_lines::{Fault, Stop, number32, number64, positive32, word};

/// The line of an event, or the line after the events.
#[derive(Clone, Copy)]
pub enum EventOrEnd {
    Event(SavedEvent),
    End(u64),
}

/// The line after a block.
#[derive(Clone, Copy)]
pub enum Next {
    Ring(RingHeader),
    Done(u32),
}

/// The line of a survey, or the line after the block.
#[derive(Clone, Copy)]
pub enum SurveyOrNext {
    Survey(SavedSurvey),
    Next(Next),
}

/// The version, and the end of the text's first line.
#[tactic(auto, unfolding(crate::specs::Lines::version_at))]
pub fn version(bytes: &[u8]) -> Result<(u32, &[u8]), Stop>
    ensures { Gives (λ x. (x.0, x.1.now)) result (version_at bytes.now) }
{
    match bytes {
        [] => Err(Stop::Fault(Fault::Short)),
        [b'1', ..] => {
            let rest = word(bytes, b"1\n")?;
            Ok((FIRST_VERSION, rest))
        }
        [b'2', ..] => {
            let rest = word(bytes, b"2\n")?;
            Ok((LATEST_VERSION, rest))
        }
        [_, ..] => Err(Stop::Fault(Fault::Bad(bytes.len()))),
    }
}

/// The number and the result of a grant, or none.
#[tactic(auto, unfolding(crate::specs::Lines::reply_at))]
#[inline(always)]
fn reply(bytes: &[u8]) -> Result<(Option<(u64, u64)>, &[u8]), Stop>
    ensures { Gives (λ x. (x.0, x.1.now)) result (reply_at bytes.now) }
{
    match bytes {
        [] => Err(Stop::Fault(Fault::Short)),
        [b'g', ..] => {
            let rest = word(bytes, b"g ")?;
            let (number, rest) = number64(rest, b' ')?;
            let (answer, rest) = number64(rest, b'\n')?;
            Ok((Some((number, answer)), rest))
        }
        [b'n', ..] => {
            let rest = word(bytes, b"n\n")?;
            Ok((None, rest))
        }
        [_, ..] => Err(Stop::Fault(Fault::Bad(bytes.len()))),
    }
}

#[tactic(auto, unfolding(crate::specs::Lines::pass_at))]
fn pass(bytes: &[u8]) -> Result<(SavedEvent, &[u8]), Stop>
    ensures { Gives (λ x. (x.0, x.1.now)) result (pass_at bytes.now) }
{
    let rest = word(bytes, b"p ")?;
    let (seat, rest) = number32(rest, b' ')?;
    let (machine, rest) = number32(rest, b' ')?;
    let (order, rest) = number64(rest, b' ')?;
    let (granted, rest) = reply(rest)?;
    let event = match granted {
        Some((number, answer)) => SavedEvent::Granted {
            seat,
            machine,
            order,
            number,
            result: answer,
        },
        None => SavedEvent::Refused {
            seat,
            machine,
            order,
        },
    };
    Ok((event, rest))
}

#[tactic(auto, unfolding(crate::specs::Lines::corruption_at))]
fn corruption(bytes: &[u8]) -> Result<(SavedEvent, &[u8]), Stop>
    ensures { Gives (λ x. (x.0, x.1.now)) result (corruption_at bytes.now) }
{
    let rest = word(bytes, b"c ")?;
    let (seat, rest) = number32(rest, b' ')?;
    let (machine, rest) = number32(rest, b' ')?;
    let (value, rest) = number32(rest, b' ')?;
    let (old, rest) = number32(rest, b'\n')?;
    let event = SavedEvent::Corrupted {
        seat,
        machine,
        value,
        old,
    };
    Ok((event, rest))
}

#[tactic(auto, unfolding(crate::specs::Lines::member_at))]
fn member(bytes: &[u8]) -> Result<(SavedEvent, &[u8]), Stop>
    ensures { Gives (λ x. (x.0, x.1.now)) result (member_at bytes.now) }
{
    let rest = word(bytes, b"m ")?;
    let (seat, rest) = number32(rest, b' ')?;
    let (machine, rest) = number32(rest, b' ')?;
    let (order, rest) = number64(rest, b' ')?;
    let (left, rest) = number32(rest, b' ')?;
    let (number, rest) = number64(rest, b' ')?;
    let (answer, rest) = number64(rest, b'\n')?;
    let event = SavedEvent::Member {
        seat,
        machine,
        order,
        left,
        number,
        result: answer,
    };
    Ok((event, rest))
}

#[tactic(auto, unfolding(crate::specs::Lines::end_at))]
fn end(bytes: &[u8]) -> Result<(u64, &[u8]), Stop>
    ensures { Gives (λ x. (x.0, x.1.now)) result (end_at bytes.now) }
{
    let rest = word(bytes, b"end ")?;
    number64(rest, b'\n')
}

/// Reads the line of an event of any kind that a text of this version has, or the line after the events.
#[tactic(auto, unfolding(crate::specs::Lines::event_or_end_at))]
pub fn event_or_end(version: u32, bytes: &[u8]) -> Result<(EventOrEnd, &[u8]), Stop>
    ensures { Gives (λ x. (item_of x.0, x.1.now)) result (event_or_end_at version bytes.now) }
{
    match bytes {
        [] => Err(Stop::Fault(Fault::Short)),
        [b'p', ..] => {
            let (event, rest) = pass(bytes)?;
            Ok((EventOrEnd::Event(event), rest))
        }
        [b'c', ..] => {
            let (event, rest) = corruption(bytes)?;
            Ok((EventOrEnd::Event(event), rest))
        }
        [b'e', ..] => {
            let (events, rest) = end(bytes)?;
            Ok((EventOrEnd::End(events), rest))
        }
        [b'm', ..] if version > FIRST_VERSION => {
            let (event, rest) = member(bytes)?;
            Ok((EventOrEnd::Event(event), rest))
        }
        [_, ..] => Err(Stop::Fault(Fault::Bad(bytes.len()))),
    }
}

#[tactic(auto, unfolding(crate::specs::Lines::head_at))]
pub fn head(bytes: &[u8]) -> Result<(RingHeader, &[u8]), Stop>
    ensures { Gives (λ x. (x.0, x.1.now)) result (head_at bytes.now) }
{
    let rest = word(bytes, b"ring ")?;
    let (index, rest) = number32(rest, b' ')?;
    let (n, rest) = positive32(rest, b' ')?;
    let (k, rest) = number32(rest, b'\n')?;
    Ok((RingHeader { index, n, k }, rest))
}

#[tactic(auto, unfolding(crate::specs::Lines::done_at))]
fn done(bytes: &[u8]) -> Result<(u32, &[u8]), Stop>
    ensures { Gives (λ x. (x.0, x.1.now)) result (done_at bytes.now) }
{
    let rest = word(bytes, b"done ")?;
    number32(rest, b'\n')
}

#[tactic(auto, unfolding(crate::specs::Lines::survey_at))]
fn survey(bytes: &[u8]) -> Result<(SavedSurvey, &[u8]), Stop>
    ensures { Gives (λ x. (x.0, x.1.now)) result (survey_at bytes.now) }
{
    let after = word(bytes, b"s ")?;
    let (seat, after) = number32(after, b' ')?;
    let (position, after) = number64(after, b' ')?;
    let (privileged, after) = number32(after, b' ')?;
    let (first, after) = number32(after, b' ')?;
    let (calm, after) = number64(after, b' ')?;
    let (rest, after) = number64(after, b'\n')?;
    let survey = SavedSurvey {
        seat,
        position,
        privileged,
        first,
        calm,
        rest,
    };
    Ok((survey, after))
}

/// The line of a survey, a ring's first line, or the last line.
#[tactic(auto, unfolding(crate::specs::Lines::survey_or_next_at))]
pub fn survey_or_next(bytes: &[u8]) -> Result<(SurveyOrNext, &[u8]), Stop>
    ensures { Gives (λ x. (follow_of x.0, x.1.now)) result (survey_or_next_at bytes.now) }
{
    match bytes {
        [] => Err(Stop::Fault(Fault::Short)),
        [b's', ..] => {
            let (survey, rest) = survey(bytes)?;
            Ok((SurveyOrNext::Survey(survey), rest))
        }
        [b'r', ..] => {
            let (head, rest) = head(bytes)?;
            Ok((SurveyOrNext::Next(Next::Ring(head)), rest))
        }
        [b'd', ..] => {
            let (rings, rest) = done(bytes)?;
            Ok((SurveyOrNext::Next(Next::Done(rings)), rest))
        }
        [_, ..] => Err(Stop::Fault(Fault::Bad(bytes.len()))),
    }
}
