//! The lines that can follow in a journal.

ghost use Rattle.std.specs.Prelude.{◌≡◌, ◌^◌, IfOk};
ghost use Rattle.std.specs.List.{list_any};
ghost use Rattle.text_lines.specs.Reading.{number_at};
ghost use Rattle.saved_history.specs.Versions.{latest_version};
ghost use Rattle.saved_history.specs.Lines.{event_or_end_at, survey_or_next_at};
ghost use Rattle.segment_files.specs.Remarks.{lines_in};
ghost use Rattle.segment_files.specs.TornSigns.{is_above, is_from, can_have_event, can_have_survey, is_later_event, is_later_survey, is_later_call, is_later, can_follow};

use crate::reached::Reached;
use crate::remarks::{is_remark, split_line};
use saved_history::{
    EventOrEnd, LATEST_VERSION, SavedEvent, SavedSurvey, SurveyOrNext, event_or_end, survey_or_next,
};
use text_lines::{Stop, number32};

/// There was no room.
#[derive(Clone, Copy)]
pub(crate) struct NoRoom;

/// Whether a number is above what was reached, by no more than this.
fn is_above(reached: u64, most: u64, number: u64) -> bool
    ensures { result ≡ is_above reached most number }
{
    reached < number && number - reached <= most
}

/// Whether a number is at least what was reached, and above it by no more than this.
fn is_from(reached: u64, most: u64, number: u64) -> bool
    ensures { result ≡ is_from reached most number }
{
    reached <= number && number - reached <= most
}

/// Whether a ring that was reached so can have this event, after at most this many others.
fn can_have_event(reached: &Reached, most: u64, event: SavedEvent) -> bool
    ensures { result ≡ can_have_event reached.now most event }
{
    match event {
        SavedEvent::Granted { number, .. } => is_above(reached.grants, most, number),
        SavedEvent::Refused { .. } => true,
        SavedEvent::Member { number, .. } => is_above(reached.grants, most, number),
        SavedEvent::Corrupted { .. } => true,
    }
}

/// Whether a ring that was reached so can have this survey, after at most this many others.
fn can_have_survey(reached: &Reached, most: u64, survey: SavedSurvey) -> bool
    ensures { result ≡ can_have_survey reached.now most survey }
{
    is_from(reached.events, most, survey.position)
}

/// Whether these bytes begin with the line of an event that the ring can have.
fn is_later_event(reached: &Reached, most: u64, bytes: &[u8]) -> Result<bool, NoRoom>
    ensures { IfOk result (λ later. later
        ≡ is_later_event reached.now most (event_or_end_at latest_version bytes.now)) }
{
    match event_or_end(LATEST_VERSION, bytes) {
        Ok((EventOrEnd::Event(event), _)) => Ok(can_have_event(reached, most, event)),
        Ok((EventOrEnd::End(_), _)) => Ok(false),
        Err(Stop::Fault(_)) => Ok(false),
        Err(Stop::Memory) => Err(NoRoom),
    }
}

/// Whether these bytes begin with the line of a survey that the ring can have.
fn is_later_survey(reached: &Reached, most: u64, bytes: &[u8]) -> Result<bool, NoRoom>
    ensures { IfOk result (λ later. later
        ≡ is_later_survey reached.now most (survey_or_next_at bytes.now)) }
{
    match survey_or_next(bytes) {
        Ok((SurveyOrNext::Survey(survey), _)) => Ok(can_have_survey(reached, most, survey)),
        Ok((SurveyOrNext::Next(_), _)) => Ok(false),
        Err(Stop::Fault(_)) => Ok(false),
        Err(Stop::Memory) => Err(NoRoom),
    }
}

/// Whether these bytes begin with the line of a call that the ring can have.
fn is_later_call(reached: &Reached, most: u64, bytes: &[u8]) -> Result<bool, NoRoom>
    ensures { IfOk result (λ later. later ≡ is_later_call reached.now most bytes.now) }
{
    let Ok(event) = is_later_event(reached, most, bytes) else {
        return Err(NoRoom);
    };
    let Ok(survey) = is_later_survey(reached, most, bytes) else {
        return Err(NoRoom);
    };
    Ok(event || survey)
}

/// Whether the line of a call can follow.
fn is_later(reached: &[Reached], most: u64, line: &[u8]) -> Result<bool, NoRoom>
    ensures { IfOk result (λ later. later ≡ is_later reached.now most (number_at (2 ^ 32) 32 line.now)) }
{
    match number32(line, b' ') {
        Ok((ring, after)) => match reached.get(ring as usize) {
            Some(ring) => is_later_call(ring, most, after),
            None => Ok(false),
        },
        Err(Stop::Fault(_)) => Ok(false),
        Err(Stop::Memory) => Err(NoRoom),
    }
}

/// Whether a line can follow, after rings that were reached so and as many other lines at most.
#[tactic(auto, unfolding(crate::specs::TornSigns::can_follow))]
fn can_follow(reached: &[Reached], most: u64, line: &[u8]) -> Result<bool, NoRoom>
    ensures { IfOk result (λ can. can ≡ can_follow reached.now most line.now) }
{
    if is_remark(line) {
        return Ok(true);
    }
    is_later(reached, most, line)
}

/// Whether one of these lines can follow.
pub(crate) fn has_later(reached: &[Reached], most: u64, lines: &[u8]) -> Result<bool, NoRoom>
    ensures { IfOk result
        (λ can. can ≡ list_any (can_follow reached.now most) (lines_in lines.now)) }
{
    let mut rest = lines;
    while !rest.is_empty() {
        let (line, after) = split_line(rest);
        let Ok(can) = can_follow(reached, most, line) else {
            return Err(NoRoom);
        };
        if can {
            return Ok(true);
        }
        rest = after;
    }
    Ok(false)
}
