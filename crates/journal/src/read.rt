//! The readers: the part before the calls, and the calls.

ghost use Rattle.std.specs.Prelude.{◌≡◌, ◌++◌, IfOk};
ghost use Rattle.std.specs.List.{flat_map, AllByRecursion};
ghost use Rattle.text_lines.specs.Reading.{Gives};
ghost use Rattle.saved_history.specs.Content.{content};
ghost use Rattle.saved_history.specs.Spelling.{event_line, survey_line, EventFits, SurveyFits};
ghost use Rattle.journal.specs.Spelling.{call_line, journal_line, CallFits, JournalLineFits};
ghost use Rattle.journal.specs.Reading.{BeginsNone, Finds, head_at};

use crate::calls::{Call, JournalLine};
use saved_history::{
    EventOrEnd, Saved, SavedEvent, SavedSurvey, SurveyOrNext, event_or_end, read_prefix,
    survey_or_next,
};
use std::alloc::{AllocError, AllocFailed, Global};
use text_lines::{Stop, number32, word};

/// There was no room.
#[derive(Clone, Copy)]
pub(crate) struct NoRoom;

impl From<AllocError> for NoRoom {
    fn from(_error: AllocError) -> NoRoom {
        NoRoom
    }
}

impl<T: Drop> From<AllocFailed<T>> for NoRoom {
    fn from(_error: AllocFailed<T>) -> NoRoom {
        NoRoom
    }
}

/// Reads the first line and the saved rings; returns them with the bytes after them.
#[tactic(auto, unfolding(crate::specs::Reading::head_at))]
pub(crate) fn head(alloc: Global, bytes: &[u8]) -> Result<(Saved, &[u8]), Stop>
    ensures { Gives (λ x. (content x.0, x.1.now)) result (head_at bytes.now) }
{
    let rest = word(bytes, b"ringjournal 1\n")?;
    read_prefix(alloc, rest)
}

/// Reads the line of an event, where one is at the front of the bytes.
fn event(version: u32, bytes: &[u8]) -> Result<Option<(SavedEvent, &[u8])>, NoRoom>
    ensures { Finds (λ x. (x.0, x.1.now)) (EventFits version) event_line bytes.now result }
{
    match event_or_end(version, bytes) {
        Ok((EventOrEnd::Event(event), rest)) => Ok(Some((event, rest))),
        Ok((EventOrEnd::End(_), _)) => Ok(None),
        Err(Stop::Fault(_)) => Ok(None),
        Err(Stop::Memory) => Err(NoRoom),
    }
}

/// Reads the line of a survey, where one is at the front of the bytes.
fn survey(bytes: &[u8]) -> Result<Option<(SavedSurvey, &[u8])>, NoRoom>
    ensures { Finds (λ x. (x.0, x.1.now)) SurveyFits survey_line bytes.now result }
{
    match survey_or_next(bytes) {
        Ok((SurveyOrNext::Survey(survey), rest)) => Ok(Some((survey, rest))),
        Ok((SurveyOrNext::Next(_), _)) => Ok(None),
        Err(Stop::Fault(_)) => Ok(None),
        Err(Stop::Memory) => Err(NoRoom),
    }
}

/// Reads the line of a call after its ring's number, where one is at the front of the bytes.
fn call(version: u32, bytes: &[u8]) -> Result<Option<(Call, &[u8])>, NoRoom>
    ensures { Finds (λ x. (x.0, x.1.now)) (CallFits version) call_line bytes.now result }
{
    let Ok(event) = event(version, bytes) else {
        return Err(NoRoom);
    };
    if let Some((event, rest)) = event {
        return Ok(Some((Call::Event(event), rest)));
    }
    let Ok(survey) = survey(bytes) else {
        return Err(NoRoom);
    };
    match survey {
        Some((survey, rest)) => Ok(Some((Call::Survey(survey), rest))),
        None => Ok(None),
    }
}

/// Reads the line of a recorded call of one of these rings, where one is at the front of the bytes.
fn line(version: u32, rings: usize, bytes: &[u8]) -> Result<Option<(JournalLine, &[u8])>, NoRoom>
    ensures { Finds (λ x. (x.0, x.1.now)) (JournalLineFits version rings) journal_line bytes.now
        result }
{
    match number32(bytes, b' ') {
        Ok((ring, after)) => {
            if ring as usize >= rings {
                return Ok(None);
            }
            match call(version, after) {
                Ok(Some((call, rest))) => Ok(Some((JournalLine { ring, call }, rest))),
                Ok(None) => Ok(None),
                Err(NoRoom) => Err(NoRoom),
            }
        }
        Err(Stop::Fault(_)) => Ok(None),
        Err(Stop::Memory) => Err(NoRoom),
    }
}

/// Reads the calls at the front of the bytes, as many as there are; returns them with the bytes after their lines.
pub(crate) fn calls(
    alloc: Global,
    version: u32,
    rings: usize,
    bytes: &[u8],
) -> Result<(Vec<JournalLine>, &[u8]), NoRoom>
    ensures fit { IfOk result (λ x. AllByRecursion (JournalLineFits version rings) x.0.items) }
    ensures spelled { IfOk result (λ x. bytes.now ≡ flat_map journal_line x.0.items ++ x.1.now) }
    ensures all { IfOk result
        (λ x. BeginsNone (JournalLineFits version rings) journal_line x.1.now) }
{
    let mut found = Vec::new(alloc);
    let mut rest = bytes;
    loop {
        match line(version, rings, rest)? {
            Some((one, after)) => {
                found.push(one)?;
                rest = after;
            }
            None => return Ok((found, rest)),
        }
    }
}
