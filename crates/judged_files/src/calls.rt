//! The call of a ring that a line records, by the readers of saved histories. It takes no memory.

ghost use Rattle.std.specs.Prelude.{◌^◌};
ghost use Rattle.saved_history.specs.Spelling.{event_line, survey_line, EventFits, SurveyFits};
ghost use Rattle.saved_history.specs.Versions.{latest_version};
ghost use Rattle.journal.specs.Spelling.{call_line, journal_line, CallFits as FitsLine, JournalLineFits};
ghost use Rattle.journal.specs.Reading.{Finds};
ghost use Rattle.judged_files.specs.Lines.{CallFits};

use journal::{Call, JournalLine};
use saved_history::{
    EventOrEnd, LATEST_VERSION, SavedEvent, SavedSurvey, SurveyOrNext, event_or_end, survey_or_next,
};
use text_lines::{Stop, number32};

/// There was no room.
#[derive(Clone, Copy)]
pub(crate) struct NoRoom;

/// The event with whose line the bytes begin, and the bytes after it.
fn event(bytes: &[u8]) -> Result<Option<(SavedEvent, &[u8])>, NoRoom>
    ensures { Finds (λ x. (x.0, x.1.now)) (EventFits latest_version) event_line bytes.now result }
{
    match event_or_end(LATEST_VERSION, bytes) {
        Ok((EventOrEnd::Event(event), rest)) => Ok(Some((event, rest))),
        Ok((EventOrEnd::End(_), _)) => Ok(None),
        Err(Stop::Fault(_)) => Ok(None),
        Err(Stop::Memory) => Err(NoRoom),
    }
}

/// The same of a survey.
fn survey(bytes: &[u8]) -> Result<Option<(SavedSurvey, &[u8])>, NoRoom>
    ensures { Finds (λ x. (x.0, x.1.now)) SurveyFits survey_line bytes.now result }
{
    match survey_or_next(bytes) {
        Ok((SurveyOrNext::Survey(survey), rest)) => Ok(Some((survey, rest))),
        Ok((SurveyOrNext::Next(_), _)) => Ok(None),
        Err(Stop::Fault(_)) => Ok(None),
        Err(Stop::Memory) => Err(NoRoom),
    }
}

/// The same of a call, after the number of its ring.
fn call(bytes: &[u8]) -> Result<Option<(Call, &[u8])>, NoRoom>
    ensures { Finds (λ x. (x.0, x.1.now)) (FitsLine latest_version) call_line bytes.now result }
{
    let Ok(event) = event(bytes) else {
        return Err(NoRoom);
    };
    if let Some((event, rest)) = event {
        return Ok(Some((Call::Event(event), rest)));
    }
    let Ok(survey) = survey(bytes) else {
        return Err(NoRoom);
    };
    match survey {
        Some((survey, rest)) => Ok(Some((Call::Survey(survey), rest))),
        None => Ok(None),
    }
}

/// The call with whose line these bytes begin, and the bytes after it.
pub(crate) fn recorded(bytes: &[u8]) -> Result<Option<(JournalLine, &[u8])>, NoRoom>
    ensures { Finds (λ x. (x.0, x.1.now)) CallFits journal_line bytes.now result }
{
    match number32(bytes, b' ') {
        Ok((ring, after)) => match call(after) {
            Ok(Some((call, rest))) => Ok(Some((JournalLine { ring, call }, rest))),
            Ok(None) => Ok(None),
            Err(NoRoom) => Err(NoRoom),
        },
        Err(Stop::Fault(_)) => Ok(None),
        Err(Stop::Memory) => Err(NoRoom),
    }
}
