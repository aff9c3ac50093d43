//! The writers of a journal's lines. They take no memory.

ghost use Rattle.std.specs.Prelude.{◌≡◌, ◌≤◌, [], length};
ghost use Rattle.text_lines.specs.Writing.{Writes};
ghost use Rattle.saved_history.specs.Spelling.{EventFits, SurveyFits};
ghost use Rattle.saved_history.specs.Versions.{latest_version};
ghost use Rattle.journal.specs.Spelling.{first_line, call_line, journal_line};

use crate::calls::{Call, JournalLine};
use saved_history::{SavedEvent, SavedSurvey, put_event, put_survey};
use std::io::Write;
use text_lines::{Line, WriteFault, put};

/// Writes the first line of a journal. The saved text of the rings comes after it.
pub fn put_first_line<W: Write>(out: &mut W) -> Result<(), WriteFault>
    ensures { Writes (W.contents out.old) (W.contents out.new) result first_line }
{
    put(out, b"ringjournal 1\n")
}

/// The event has a line, by the type of its numbers. This does nothing.
fn fits(event: SavedEvent)
    ensures { EventFits latest_version event }
{}

/// The survey has a line, by the type of its numbers. This does nothing.
fn survey_fits(survey: SavedSurvey)
    ensures { SurveyFits survey }
{}

/// Puts the line of a call, with room for a ring's number in front.
#[inline(always)]
fn put_call(line: &mut Line, call: Call)
    requires { line.old ≡ [] }
    ensures is { line.new ≡ call_line call }
    ensures short { length line.new ≤ 98 }
{
    match call {
        Call::Event(event) => {
            fits(event); // says: its numbers are short
            put_event(line, event);
        }
        Call::Survey(survey) => {
            survey_fits(survey); // says: its numbers are short
            put_survey(line, survey);
        }
    }
}

/// Writes the line of a call, as one piece.
///
/// # Errors
///
/// As [`put`](text_lines::put): the writer then holds a prefix of the line, which a recovery drops.
#[inline(always)]
pub fn put_journal_line<W: Write>(out: &mut W, recorded: JournalLine) -> Result<(), WriteFault>
    ensures { Writes (W.contents out.old) (W.contents out.new) result (journal_line recorded) }
{
    let mut line = Line::new();
    put_call(&mut line, recorded.call);
    line.byte(b' ');
    line.number(recorded.ring as u64);
    put(out, line.as_bytes())
}
