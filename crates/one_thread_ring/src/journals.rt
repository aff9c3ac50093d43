//! A ring's calls as a journal records them. It takes no memory.

ghost use Rattle.text_lines.specs.Writing.{Writes};
ghost use Rattle.journal.specs.Spelling.{journal_line};
ghost use Rattle.one_thread_ring.specs.Journals.{line_of_survey, event_lines};

use crate::events::{saved_event, saved_survey};
use journal::{Call, JournalLine, put_journal_line};
use ring_model::{Event, Survey};
use std::io::Write;
use text_lines::WriteFault;

/// Writes a journal's line for each of the events of the ring of this number, one after the other: of a call that was made by
/// itself its event, of a group its members.
///
/// # Errors
///
/// As [`put_journal_line`](journal::put_journal_line): the writer then holds a prefix of these lines, and a recovery drops
/// the last of them, with the part that it leaves of a group.
pub fn put_events<W: Write>(out: &mut W, ring: u32, events: &[Event]) -> Result<(), WriteFault>
    ensures { Writes (W.contents out.old) (W.contents out.new) result
        (event_lines ring events.now) }
{
    for event in events {
        let recorded = JournalLine {
            ring,
            call: Call::Event(saved_event(*event)),
        };
        match put_journal_line(out, recorded) {
            Ok(()) => {}
            Err(fault) => return Err(fault),
        }
    }
    Ok(())
}

/// Writes a journal's line for a survey that a seat of the ring of this number was given.
///
/// # Errors
///
/// As [`put_journal_line`](journal::put_journal_line).
pub fn put_survey<W: Write>(
    out: &mut W,
    ring: u32,
    seat: u32,
    survey: Survey,
) -> Result<(), WriteFault>
    ensures { Writes (W.contents out.old) (W.contents out.new) result
        (journal_line (line_of_survey ring seat survey)) }
{
    let recorded = JournalLine {
        ring,
        call: Call::Survey(saved_survey(seat, survey)),
    };
    put_journal_line(out, recorded)
}
