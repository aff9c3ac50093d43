//! The writers of single lines. Each writes just the line's text, and takes no memory.

ghost use Rattle.std.specs.Prelude.{◌≡◌, ℕ, ◌<◌, ◌≤◌, ◌^◌, IfOk};
ghost use Rattle.std.specs.List.{AllByRecursion};
ghost use Rattle.text_lines.specs.Writing.{Writes};
ghost use Rattle.saved_history.specs.Spelling.{first_line, ring_line, start_line, event_line, end_line, survey_line, done_line, IsNoMember, EventFits, SurveyFits};
ghost use Rattle.saved_history.specs.Versions.{first_version};

use crate::event_lines::{event_line, survey_line};
use crate::saved::{SavedEvent, SavedSurvey};
use itoa::Buffer;
use std::io::Write;
use text_lines::{WriteFault, put, put_all, put_row};

/// Writes the text's first line, which says the version.
pub fn put_first_line<W: Write>(out: &mut W, version: u32) -> Result<(), WriteFault>
    ensures { Writes (W.contents out.old) (W.contents out.new) result (first_line version) }
{
    let mut buffer = Buffer::new();
    put_all(
        out,
        &[b"ringfarm ", buffer.format(version).as_bytes(), b"\n"],
    )
}

/// Writes the first line of a ring: its place, its number of machines and its number of values.
pub fn put_ring_line<W: Write>(out: &mut W, index: u32, n: u32, k: u32) -> Result<(), WriteFault>
    ensures { Writes (W.contents out.old) (W.contents out.new) result (ring_line index n k) }
{
    let mut buffers = (Buffer::new(), Buffer::new(), Buffer::new());
    let index = buffers.0.format(index).as_bytes();
    let n = buffers.1.format(n).as_bytes();
    let k = buffers.2.format(k).as_bytes();
    put_all(out, &[b"ring ", index, b" ", n, b" ", k, b"\n"])
}

/// Writes the line of the values that a ring started from, each of them small by its type.
#[tactic(auto, using(text_lines::proofs::Writing::writes_then))]
pub fn put_start_line<W: Write>(out: &mut W, values: &[u32]) -> Result<(), WriteFault>
    ensures written { Writes (W.contents out.old) (W.contents out.new) result
        (start_line values.now) }
    ensures small { IfOk result (λ _. AllByRecursion (λ x. x < 2 ^ 32) values.now) }
{
    match put(out, b"start ") {
        Ok(()) => put_row(out, values),
        Err(fault) => Err(fault),
    }
}

/// Writes the line of an event, each of whose numbers is within its range by its type. It fits in each version that has
/// lines of its kind.
pub fn put_event_line<W: Write>(out: &mut W, event: SavedEvent) -> Result<(), WriteFault>
    ensures written { Writes (W.contents out.old) (W.contents out.new) result (event_line event) }
    ensures fits { (version : ℕ) → (version ≤ first_version → IsNoMember event)
        → EventFits version event }
{
    put(out, event_line(event).as_bytes())
}

/// Writes the line that ends the events and says how many they are.
pub fn put_end_line<W: Write>(out: &mut W, events: u64) -> Result<(), WriteFault>
    ensures { Writes (W.contents out.old) (W.contents out.new) result (end_line events) }
{
    let mut buffer = Buffer::new();
    put_all(out, &[b"end ", buffer.format(events).as_bytes(), b"\n"])
}

/// Writes the line of a survey, each of whose numbers is within its range by its type.
pub fn put_survey_line<W: Write>(out: &mut W, survey: SavedSurvey) -> Result<(), WriteFault>
    ensures written { Writes (W.contents out.old) (W.contents out.new) result (survey_line survey) }
    ensures fits { SurveyFits survey }
{
    put(out, survey_line(survey).as_bytes())
}

/// Writes the last line, which says how many rings there are.
pub fn put_done_line<W: Write>(out: &mut W, rings: u32) -> Result<(), WriteFault>
    ensures { Writes (W.contents out.old) (W.contents out.new) result (done_line rings) }
{
    let mut buffer = Buffer::new();
    put_all(out, &[b"done ", buffer.format(rings).as_bytes(), b"\n"])
}
