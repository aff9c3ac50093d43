//! The writer of a saved value, in the version that it has. It takes no memory.

ghost use Rattle.std.specs.Prelude.{◌≡◌, ◌≤◌, ℕ, ◌++◌, IfOk, length, map};
ghost use Rattle.std.specs.List.{flat_map, AllByRecursion};
ghost use Rattle.text_lines.specs.Writing.{Writes};
ghost use Rattle.saved_history.specs.Versions.{first_version, IsVersion};
ghost use Rattle.saved_history.specs.Content.{block_of, content};
ghost use Rattle.saved_history.specs.Spelling.{event_line, end_line, survey_line, block_text, text, EventFits, SurveyFits, BlockFits, Fits, IsNoMember, BlockHasNoMember, HasNoMember};

use crate::put_lines::{
    put_done_line, put_end_line, put_event_line, put_first_line, put_ring_line, put_start_line,
    put_survey_line,
};
use crate::saved::{Saved, SavedEvent, SavedRing, SavedSurvey};
use std::io::Write;
use text_lines::WriteFault;

/// Writes a line for each event.
fn put_events<W: Write>(out: &mut W, events: &[SavedEvent]) -> Result<(), WriteFault>
    ensures written { Writes (W.contents out.old) (W.contents out.new) result
        (flat_map event_line events.now) }
    ensures fits { IfOk result (λ _.
        (version : ℕ) → (version ≤ first_version → AllByRecursion IsNoMember events.now)
        → AllByRecursion (EventFits version) events.now) }
{
    for event in events {
        match put_event_line(out, *event) {
            Ok(()) => {}
            Err(fault) => return Err(fault),
        }
    }
    Ok(())
}

/// Writes a line for each survey.
fn put_surveys<W: Write>(out: &mut W, surveys: &[SavedSurvey]) -> Result<(), WriteFault>
    ensures written { Writes (W.contents out.old) (W.contents out.new) result
        (flat_map survey_line surveys.now) }
    ensures fits { IfOk result (λ _. AllByRecursion SurveyFits surveys.now) }
{
    for survey in surveys {
        match put_survey_line(out, *survey) {
            Ok(()) => {}
            Err(fault) => return Err(fault),
        }
    }
    Ok(())
}

/// Writes the events, and the line that ends them and says how many they are.
#[tactic(auto, using(text_lines::proofs::Writing::writes_then))]
fn put_history<W: Write>(out: &mut W, events: &[SavedEvent], said: u64) -> Result<(), WriteFault>
    ensures written { Writes (W.contents out.old) (W.contents out.new) result
        (flat_map event_line events.now ++ end_line said) }
    ensures fits { IfOk result (λ _.
        (version : ℕ) → (version ≤ first_version → AllByRecursion IsNoMember events.now)
        → AllByRecursion (EventFits version) events.now) }
{
    match put_events(out, events) {
        Ok(()) => put_end_line(out, said),
        Err(fault) => Err(fault),
    }
}

/// Writes the block of a ring.
fn put_block<W: Write>(out: &mut W, ring: &SavedRing) -> Result<(), WriteFault>
    ensures written { Writes (W.contents out.old) (W.contents out.new) result
        (block_text (block_of ring.now)) }
    ensures fits { IfOk result (λ _.
        (version : ℕ) → (version ≤ first_version → BlockHasNoMember (block_of ring.now))
        → BlockFits version (block_of ring.now)) }
{
    put_ring_line(out, ring.index, ring.n, ring.k)?;
    put_start_line(out, &ring.start)?;
    put_history(out, &ring.events, ring.events_said)?;
    put_surveys(out, &ring.surveys)?;
    Ok(())
}

/// Writes the blocks of the rings.
fn put_blocks<W: Write>(out: &mut W, rings: &[SavedRing]) -> Result<(), WriteFault>
    ensures written { Writes (W.contents out.old) (W.contents out.new) result
        (flat_map block_text (map block_of rings.now)) }
    ensures fits { IfOk result (λ _. (version : ℕ)
        → (version ≤ first_version → AllByRecursion BlockHasNoMember (map block_of rings.now))
        → AllByRecursion (BlockFits version) (map block_of rings.now)) }
{
    for ring in rings {
        match put_block(out, ring) {
            Ok(()) => {}
            Err(fault) => return Err(fault),
        }
    }
    Ok(())
}

/// Writes the saved text of a value of one ring or more, in the value's own version, where the first has no members
/// of groups. The written text reads back to the value ([`texts_read_back`](crate::texts_read_back)), since that fits.
///
/// It takes no memory, does not flush, and calls the writer a few times for each line.
///
/// # Errors
///
/// `WriteFault` at the first error of the writer, an interruption too, or write of 0 bytes, and only there. The writer
/// then holds a prefix of the text, but not all of it, after what it held.
pub fn write_saved<W: Write>(saved: &Saved, out: &mut W) -> Result<(), WriteFault>
    requires some { 1 ≤ length saved.now.rings.items }
    requires version { IsVersion saved.now.version }
    requires members { saved.now.version ≡ first_version → HasNoMember (content saved.now) }
    ensures written { Writes (W.contents out.old) (W.contents out.new) result
        (text (content saved.now)) }
    ensures fits { IfOk result (λ _. Fits (content saved.now)) }
{
    put_first_line(out, saved.version)?;
    put_blocks(out, &saved.rings)?;
    put_done_line(out, saved.rings_said)?;
    Ok(())
}
