//! The readers of blocks and of the whole text.

ghost use Rattle.std.specs.Prelude.{◌≡◌, ◌<◌, map};
ghost use Rattle.text_lines.specs.Reading.{Gives, whole_at};
ghost use Rattle.saved_history.specs.Content.{block_of, content};
ghost use Rattle.saved_history.specs.Spelling.{RingHeaderFits};
ghost use Rattle.saved_history.specs.Lines.{events_at, surveys_at, ring_at, rings_at, body_at, text_at, next_of, with_next};

use crate::lines::{EventOrEnd, Next, SurveyOrNext, event_or_end, head, survey_or_next, version};
use crate::saved::{RingHeader, Saved, SavedEvent, SavedRing, SavedSurvey};
use std::alloc::Global;
use text_lines::{Stop, nothing_more, row32, word};

/// Reads the events of a block in a text of this version; returns them, the number of them that the text says, and the rest.
fn events(alloc: Global, version: u32, bytes: &[u8]) -> Result<(Vec<SavedEvent>, u64, &[u8]), Stop>
    ensures { Gives (λ x. ((x.0.items, x.1), x.2.now)) result (events_at version bytes.now) }
{
    let mut found = Vec::new(alloc);
    let mut rest = bytes;
    loop {
        let (item, after) = event_or_end(version, rest)?;
        match item {
            EventOrEnd::Event(event) => found.push(event)?,
            EventOrEnd::End(said) => return Ok((found, said, after)),
        }
        rest = after;
    }
}

/// Reads the surveys, and the line after them.
fn surveys(alloc: Global, bytes: &[u8]) -> Result<(Vec<SavedSurvey>, Next, &[u8]), Stop>
    ensures { Gives (λ x. ((x.0.items, next_of x.1), x.2.now)) result (surveys_at bytes.now) }
{
    let mut found = Vec::new(alloc);
    let mut rest = bytes;
    loop {
        let (item, after) = survey_or_next(rest)?;
        match item {
            SurveyOrNext::Survey(survey) => found.push(survey)?,
            SurveyOrNext::Next(next) => return Ok((found, next, after)),
        }
        rest = after;
    }
}

/// Reads a block below its first line, and the line after it.
#[tactic(auto, unfolding(crate::specs::Lines::ring_at, crate::specs::Lines::part_at))]
fn ring(
    alloc: Global,
    version: u32,
    head: RingHeader,
    bytes: &[u8],
) -> Result<(SavedRing, Next, &[u8]), Stop>
    requires { 0 < head.n }
    ensures { Gives (λ x. (with_next (block_of x.0) (next_of x.1), x.2.now)) result
        (ring_at version head bytes.now) }
{
    let rest = word(bytes, b"start ")?;
    let (start, rest) = row32(alloc, head.n, rest)?;
    let (events, events_said, rest) = events(alloc, version, rest)?;
    let (surveys, next, rest) = surveys(alloc, rest)?;
    let RingHeader { index, n, k } = head;
    let ring = SavedRing {
        index,
        n,
        k,
        start,
        events,
        events_said,
        surveys,
    };
    Ok((ring, next, rest))
}

/// Reads the blocks, where the first has this first line, and the number of them that the text says.
fn rings(
    alloc: Global,
    version: u32,
    first: RingHeader,
    bytes: &[u8],
) -> Result<(Vec<SavedRing>, u32, &[u8]), Stop>
    requires { RingHeaderFits first }
    ensures { Gives (λ x. ((map block_of x.0.items, x.1), x.2.now)) result
        (rings_at version first bytes.now) }
{
    let mut found = Vec::new(alloc);
    let mut head = first;
    let mut rest = bytes;
    loop {
        let (one, next, after) = ring(alloc, version, head, rest)?;
        found.push(one)?;
        rest = after;
        match next {
            Next::Ring(behind) => head = behind,
            Next::Done(said) => return Ok((found, said, rest)),
        }
    }
}

/// Reads the part below the first line of a text of this version: the blocks, and the number of them that the text says.
#[tactic(auto, unfolding(crate::specs::Lines::body_at))]
fn body(alloc: Global, version: u32, bytes: &[u8]) -> Result<(Vec<SavedRing>, u32, &[u8]), Stop>
    ensures { Gives (λ x. ((map block_of x.0.items, x.1), x.2.now)) result
        (body_at version bytes.now) }
{
    let (first, rest) = head(bytes)?;
    rings(alloc, version, first, rest)
}

/// Reads a text at the front of some bytes; returns it with the bytes after it: for formats that contain a saved text.
///
/// # Errors
///
/// A fault where the bytes begin with no text: `Short` if they end within one, `Bad` at the first byte with which none
/// continues. `Memory` where there was no room.
#[tactic(auto, unfolding(crate::specs::Lines::text_at))]
pub fn read_prefix(alloc: Global, bytes: &[u8]) -> Result<(Saved, &[u8]), Stop>
    ensures { Gives (λ x. (content x.0, x.1.now)) result (text_at bytes.now) }
{
    let rest = word(bytes, b"ringfarm ")?;
    let (version, rest) = version(rest)?;
    let (rings, rings_said, rest) = body(alloc, version, rest)?;
    let saved = Saved {
        version,
        rings,
        rings_said,
    };
    Ok((saved, rest))
}

/// Reads a whole text, with nothing after it.
#[tactic(auto, unfolding(text_lines::specs::Reading::whole_at))]
pub fn whole(alloc: Global, bytes: &[u8]) -> Result<Saved, Stop>
    ensures { Gives content result (whole_at text_at bytes.now) }
{
    let (saved, rest) = read_prefix(alloc, bytes)?;
    nothing_more(rest)?;
    Ok(saved)
}
