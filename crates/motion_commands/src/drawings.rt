//! The picture of bytes that are a saved text.

ghost use Rattle.std.specs.Prelude.{◌≡◌, ◌<◌, ◌≤◌, IfOk, OnOk, IfErr, Some, length, slice_get};
ghost use Rattle.saved_history.specs.Content.{content};
ghost use Rattle.ring_check.specs.Meaning.{IsRightText};
ghost use Rattle.motion_commands.specs.Moved.{most_events, most_machines, drawn_count, IsMotionOf, IsMotionRefusal, IsMoving, IsMovingRefusal};

use crate::refusals::Refusal;
use history_motion::motion;
use ring_check::Summary;
use saved_history::{Saved, SavedRing};
use std::alloc::Global;
use tool_parts::faults::ToolError;
use tool_parts::legal::legal_saved;
use tool_parts::requests::PictureWords;

/// The most events of a picture.
pub const MOST_EVENTS: u32 = 20_000;

/// The most machines of a ring that is drawn in motion.
pub const MOST_MACHINES: u32 = 32;

/// The picture of a legal text.
#[derive(Drop)]
pub struct Moving {
    pub text: Vec<u8>,
    /// The sums over all rings of the text.
    pub sums: Summary,
}

/// The ring at a place.
fn ring_at(saved: &Saved, place: u32) -> Result<&SavedRing, ToolError<'static>>
    ensures ok { IfOk result (λ ring. slice_get saved.now.rings.items place ≡ Some ring.now) }
    ensures err { IfErr result
        (λ e. (e ≡ ToolError.NoRing place) × (length saved.now.rings.items ≤ place)) }
{
    match saved.rings.get(place as usize) {
        Some(ring) => Ok(ring),
        None => Err(ToolError::NoRing(place)),
    }
}

/// Looks whether a ring has too many machines.
fn few_machines(ring: &SavedRing, place: u32) -> Result<(), Refusal<'static>>
    ensures ok { OnOk result (ring.now.n ≤ most_machines) }
    ensures err { IfErr result
        (λ e. (e ≡ Refusal.ManyMachines place) × (most_machines < ring.now.n)) }
{
    if ring.n > MOST_MACHINES {
        return Err(Refusal::ManyMachines(place));
    }
    Ok(())
}

/// How many of a ring's events are drawn.
fn count_of(ring: &SavedRing, from: u32, most: u32) -> Result<u32, ToolError<'static>>
    ensures ok { IfOk result (λ count. (from ≤ length ring.now.events.items)
        × (count ≡ drawn_count (length ring.now.events.items) from most)) }
    ensures err { IfErr result
        (λ e. (e ≡ ToolError.NoPlace from) × (length ring.now.events.items < from)) }
{
    let events = ring.events.len();
    if events < from as usize {
        return Err(ToolError::NoPlace(from));
    }
    Ok((events - from as usize).min(most as usize) as u32)
}

/// The picture of a ring of a legal text.
fn picture_of(
    alloc: Global,
    saved: &Saved,
    words: &PictureWords<'_>,
) -> Result<Vec<u8>, Refusal<'static>>
    requires few { words.now.events ≤ most_events }
    requires right { IsRightText (content saved.now) }
    ensures ok { IfOk result
        (λ text. IsMotionOf words.now (content saved.now).rings text.items) }
    ensures err { IfErr result (λ e. IsMotionRefusal words.now (content saved.now).rings e) }
{
    let ring = match ring_at(saved, words.ring) {
        Ok(ring) => ring,
        Err(fault) => return Err(Refusal::Tool(fault)),
    };
    match few_machines(ring, words.ring) {
        Ok(()) => {}
        Err(refusal) => return Err(refusal),
    }
    let count = match count_of(ring, words.from, words.events) {
        Ok(count) => count,
        Err(fault) => return Err(Refusal::Tool(fault)),
    };
    match motion(alloc, ring, words.from as usize, count) {
        Ok(text) => Ok(text),
        Err(_) => Err(Refusal::Tool(ToolError::OutOfMemory)),
    }
}

/// Returns the picture of the saved text that the bytes are, where it is legal.
pub(crate) fn moving_of(
    alloc: Global,
    words: &PictureWords<'_>,
    bytes: &[u8],
) -> Result<Moving, Refusal<'static>>
    requires few { words.now.events ≤ most_events }
    ensures ok { IfOk result (λ m. IsMoving words.now bytes.now m) }
    ensures err { IfErr result (λ e. IsMovingRefusal words.now bytes.now e) }
{
    let (saved, sums) = match legal_saved(alloc, bytes) {
        Ok(legal) => legal,
        Err(fault) => return Err(Refusal::Tool(fault)),
    };
    match picture_of(alloc, &saved, words) {
        Ok(text) => Ok(Moving { text, sums }),
        Err(refusal) => Err(refusal),
    }
}
