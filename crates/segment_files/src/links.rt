//! What the next file of a chain must say.

ghost use Rattle.std.specs.Prelude.{◌≡◌, ◌<◌, ◌≤◌, ◌↔◌, ℕ, List, length, map, IsTrue, IfOk};
ghost use Rattle.std.specs.List.{All, AllByRecursion};
ghost use Rattle.saved_history.specs.Content.{block_of, content};
ghost use Rattle.ring_model.specs.Bases.{IsBase};
ghost use Rattle.segment_files.specs.Spelling.{head_of};
ghost use Rattle.segment_files.specs.Files.{first_link, link_after, opening_link, HasBases, IsShort};
ghost use Rattle.segment_files.specs.Replays.{IsReplayed};
ghost use Rattle.segment_files.specs.Chain.{link_in, file_in, IsNext, IsTested};

use crate::digests::{DIGEST_DIGITS, digest};
use crate::errors::SegmentError;
use crate::places::{SegmentPlace, are_bases, are_short, are_starts, places, places_after};
use crate::segments::Segment;
use std::alloc::{AllocError, Global};

/// What the next file of a chain must say.
#[derive(Drop)]
pub struct SegmentLink {
    /// The number of the file before, 0 if there is none.
    pub(crate) before: u64,
    /// Its digest.
    pub(crate) behind: [u8; DIGEST_DIGITS],
    pub(crate) places: Vec<SegmentPlace>,
}

/// What the first file of all must say.
fn first(alloc: Global) -> SegmentLink
    ensures { link_in result ≡ first_link }
{
    SegmentLink {
        before: 0,
        behind: [b'0'; DIGEST_DIGITS],
        places: Vec::new(alloc),
    }
}

/// What a chain's first file must say: it is taken on trust if it is not the first of all.
pub(crate) fn opening(alloc: Global, segment: &Segment) -> Result<SegmentLink, AllocError>
    requires { 0 < segment.now.head.number }
    ensures { IfOk result
        (λ link. (bytes : List ℕ) → link_in link ≡ opening_link (file_in bytes segment.now)) }
{
    if segment.head.number == 1 {
        return Ok(first(alloc));
    }
    Ok(SegmentLink {
        before: segment.head.number - 1,
        behind: segment.head.behind,
        places: places(alloc, &segment.head.bases, &segment.saved.rings)?,
    })
}

/// What the file after this one must say.
pub(crate) fn after(
    alloc: Global,
    bytes: &[u8],
    segment: &Segment,
) -> Result<SegmentLink, AllocError>
    requires many { length segment.now.head.bases.items ≡ length segment.now.saved.rings.items }
    requires bases { All IsBase segment.now.head.bases.items }
    requires short { All IsShort (content segment.now.saved).rings }
    requires right { All IsReplayed (content segment.now.saved).rings }
    ensures { IfOk result (λ link. link_in link ≡ link_after (file_in bytes.now segment.now)) }
{
    Ok(SegmentLink {
        before: segment.head.number,
        behind: digest(bytes),
        places: places_after(alloc, &segment.head.bases, &segment.saved.rings)?,
    })
}

/// Whether the number is the next one.
fn is_next(link: &SegmentLink, segment: &Segment) -> bool
    requires { 0 < segment.now.head.number }
    ensures { (bytes : List ℕ)
        → IsTrue result ↔ IsNext (link_in link.now) (file_in bytes segment.now) }
{
    segment.head.number - 1 == link.before
}

/// Whether the digest is that of the file before.
fn is_behind(link: &SegmentLink, segment: &Segment) -> bool
    ensures { IsTrue result ↔ (segment.now.head.behind ≡ link.now.behind) }
{
    segment.head.behind == link.behind
}

/// Whether there is a base for each ring, and each is right.
fn has_bases(link: &SegmentLink, segment: &Segment) -> bool
    ensures { (bytes : List ℕ)
        → IsTrue result ↔ HasBases (link_in link.now) (file_in bytes segment.now) }
{
    segment.head.bases.len() == segment.saved.rings.len()
        && are_bases(&link.places, &segment.head.bases)
}

/// Tests a file, and reports the first test that fails.
pub(crate) fn test(link: &SegmentLink, segment: &Segment) -> Result<(), SegmentError>
    requires { 0 < segment.now.head.number }
    ensures { (bytes : List ℕ)
        → IsTested (link_in link.now) (file_in bytes segment.now) result }
{
    if !is_next(link, segment) {
        return Err(SegmentError::Number);
    }
    if !is_behind(link, segment) {
        return Err(SegmentError::Behind);
    }
    if !has_bases(link, segment) {
        return Err(SegmentError::Base);
    }
    if !are_starts(&link.places, &segment.saved.rings) {
        return Err(SegmentError::Start);
    }
    if !are_short(&segment.saved.rings) {
        return Err(SegmentError::Full);
    }
    Ok(())
}
