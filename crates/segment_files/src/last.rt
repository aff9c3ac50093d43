//! The last file of a chain, which is opened to resume from it.

ghost use Rattle.std.specs.Prelude.{◌≡◌, IfOk, length};
ghost use Rattle.std.specs.List.{All};
ghost use Rattle.ring_model.specs.Bases.{IsBase};
ghost use Rattle.segment_files.specs.Last.{IsRightLast};

use crate::errors::SegmentError;
use crate::heads::SegmentHead;
use crate::links::{opening, test};
use crate::segments::{Segment, read_segment};
use saved_history::Saved;
use std::alloc::Global;

/// The last file of a chain, as it is read.
#[derive(Drop)]
pub struct LastSegment {
    pub head: SegmentHead,
    /// The history that is recovered of its journal.
    pub saved: Saved,
}

/// Reads only the last file of a chain: what it says of those before it is taken on trust. A cut end of its journal is left
/// out.
///
/// # Errors
///
/// The first reason why no chain ends with it, in the order of [`SegmentError`].
pub fn read_last(alloc: Global, bytes: &[u8]) -> Result<LastSegment, SegmentError>
    ensures right { IsRightLast bytes.now result }
    ensures many { IfOk result
        (λ s. length s.head.bases.items ≡ length s.saved.rings.items) }
    ensures bases { IfOk result (λ s. All IsBase s.head.bases.items) }
{
    let segment = match read_segment(alloc, bytes) {
        Ok(segment) => segment,
        Err(error) => return Err(error),
    };
    let Ok(link) = opening(alloc, &segment) else {
        return Err(SegmentError::OutOfMemory);
    };
    match test(&link, &segment) {
        Ok(()) => {}
        Err(error) => return Err(error),
    }
    let Segment { head, saved, .. } = segment;
    Ok(LastSegment { head, saved })
}
