//! A ring of the last file of a chain.

ghost use Rattle.std.specs.Prelude.{◌≡◌, ◌≢◌, length, ◌∷◌, [], All, IfOk, IfErr, IfSome, IfNone, Ok};
ghost use Rattle.ring_model.specs.Bases.{IsBase};
ghost use Rattle.segment_files.specs.Last.{IsRightLast};
ghost use Rattle.c_calls.specs.Sealed.{segment_code, segment_line, IsGoneOn, IsLastRefused, IsSegmentAnswer};

use crate::codes::{HISTORY_FULL, MANY_RINGS, NO_MEMORY, kind_code};
use crate::resumes::resume;
use endless_ring::{FilePlace, FileRing};
use ring_model::Base;
use saved_history::SavedRing;
use segment_files::{LastSegment, SegmentError, read_last};
use std::alloc::Global;

/// The code of bytes that are not a file with which a chain ends.
const NO_CHAIN: u32 = 52;

/// The code of why bytes are not a file with which a chain ends.
fn segment_code(error: SegmentError) -> u32
    ensures { result ≡ segment_code error }
{
    match error {
        SegmentError::Truncated => 49,
        SegmentError::Syntax(_) => 48,
        SegmentError::Bad { kind, .. } => kind_code(kind),
        SegmentError::Number => NO_CHAIN,
        SegmentError::Behind => NO_CHAIN,
        SegmentError::Base => NO_CHAIN,
        SegmentError::Start => NO_CHAIN,
        SegmentError::Full => HISTORY_FULL,
        SegmentError::Unfinished => NO_CHAIN,
        SegmentError::OutOfMemory => NO_MEMORY,
    }
}

/// The line that a refusal names, 0 if it names none.
fn segment_line(error: SegmentError) -> u64
    ensures { result ≡ segment_line error }
{
    match error {
        SegmentError::Syntax(line) => line,
        SegmentError::Bad { line, .. } => line,
        _ => 0,
    }
}

/// The ring, if there is only one.
fn only_ring(rings: &[SavedRing]) -> Option<&SavedRing>
    ensures some { IfSome result (λ ring. rings.now ≡ ring.now ∷ []) }
    ensures none { IfNone result (length rings.now ≢ 1) }
{
    match rings {
        [ring] => Some(ring),
        _ => None,
    }
}

/// The base, if there is only one.
fn only_base(bases: &[Base]) -> Option<Base>
    ensures some { IfSome result (λ base. bases.now ≡ base ∷ []) }
    ensures none { IfNone result (length bases.now ≢ 1) }
{
    match bases {
        [base] => Some(*base),
        _ => None,
    }
}

/// A ring that resumes the last file of a chain, or the code of why there is none.
fn go_on_in(alloc: Global, bytes: &[u8], last: &LastSegment, seats: u32) -> Result<FileRing, u32>
    requires right { IsRightLast bytes.now (Ok last.now) }
    requires many { length last.now.head.bases.items ≡ length last.now.saved.rings.items }
    requires bases { All IsBase last.now.head.bases.items }
    ensures ok { IfOk result (λ d. IsGoneOn bytes.now seats d) }
    ensures err { IfErr result (λ code. IsLastRefused last.now seats code) }
    ensures refused { IfErr result (λ code. code ≢ 0) }
{
    let Some(saved) = only_ring(last.saved.rings.as_slice()) else {
        return Err(MANY_RINGS);
    };
    let Some(base) = only_base(last.head.bases.as_slice()) else {
        return Err(MANY_RINGS);
    };
    match resume(alloc, saved, seats) {
        Ok(ring) => {
            let place = FilePlace::of(last.head.number, last.head.behind);
            Ok(FileRing::at(alloc, place, base, ring))
        }
        Err(code) => Err(code),
    }
}

/// The same of the bytes of the file, with the line that a refusal of them names.
pub fn go_on(alloc: Global, bytes: &[u8], seats: u32, line: &mut u64) -> Result<FileRing, u32>
    ensures ok { IfOk result (λ d. IsGoneOn bytes.now seats d) }
    ensures line { IfOk result (λ _. line.new ≡ 0) }
    ensures err { IfErr result (λ code. IsSegmentAnswer bytes.now seats code line.new) }
    ensures refused { IfErr result (λ code. code ≢ 0) }
{
    match read_last(alloc, bytes) {
        Ok(last) => {
            *line = 0;
            go_on_in(alloc, bytes, &last, seats)
        }
        Err(error) => {
            *line = segment_line(error);
            Err(segment_code(error))
        }
    }
}
