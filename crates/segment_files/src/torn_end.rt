//! The last file of a chain, whose end may be torn.

ghost use Rattle.std.specs.Prelude.{◌≡◌, ◌⊎◌, ◌≤◌, ◌<◌, Some, IfSome, true, false, length, take, drop, is_some, IsTrue, IfOk, IfErr, Ok, Err};
ghost use Rattle.std.specs.List.{All};
ghost use Rattle.ring_model.specs.Bases.{IsBase};
ghost use Rattle.text_lines.specs.Texts.{line_of};
ghost use Rattle.segment_files.specs.RemarkLaws.{AreLines, IsOneLine};
ghost use Rattle.segment_files.specs.Last.{IsRightLast};
ghost use Rattle.segment_files.specs.Torn.{named_line, names_line, IsBadFrom, HasBadLine, has_later, IsTorn, IsDamaged, IsRightEnd};

use crate::errors::SegmentError;
use crate::last::{LastSegment, read_last};
use crate::reached::all_reached;
use crate::remarks::split_line;
use crate::torn_signs::{NoRoom, has_later};
use std::alloc::Global;
use text_lines::line_at;

/// The line that a refusal names.
fn named_line(error: &SegmentError) -> Option<u64>
    ensures { result ≡ named_line error.now }
{
    match *error {
        SegmentError::Syntax(line) => Some(line),
        SegmentError::Bad { line, .. } => Some(line),
        _ => None,
    }
}

/// The place after the end of the line before this one.
fn line_start(bytes: &[u8], line: u64) -> usize
    ensures { result ≤ length bytes.now }
{
    let mut at: u64 = 1;
    for (i, b) in bytes.iter().enumerate() {
        if at >= line {
            return i;
        }
        if *b == b'\n' {
            at = at.saturating_add(1);
        }
    }
    bytes.len()
}

/// Whether each line of a text ends.
fn are_lines(text: &[u8]) -> bool
    ensures { IsTrue result → AreLines text.now }
{
    text.is_empty() || text[text.len() - 1] == b'\n'
}

/// The place before `kept` where the line begins that a refusal names.
fn bad_start(bytes: &[u8], error: &SegmentError, kept: usize) -> Option<usize>
    requires { kept ≤ length bytes.now }
    ensures { IfSome result (λ start. (start < kept) × AreLines (take start bytes.now)
        × (named_line error.now ≡ Some (line_of bytes.now start))) }
{
    let Some(line) = named_line(error) else {
        return None;
    };
    let start = line_start(bytes, line);
    if start < kept && are_lines(&bytes[..start]) && line_at(bytes, start) == line {
        Some(start)
    } else {
        None
    }
}

/// Whether these bytes are a line with its end.
fn is_one_line(line: &[u8]) -> bool
    ensures { IsTrue result → IsOneLine line.now }
{
    if line.is_empty() {
        return false;
    }
    let last = line.len() - 1;
    if line[last] != b'\n' {
        return false;
    }
    !line[..last].contains(&b'\n')
}

/// A front of the bytes of a file, and what is read of it: the file, or a refusal that names no line.
#[derive(Drop)]
struct Front {
    kept: usize,
    found: Result<LastSegment, SegmentError>,
}

/// Cuts the bytes of a file before the line that a refusal of them names, until no line of them is refused.
#[tactic(auto, using(crate::proofs::TornFronts::bad_from))]
fn front_of(alloc: Global, bytes: &[u8], error: SegmentError) -> Result<Front, NoRoom>
    requires { IsRightLast bytes.now (Err error) }
    ensures within { IfOk result (λ front. front.kept ≤ length bytes.now) }
    ensures bad { IfOk result (λ front. IsBadFrom bytes.now front.kept) }
    ensures right { IfOk result (λ front. IsRightLast (take front.kept bytes.now) front.found) }
    ensures unnamed { IfOk result (λ front. IfErr front.found (λ e. names_line e ≡ false)) }
    ensures many { IfOk result (λ front. IfOk front.found
        (λ s. length s.head.bases.items ≡ length s.saved.rings.items)) }
    ensures bases { IfOk result
        (λ front. IfOk front.found (λ s. All IsBase s.head.bases.items)) }
{
    let mut kept = bytes.len();
    let mut error = error;
    'cuts: loop {
        let Some(start) = bad_start(bytes, &error, kept) else {
            // the line that is named is among the bytes, so this does not come
            return Err(NoRoom);
        };
        kept = start;
        let found = read_last(alloc, &bytes[..kept]);
        match found {
            Ok(last) => return Ok(Front {
                kept,
                found: Ok(last),
            }),
            Err(SegmentError::OutOfMemory) => return Err(NoRoom),
            Err(next) => {
                if named_line(&next).is_none() {
                    return Ok(Front {
                        kept,
                        found: Err(next),
                    });
                }
                error = next;
            }
        }
    }
}

/// Whether the line after this front is bad.
fn has_bad_line(alloc: Global, bytes: &[u8], kept: usize) -> bool
    requires { kept ≤ length bytes.now }
    ensures { IsTrue result → HasBadLine bytes.now (take kept bytes.now) (drop kept bytes.now) }
{
    let (front, left_out) = bytes.split_at(kept);
    if left_out.is_empty() {
        return false;
    }
    let (line, _) = split_line(left_out);
    if !are_lines(front) {
        return false;
    }
    if !is_one_line(line) {
        return false;
    }
    let Err(error) = read_last(alloc, &bytes[..kept + line.len()]) else {
        return false;
    };
    named_line(&error).is_some()
}

/// Whether a line of these bytes can follow where the segment ends.
fn later_in(alloc: Global, last: &LastSegment, left_out: &[u8]) -> Result<bool, NoRoom>
    ensures { IfOk result (λ later. later ≡ has_later last.now left_out.now) }
{
    let Ok(reached) = all_reached(alloc, &last.saved.rings) else {
        return Err(NoRoom);
    };
    has_later(&reached, left_out.len() as u64, left_out)
}

/// Reads a file that is refused with this line, without its end if that is torn.
fn read_torn(alloc: Global, bytes: &[u8], error: SegmentError) -> Result<LastSegment, SegmentError>
    requires refused { IsRightLast bytes.now (Err error) }
    requires named { names_line error ≡ true }
    ensures ok { IfOk result (λ s. IsTorn bytes.now s) }
    ensures err { IfErr result
        (λ e. (e ≡ SegmentError.OutOfMemory) ⊎ ((e ≡ error) × IsDamaged bytes.now)) }
    ensures many { IfOk result
        (λ s. length s.head.bases.items ≡ length s.saved.rings.items) }
    ensures bases { IfOk result (λ s. All IsBase s.head.bases.items) }
{
    let Ok(front) = front_of(alloc, bytes, error) else {
        return Err(SegmentError::OutOfMemory);
    };
    let Front { kept, found } = front;
    let Ok(last) = found else {
        return Err(error);
    };
    let (_, left_out) = bytes.split_at(kept);
    let Ok(later) = later_in(alloc, &last, left_out) else {
        return Err(SegmentError::OutOfMemory);
    };
    if later {
        return Err(error);
    }
    if !has_bad_line(alloc, bytes, kept) {
        // the line after the front is refused, so this does not come
        return Err(SegmentError::OutOfMemory);
    }
    Ok(last)
}

/// Reads only the last file of a chain, as [`read_last`] does, but without a torn end: if a line is bad, and neither that
/// line nor one after it can follow where the lines before it end, the file is what comes before it.
///
/// So zeros and the bytes of other files, which a loss of power may leave after what was put on the disk, change nothing.
/// No line of a right journal is left out. A damaged line is refused if one after it is a later call's.
///
/// It takes as much time as [`read_last`], and a few times that if a line is bad.
///
/// # Errors
///
/// Those of [`read_last`].
pub fn read_end(alloc: Global, bytes: &[u8]) -> Result<LastSegment, SegmentError>
    ensures right { IsRightEnd bytes.now result }
    ensures many { IfOk result
        (λ s. length s.head.bases.items ≡ length s.saved.rings.items) }
    ensures bases { IfOk result (λ s. All IsBase s.head.bases.items) }
{
    let error = match read_last(alloc, bytes) {
        Ok(last) => return Ok(last),
        Err(error) => error,
    };
    if named_line(&error).is_none() {
        return Err(error);
    }
    match read_torn(alloc, bytes, error) {
        Ok(last) => Ok(last),
        Err(error) => Err(error),
    }
}
