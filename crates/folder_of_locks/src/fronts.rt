//! The front of the last file of a folder: its first lines, without a torn end.

ghost use Rattle.std.specs.Prelude.{◌≡◌, ◌<◌, ◌≤◌, false, length, take, drop, IsTrue, IfOk, IfErr, Ok, Err};
ghost use Rattle.std.specs.List.{All};
ghost use Rattle.ring_model.specs.Bases.{IsBase};
ghost use Rattle.journal.specs.Recovery.{has_line_end};
ghost use Rattle.segment_files.specs.RemarkLaws.{AreLines, IsOneLine};
ghost use Rattle.segment_files.specs.Last.{IsRightLast};
ghost use Rattle.segment_files.specs.Torn.{named_line, HasBadLine};
ghost use Rattle.folder_of_locks.specs.Fronts.{IsFront, IsFrontFault};

use crate::faults::StartFault;
use segment_files::{LastSegment, SegmentError, read_end, read_last, split_line};
use std::alloc::Global;

/// Some first bytes of a file, and what is read of them.
#[derive(Drop)]
pub(crate) struct Front {
    /// How many bytes it has.
    pub(crate) end: usize,
    pub(crate) last: LastSegment,
}

/// No front was found.
#[derive(Clone, Copy)]
struct NoFront;

/// Where the last line ends that has an end.
pub(crate) fn lines_end(bytes: &[u8]) -> usize
    ensures within { result ≤ length bytes.now }
    ensures lines { AreLines (take result bytes.now) }
    ensures half { has_line_end (drop result bytes.now) ≡ false }
{
    let mut end = bytes.len();
    while end > 0 {
        if bytes[end - 1] == b'\n' {
            return end;
        }
        end -= 1;
    }
    0
}

/// The line that a refusal names.
fn named_line(error: &SegmentError) -> Option<u64>
    ensures { result ≡ named_line error.now }
{
    match *error {
        SegmentError::Syntax(line) => Some(line),
        SegmentError::Bad { line, .. } => Some(line),
        _ => None,
    }
}

/// Where the line of this number begins.
fn line_start(bytes: &[u8], line: u64) -> usize
    ensures { result ≤ length bytes.now }
{
    let mut at: u64 = 1;
    for (i, byte) in bytes.iter().enumerate() {
        if at >= line {
            return i;
        }
        if *byte == b'\n' {
            at = at.saturating_add(1);
        }
    }
    bytes.len()
}

/// Cuts the bytes of a file before the line that a refusal names, until a chain can end with them.
fn cut_front(alloc: Global, bytes: &[u8], error: SegmentError) -> Result<Front, NoFront>
    ensures within { IfOk result (λ front. front.end ≤ length bytes.now) }
    ensures right { IfOk result
        (λ front. IsRightLast (take front.end bytes.now) (Ok front.last)) }
    ensures many { IfOk result
        (λ front. length front.last.head.bases.items ≡ length front.last.saved.rings.items) }
    ensures bases { IfOk result (λ front. All IsBase front.last.head.bases.items) }
{
    let mut end = bytes.len();
    let mut error = error;
    'cuts: loop {
        let Some(line) = named_line(&error) else {
            return Err(NoFront);
        };
        let start = line_start(&bytes[..end], line);
        if start >= end {
            return Err(NoFront);
        }
        end = start;
        match read_last(alloc, &bytes[..end]) {
            Ok(last) => return Ok(Front { end, last }),
            Err(next) => error = next,
        }
    }
}

/// Whether these bytes are a line with its end.
fn is_one_line(line: &[u8]) -> bool
    ensures { IsTrue result → IsOneLine line.now }
{
    if line.is_empty() {
        return false;
    }
    let last = line.len() - 1;
    if line[last] != b'\n' {
        return false;
    }
    !line[..last].contains(&b'\n')
}

/// Whether each line of a text ends.
fn are_lines(text: &[u8]) -> bool
    ensures { IsTrue result → AreLines text.now }
{
    text.is_empty() || text[text.len() - 1] == b'\n'
}

/// Whether the line after this front is bad.
fn has_bad_line(alloc: Global, bytes: &[u8], end: usize) -> bool
    requires { end ≤ length bytes.now }
    ensures { IsTrue result → HasBadLine bytes.now (take end bytes.now) (drop end bytes.now) }
{
    let (front, left_out) = bytes.split_at(end);
    if left_out.is_empty() {
        return false;
    }
    let (line, _) = split_line(left_out);
    if !are_lines(front) {
        return false;
    }
    if !is_one_line(line) {
        return false;
    }
    let Err(error) = read_last(alloc, &bytes[..end + line.len()]) else {
        return false;
    };
    named_line(&error).is_some()
}

/// The front of a file with a torn end.
fn torn_front(
    alloc: Global,
    number: u64,
    bytes: &[u8],
    error: SegmentError,
) -> Result<Front, StartFault>
    ensures within { IfOk result (λ front. front.end ≤ length bytes.now) }
    ensures ok { IfOk result
        (λ front. IsFront bytes.now (take front.end bytes.now) front.last) }
    ensures many { IfOk result
        (λ front. length front.last.head.bases.items ≡ length front.last.saved.rings.items) }
    ensures bases { IfOk result (λ front. All IsBase front.last.head.bases.items) }
    ensures err { IfErr result (λ e. IsFrontFault number bytes.now e) }
{
    match read_end(alloc, bytes) {
        Ok(_) => {}
        Err(SegmentError::OutOfMemory) => return Err(StartFault::OutOfMemory),
        Err(error) => return Err(StartFault::Segment(number, error)),
    }
    let Ok(front) = cut_front(alloc, bytes, error) else {
        // the line that is named is among the bytes, so this does not come
        return Err(StartFault::OutOfMemory);
    };
    if !has_bad_line(alloc, bytes, front.end) {
        // the line after the front is refused, so this does not come
        return Err(StartFault::OutOfMemory);
    }
    Ok(front)
}

/// The front of a file.
fn any_front(alloc: Global, number: u64, bytes: &[u8]) -> Result<Front, StartFault>
    ensures within { IfOk result (λ front. front.end ≤ length bytes.now) }
    ensures ok { IfOk result
        (λ front. IsFront bytes.now (take front.end bytes.now) front.last) }
    ensures many { IfOk result
        (λ front. length front.last.head.bases.items ≡ length front.last.saved.rings.items) }
    ensures bases { IfOk result (λ front. All IsBase front.last.head.bases.items) }
    ensures err { IfErr result (λ e. IsFrontFault number bytes.now e) }
{
    let end = lines_end(bytes);
    match read_last(alloc, &bytes[..end]) {
        Ok(last) => Ok(Front { end, last }),
        Err(error) => torn_front(alloc, number, bytes, error),
    }
}

/// The front of the file with these bytes, without half a line at its end, or a torn end. It says this number.
pub(crate) fn front_of(alloc: Global, number: u64, bytes: &[u8]) -> Result<Front, StartFault>
    ensures within { IfOk result (λ front. front.end ≤ length bytes.now) }
    ensures ok { IfOk result
        (λ front. IsFront bytes.now (take front.end bytes.now) front.last) }
    ensures named { IfOk result (λ front. front.last.head.number ≡ number) }
    ensures many { IfOk result
        (λ front. length front.last.head.bases.items ≡ length front.last.saved.rings.items) }
    ensures bases { IfOk result (λ front. All IsBase front.last.head.bases.items) }
    ensures err { IfErr result (λ e. IsFrontFault number bytes.now e) }
{
    let front = match any_front(alloc, number, bytes) {
        Ok(front) => front,
        Err(fault) => return Err(fault),
    };
    if front.last.head.number != number {
        return Err(StartFault::Segment(number, SegmentError::Number));
    }
    Ok(front)
}
