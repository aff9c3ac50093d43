//! A file as it is read: its head, and the history that is recovered of its journal, without the remarks.

ghost use Rattle.std.specs.Prelude.{◌≡◌, ◌==◌, ℕ, ◌+◌, ◌<◌, ◌≤◌, ◌^◌, ◌↔◌, List, length, map, IsTrue};
ghost use Rattle.std.specs.List.{flat_map, count_by};
ghost use Rattle.saved_history.specs.Content.{block_of, content};
ghost use Rattle.ring_check.specs.Lines.{block_lines};
ghost use Rattle.journal.specs.Recovery.{IsRecovered};
ghost use Rattle.segment_files.specs.Remarks.{IsEnded, lines_in, without_remarks, line_among};
ghost use Rattle.segment_files.specs.Files.{IsAllOf};
ghost use Rattle.segment_files.specs.Chain.{IsReadJournal, IsReadSegment, refused_head, refused_journal, line_in};

use crate::errors::SegmentError;
use crate::heads::SegmentHead;
use crate::read::read_head;
use crate::remarks::{has_remark, line_among, without_remarks};
use journal::{RecoverError, recover_journal};
use saved_history::{Saved, SavedRing};
use std::alloc::{AllocError, Global};
use text_lines::ReadError;

/// A file as it is read.
#[derive(Drop)]
pub struct Segment {
    pub head: SegmentHead,
    /// The history that is recovered of its journal.
    pub saved: Saved,
    /// Whether nothing of the journal is left out but whole remarks.
    pub whole: bool,
}

/// Why a file is refused, by a refusal of its head.
pub fn head_refusal(error: ReadError) -> SegmentError
    ensures { result ≡ refused_head error }
{
    match error {
        ReadError::Syntax(line) => SegmentError::Syntax(line),
        ReadError::Truncated => SegmentError::Truncated,
        ReadError::OutOfMemory => SegmentError::OutOfMemory,
    }
}

/// Why a file is refused, by a refusal of the journal in these bytes, which come after a head of this many lines.
pub fn journal_refusal(rest: &[u8], lines: u64, error: RecoverError) -> SegmentError
    requires { line_among (lines_in rest.now) (line_in error) + lines < 2 ^ 64 }
    ensures { result
        ≡ refused_journal (λ m. line_among (lines_in rest.now) m + lines) error }
{
    match error {
        RecoverError::Truncated => SegmentError::Truncated,
        RecoverError::Syntax(line) => SegmentError::Syntax(line_among(rest, line) + lines),
        RecoverError::Bad { line, kind } => SegmentError::Bad {
            line: line_among(rest, line) + lines,
            kind,
        },
        RecoverError::OutOfMemory => SegmentError::OutOfMemory,
    }
}

/// How many lines the blocks of these rings have.
fn lines_of(rings: &[SavedRing]) -> usize
    requires { length (flat_map block_lines (map block_of rings.now)) + 3 < 2 ^ 64 }
    ensures { result ≡ length (flat_map block_lines (map block_of rings.now)) }
{
    let mut lines: usize = 0;
    for ring in rings {
        lines += 3 + ring.events.len() + ring.surveys.len();
    }
    lines
}

/// How many lines end in the bytes.
fn ends(bytes: &[u8]) -> usize
    ensures value { result ≡ count_by (λ b. b == 10) bytes.now }
    ensures few { result ≤ length bytes.now }
{
    bytes.iter().filter(|b| **b == b'\n').count()
}

/// Whether the bytes end with a line.
fn is_ended(bytes: &[u8]) -> bool
    ensures { IsTrue result ↔ IsEnded bytes.now }
{
    !bytes.is_empty() && bytes[bytes.len() - 1] == b'\n'
}

/// Whether the recovered history has each call of the journal: then as many lines end in the journal as the blocks of the
/// history have, and three more: its first line, and the first and the last line of a saved text.
fn is_whole(journal: &[u8], saved: &Saved) -> bool
    requires { IsRecovered journal.now (content saved.now) }
    ensures { IsTrue result ↔ IsAllOf journal.now (content saved.now) }
{
    is_ended(journal) && ends(journal) == lines_of(&saved.rings) + 3
}

/// Recovers a journal, and whether it is all recovered.
fn read_journal(alloc: Global, journal: &[u8]) -> Result<(Saved, bool), RecoverError>
    ensures { IsReadJournal journal.now result }
{
    match recover_journal(alloc, journal) {
        Ok(saved) => {
            let all = is_whole(journal, &saved);
            Ok((saved, all))
        }
        Err(error) => Err(error),
    }
}

/// Recovers the journal after a head: the bytes without their remarks. If there is none, they are not copied.
fn read_rest(alloc: Global, rest: &[u8]) -> Result<(Saved, bool), RecoverError>
    ensures { IsReadJournal (without_remarks rest.now) result }
{
    if !has_remark(rest) {
        return read_journal(alloc, rest);
    }
    match without_remarks(alloc, rest) {
        Ok(journal) => read_journal(alloc, &journal),
        Err(AllocError) => Err(RecoverError::OutOfMemory),
    }
}

/// Reads a file by itself, as if it were the first of a chain: its head, and the history that is recovered of its journal.
///
/// # Errors
///
/// `Truncated`, `Syntax`, `Bad` and `OutOfMemory`, as for [`Chain::add`](crate::Chain::add).
pub fn read_segment(alloc: Global, bytes: &[u8]) -> Result<Segment, SegmentError>
    ensures { IsReadSegment bytes.now result }
{
    let (head, rest) = match read_head(alloc, bytes) {
        Ok(found) => found,
        Err(error) => return Err(head_refusal(error)),
    };
    match read_rest(alloc, rest) {
        Ok((saved, all)) => {
            let whole = all && is_ended(rest);
            Ok(Segment { head, saved, whole })
        }
        Err(error) => Err(journal_refusal(rest, 2 + head.bases.len() as u64, error)),
    }
}
