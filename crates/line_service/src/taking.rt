//! Bytes that are taken, line by line.

ghost use Rattle.std.specs.Prelude.{◌≡◌, ◌<◌, ◌≤◌, ◌+◌, ◌-◌, ℕ, List, [], ◌++◌, length, take, true, false, OnOk, IfOk};
ghost use Rattle.text_lines.specs.Limits.{line_limit};
ghost use Rattle.line_service.specs.Answering.{IsLine, HasNoEnd, cut};
ghost use Rattle.line_service.specs.Loop.{ServesPiece, ServesFirst};
ghost use Rattle.line_service.specs.Stands.{LeavesFiles};

use crate::answering::AnswersLines;
use crate::pending::Pending;
use disks::Disk;
use memchr::memchr;
use std::alloc::AllocError;
use text_lines::LINE_LIMIT;

/// What is kept of a piece after `kept` bytes of its line.
fn kept_part(piece: &[u8], kept: usize) -> &[u8]
    ensures { result.now ≡ take (line_limit + 1 - kept) piece.now }
{
    let room = (LINE_LIMIT + 1).saturating_sub(kept);
    if room < piece.len() {
        return &piece[..room];
    }
    piece
}

/// Keeps a piece of a line, up to one byte more than a line may have.
fn keep(line: &mut Vec<u8>, piece: &[u8]) -> Result<(), AllocError>
    ensures { OnOk result ((begun : List ℕ) → line.old.items ≡ cut begun
        → line.new.items ≡ cut (begun ++ piece.now)) }
{
    let kept = kept_part(piece, line.len());
    line.extend_from_slice(kept)?;
    Ok(())
}

/// The bytes up to the first LF, with it, or all if there is none; whether there is one; and the bytes after them.
fn split_line(bytes: &[u8]) -> (&[u8], bool, &[u8])
    requires { 0 < length bytes.now }
    ensures split { bytes.now ≡ result.0.now ++ result.2.now }
    ensures some { 0 < length result.0.now }
    ensures line { result.1 ≡ true → IsLine result.0.now }
    ensures none { result.1 ≡ false → HasNoEnd result.0.now }
{
    match memchr(b'\n', bytes) {
        Some(place) => {
            let (line, rest) = bytes.split_at(place + 1);
            (line, true, rest)
        }
        None => (bytes, false, &[]),
    }
}

/// Whether a piece is a whole line that is not too long, of which nothing was kept before.
fn is_whole(line: &[u8], piece: &[u8], ends: bool) -> bool
    ensures { result ≡ true → (ends ≡ true) × (line.now ≡ []) × (length piece.now ≤ line_limit) }
{
    match line {
        [] => ends && piece.len() <= LINE_LIMIT,
        [_, ..] => false,
    }
}

/// Takes a piece of a line more: it is kept, and if it ends the line, that is answered. A whole line is answered where it is, with
/// no copy. Says whether it is over.
fn take_piece<S: AnswersLines, D: Disk>(
    service: &mut S,
    disk: &mut D,
    line: &mut Vec<u8>,
    piece: &[u8],
    ends: bool,
    pending: &mut Pending,
) -> Result<bool, AllocError>
    requires open { S.is_over service.old ≡ false }
    requires line { ends ≡ true → IsLine piece.now }
    requires none { ends ≡ false → HasNoEnd piece.now }
    ensures over { IfOk result (λ over. over ≡ S.is_over service.new) }
    ensures serves { ServesPiece result S.is_answered D.holds service.old disk.old line.old.items
        pending.old piece.now service.new disk.new line.new.items pending.new }
    ensures unchanged { LeavesFiles S.changes_files D.leaves service.old disk.old service.new
        disk.new }
{
    if is_whole(line.as_slice(), piece, ends) {
        service.answer(disk, piece, pending)?;
        return Ok(service.is_over());
    }
    keep(line, piece)?;
    if !ends {
        return Ok(false);
    }
    service.answer(disk, line.as_slice(), pending)?;
    line.clear();
    Ok(service.is_over())
}

/// How far a block was taken: how many of its bytes, and whether it is over after them.
#[derive(Clone, Copy)]
pub(crate) struct Taken {
    pub(crate) count: usize,
    pub(crate) over: bool,
}

/// Takes the bytes of a block, line by line, up to the line after which it is over, if there is one.
pub(crate) fn take_bytes<S: AnswersLines, D: Disk>(
    service: &mut S,
    disk: &mut D,
    line: &mut Vec<u8>,
    block: &[u8],
    pending: &mut Pending,
) -> Result<Taken, AllocError>
    requires { S.is_over service.old ≡ false }
    ensures over { IfOk result (λ t. t.over ≡ S.is_over service.new) }
    ensures count { IfOk result
        (λ t. (t.count ≤ length block.now) × (t.over ≡ false → t.count ≡ length block.now)) }
    ensures serves { ServesFirst result (λ t. t.count) S.is_answered D.holds service.old disk.old
        line.old.items pending.old block.now service.new disk.new line.new.items pending.new }
    ensures unchanged { LeavesFiles S.changes_files D.leaves service.old disk.old service.new
        disk.new }
{
    let mut rest = block;
    while !rest.is_empty() {
        let (piece, ends, more) = split_line(rest);
        match take_piece(service, disk, line, piece, ends, pending) {
            Ok(false) => {}
            Ok(true) => {
                return Ok(Taken {
                    count: block.len() - more.len(),
                    over: true,
                });
            }
            Err(fault) => return Err(fault),
        }
        rest = more;
    }
    Ok(Taken {
        count: block.len(),
        over: false,
    })
}
