//! The text with which a segment of locks begins.

ghost use Rattle.std.specs.Prelude.{◌≡◌, ◌≤◌, ◌<◌, ◌^◌, ◌++◌, length, slice_get, Some, IfOk, IfErr, OnOk};
ghost use Rattle.std.specs.List.{flat_map};
ghost use Rattle.text_lines.specs.Writing.{Writes};
ghost use Rattle.saved_history.specs.Versions.{latest_version};
ghost use Rattle.saved_history.specs.Spelling.{block_text, text, BlockFits};
ghost use Rattle.journal.specs.Spelling.{journal_head};
ghost use Rattle.segment_files.specs.Spelling.{head_of, head_text, DigestFits, HeadFits};
ghost use Rattle.ring_service.specs.Standings.{standing_of};
ghost use Rattle.ring_service.specs.Segments.{bases_of};
ghost use Rattle.ring_service.specs.Saved.{block_at, blocks_from};
ghost use Rattle.lock_journal.specs.Due.{HaveNoText};
ghost use Rattle.lock_journal.specs.Segments.{rings_of, content_of, segment_text, BlocksFit, HasText};

use endless_ring::EndlessRing;
use held_locks::Locks;
use journal::put_first_line;
use line_service::EndFault;
use one_thread_ring::put_ring;
use ring_model::Base;
use saved_history::{LATEST_VERSION, put_lines};
use segment_files::{DIGEST_DIGITS, SegmentHead, put_head};
use std::alloc::{AllocError, Global};
use std::io::Write;
use text_lines::WriteFault;

/// What came before the segment, for the ring of each lock.
fn bases_of(alloc: Global, locks: &Locks) -> Result<Vec<Base>, AllocError>
    ensures { IfOk result (λ bases. bases.items ≡ bases_of (rings_of locks.now)) }
{
    let count = locks.count();
    let mut bases = Vec::new(alloc);
    for lock in 0..count {
        bases.push(*locks.ring(lock).base())?;
    }
    Ok(bases)
}

/// Writes the block of a ring's segment.
fn put_block<W: Write>(out: &mut W, lock: u32, ring: &EndlessRing) -> Result<(), WriteFault>
    ensures written { Writes (W.contents out.old) (W.contents out.new) result
        (block_text (block_at lock (standing_of ring.now))) }
    ensures fits { IfOk result (λ _.
        BlockFits latest_version (block_at lock (standing_of ring.now))) }
{
    put_ring(out, lock, ring.segment())
}

/// Writes the blocks of the rings of the locks.
fn put_blocks<W: Write>(out: &mut W, locks: &Locks) -> Result<(), WriteFault>
    ensures written { Writes (W.contents out.old) (W.contents out.new) result
        (flat_map block_text (blocks_from 0 (rings_of locks.now))) }
    ensures fits { IfOk result (λ _. BlocksFit locks.now) }
{
    let count = locks.count();
    for lock in 0..count {
        match put_block(out, lock, locks.ring(lock)) {
            Ok(()) => {}
            Err(fault) => return Err(fault),
        }
    }
    Ok(())
}

/// Writes the saved text of the rings of the locks.
fn put_rings<W: Write>(out: &mut W, locks: &Locks) -> Result<(), WriteFault>
    ensures written { Writes (W.contents out.old) (W.contents out.new) result
        (text (content_of locks.now)) }
    ensures fits { IfOk result (λ _. BlocksFit locks.now) }
{
    put_lines::put_first_line(out, LATEST_VERSION)?;
    put_blocks(out, locks)?;
    put_lines::put_done_line(out, locks.count())?;
    Ok(())
}

/// Writes the beginning of a journal of these locks.
fn put_beginning<W: Write>(out: &mut W, locks: &Locks) -> Result<(), WriteFault>
    ensures written { Writes (W.contents out.old) (W.contents out.new) result
        (journal_head (content_of locks.now)) }
    ensures fits { IfOk result (λ _. BlocksFit locks.now) }
{
    match put_first_line(out) {
        Ok(()) => put_rings(out, locks),
        Err(fault) => Err(fault),
    }
}

/// Writes the beginning of a segment of these locks.
#[tactic(auto, using(text_lines::proofs::Writing::writes_then))]
fn put_segment<W: Write>(out: &mut W, head: &SegmentHead, locks: &Locks) -> Result<(), WriteFault>
    requires number { 0 < head.now.number }
    requires digits { DigestFits head.now.behind }
    requires some { 0 < length head.now.bases.items }
    requires most { length head.now.bases.items < 2 ^ 32 }
    ensures written { Writes (W.contents out.old) (W.contents out.new) result
        (head_text (head_of head.now) ++ journal_head (content_of locks.now)) }
    ensures fits { IfOk result (λ _. HeadFits (head_of head.now) × BlocksFit locks.now) }
{
    match put_head(out, head) {
        Ok(()) => put_beginning(out, locks),
        Err(fault) => Err(fault),
    }
}

/// The text with which the segment of this number begins, after a file of this digest.
///
/// # Errors
///
/// `File` where there is no lock; `OutOfMemory`.
pub fn segment_text(
    alloc: Global,
    number: u64,
    behind: [u8; DIGEST_DIGITS],
    locks: &Locks,
) -> Result<Vec<u8>, EndFault>
    requires number { 0 < number }
    requires digits { DigestFits behind }
    ensures text { IfOk result (λ text. text.items ≡ segment_text number behind locks.now) }
    ensures why { IfErr result (λ e. HaveNoText locks.now e) }
    ensures fits { OnOk result (HasText number behind locks.now) }
{
    if locks.count() == 0 {
        return Err(EndFault::File);
    }
    let Ok(bases) = bases_of(alloc, locks) else {
        return Err(EndFault::OutOfMemory);
    };
    let head = SegmentHead {
        number,
        behind,
        bases,
    };
    let mut text = Vec::new(alloc);
    match put_segment(&mut text, &head, locks) {
        Ok(()) => {}
        Err(_) => return Err(EndFault::OutOfMemory),
    }
    Ok(text)
}
