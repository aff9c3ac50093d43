//! The writer of a farm's outcome. It takes no memory.

ghost use Rattle.std.specs.Prelude.{◌≤◌, IfOk, length};
ghost use Rattle.std.specs.List.{flat_map, AllByRecursion};
ghost use Rattle.ring_settings.specs.Limits.{ring_limit};
ghost use Rattle.text_lines.specs.Writing.{Writes};
ghost use Rattle.saved_history.specs.Spelling.{block_text, text, BlockFits, Fits};
ghost use Rattle.saved_history.specs.Versions.{latest_version};
ghost use Rattle.ring_text.specs.SavedOf.{blocks_from, saved_of};
ghost use Rattle.one_thread_ring.specs.SavedOf.{block_at};

use one_thread_ring::put_block;
use ring_farm::{Outcome, RingOutcome};
use saved_history::LATEST_VERSION;
use saved_history::put_lines::{put_done_line, put_first_line};
use std::io::Write;
use text_lines::WriteFault;

/// Writes the block of a ring at its place.
fn put_ring<W: Write>(out: &mut W, place: u32, ring: &RingOutcome) -> Result<(), WriteFault>
    ensures written { Writes (W.contents out.old) (W.contents out.new) result
        (block_text (block_at place ring.now)) }
    ensures fits { IfOk result (λ _. BlockFits latest_version (block_at place ring.now)) }
{
    put_block(
        out,
        place,
        ring.book.start(),
        ring.book.history(),
        &ring.logs,
    )
}

/// Writes the blocks of the rings, each with its place from 0.
fn put_blocks<W: Write>(out: &mut W, rings: &[RingOutcome]) -> Result<(), WriteFault>
    requires { length rings.now ≤ ring_limit }
    ensures written { Writes (W.contents out.old) (W.contents out.new) result
        (flat_map block_text (blocks_from 0 rings.now)) }
    ensures fits { IfOk result
        (λ _. AllByRecursion (BlockFits latest_version) (blocks_from 0 rings.now)) }
{
    for (place, ring) in rings.iter().enumerate() {
        match put_ring(out, place as u32, ring) {
            Ok(()) => {}
            Err(fault) => return Err(fault),
        }
    }
    Ok(())
}

/// Writes the saved text of a farm's outcome, of 1 to `RING_LIMIT` rings, in the latest version: for each ring
/// its place from 0, its size, its start, the events of its history and their number, and the surveys of its logs,
/// log by log with the log's seat; after them the number of rings. Receipts are not written, since
/// the history holds them.
///
/// It takes no memory, does not flush, and calls the writer a few times for each line.
///
/// # Errors
///
/// `WriteFault` at the first error of the writer, an interruption too, or write of 0 bytes, and only
/// there. The writer then holds a prefix of the text, but not all of it, after what it held.
pub fn write_outcome<W: Write>(outcome: &Outcome, out: &mut W) -> Result<(), WriteFault>
    requires some { 1 ≤ length outcome.now.rings.items }
    requires most { length outcome.now.rings.items ≤ ring_limit }
    ensures written { Writes (W.contents out.old) (W.contents out.new) result
        (text (saved_of outcome.now)) }
    ensures fits { IfOk result (λ _. Fits (saved_of outcome.now)) }
{
    put_first_line(out, LATEST_VERSION)?;
    put_blocks(out, &outcome.rings)?;
    put_done_line(out, outcome.rings.len() as u32)?;
    Ok(())
}
