//! The saved text of all rings that are served. Writing it takes no memory.

ghost use Rattle.std.specs.Prelude.{◌≡◌, ◌≤◌, ◌<◌, ◌^◌, IfOk, IsTrue, IsFalse, length, map, Some};
ghost use Rattle.std.specs.List.{flat_map, AllByRecursion};
ghost use Rattle.text_lines.specs.Writing.{Writes};
ghost use Rattle.disks.specs.Held.{Replaces};
ghost use Rattle.saved_history.specs.Versions.{latest_version};
ghost use Rattle.saved_history.specs.Spelling.{block_text, text, BlockFits, Fits};
ghost use Rattle.ring_check.specs.Legal.{IsLegalText};
ghost use Rattle.ring_service.specs.Standings.{standing_of};
ghost use Rattle.ring_service.specs.Saved.{block_at, blocks_from, content_of};

use crate::served::Served;
use disks::{Contents, ContentsFault, Disk, replace};
use endless_ring::EndlessRing;
use one_thread_ring::put_ring;
use saved_history::LATEST_VERSION;
use saved_history::put_lines::{put_done_line, put_first_line};
use std::alloc::Global;
use std::io::Write;
use text_lines::WriteFault;

/// Writes the block of a ring's segment, with its place.
fn put_segment<W: Write>(out: &mut W, place: u32, ring: &EndlessRing) -> Result<(), WriteFault>
    ensures written { Writes (W.contents out.old) (W.contents out.new) result
        (block_text (block_at place (standing_of ring.now))) }
    ensures fits { IfOk result (λ _.
        BlockFits latest_version (block_at place (standing_of ring.now))) }
{
    put_ring(out, place, ring.segment())
}

/// Writes the blocks of the rings, each with its place from 0.
fn put_blocks<W: Write>(out: &mut W, rings: &[EndlessRing]) -> Result<(), WriteFault>
    requires { length rings.now < 2 ^ 32 }
    ensures written { Writes (W.contents out.old) (W.contents out.new) result
        (flat_map block_text (blocks_from 0 (map standing_of rings.now))) }
    ensures fits { IfOk result (λ _.
        AllByRecursion (BlockFits latest_version) (blocks_from 0 (map standing_of rings.now))) }
{
    for (place, ring) in rings.iter().enumerate() {
        match put_segment(out, place as u32, ring) {
            Ok(()) => {}
            Err(fault) => return Err(fault),
        }
    }
    Ok(())
}

/// Writes the saved text of these rings, at least one.
fn write_text<W: Write>(out: &mut W, rings: &[EndlessRing]) -> Result<(), WriteFault>
    requires some { 1 ≤ length rings.now }
    requires most { length rings.now < 2 ^ 32 }
    ensures written { Writes (W.contents out.old) (W.contents out.new) result
        (text (content_of (map standing_of rings.now))) }
    ensures fits { IfOk result (λ _. Fits (content_of (map standing_of rings.now))) }
{
    put_first_line(out, LATEST_VERSION)?;
    put_blocks(out, rings)?;
    put_done_line(out, rings.len() as u32)?;
    Ok(())
}

/// Writes the saved text of all rings as they are, in the latest version: for each its place, its start, its history and
/// the surveys that its clients were given. The text is legal, whatever lines were answered.
///
/// # Errors
///
/// `WriteFault` at the first error of the writer: it holds a prefix of the text then.
pub fn write_rings<W: Write>(out: &mut W, served: &Served) -> Result<(), WriteFault>
    requires some { 1 ≤ length served.now }
    requires most { length served.now < 2 ^ 32 }
    ensures written { Writes (W.contents out.old) (W.contents out.new) result
        (text (content_of served.now)) }
    ensures fits { IfOk result (λ _. Fits (content_of served.now)) }
    ensures legal { IsLegalText (content_of served.now) }
{
    write_text(out, served.rings())
}

/// The saved text of all rings, which a file is to hold.
#[derive(Drop)]
struct RingsText<'a> {
    served: &'a Served,
}

impl Contents for RingsText<'_> {
    ghost use Rattle.std.specs.Prelude.{◌≤◌, ◌<◌, ◌^◌, length};
    ghost use Rattle.saved_history.specs.Spelling.{text};
    ghost use Rattle.ring_check.specs.Legal.{IsLegalText};
    ghost use Rattle.ring_service.specs.Saved.{content_of};

    ghost ready = { λ s. (1 ≤ length s.served.now) × (length s.served.now < 2 ^ 32) };

    ghost bytes = { λ s. text (content_of s.served.now) };

    ghost known = { λ s. IsLegalText (content_of s.served.now) };

    fn write_to<W: Write>(&self, out: &mut W) -> Result<(), ContentsFault> {
        match write_rings(out, self.served) {
            Ok(()) => Ok(()),
            Err(_) => Err(ContentsFault::Write),
        }
    }
}

/// Replaces the file of this name by one with the saved text of all rings, and says whether it did. If not, no
/// file has changed: it could not be made, written or put there, or memory ran out, or there is no ring or too many.
pub fn save_rings<D: Disk>(alloc: Global, disk: &mut D, served: &Served, name: &str) -> bool
    ensures saved { IsTrue result
        → Replaces (D.holds disk.old) (D.holds disk.new) name.now
        (Some (text (content_of served.now))) }
    ensures kept { IsFalse result → D.holds disk.new ≡ D.holds disk.old }
    ensures legal { IsTrue result → IsLegalText (content_of served.now) }
{
    let count = served.count();
    if count == 0 || count > u32::MAX as usize {
        return false;
    }
    replace(alloc, disk, name, &RingsText { served }).is_ok()
}
