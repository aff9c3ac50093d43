//! Does `picture --animate`, and ends the run.

ghost use Rattle.std.specs.Io.Buffered.{writer_contents};
ghost use Rattle.ring_tool.specs.Moved.{HasMoved};
ghost use Rattle.tool_parts.specs.Worlds.{world};

use crate::ends::{Ending, done, fail_with};
use disks::Disk;
use motion_commands::moving;
use std::alloc::Global;
use std::io::{BufWriter, Read, Write};
use tool_parts::requests::PictureWords;

/// Draws the ring in motion and ends the run: what was printed leaves the buffer of `out`, and a refusal is reported on `err`. The file
/// that is read and the one for the picture are of `disk`.
///
/// The status is 0 if it was done and every byte that is printed is in the writer below, and else 1.
pub fn do_motion<D: Disk, I: Read, O: Write + Drop, E: Write>(
    alloc: Global,
    disk: &mut D,
    words: &PictureWords<'_>,
    input: &mut I,
    mut out: BufWriter<O>,
    err: &mut E,
) -> Ending<O>
    ensures { HasMoved words.now result.status result.told
        (world (D.holds disk.old) (I.remaining input.old) (writer_contents O.contents out)
        (E.contents err.old))
        (world (D.holds disk.new) (I.remaining input.new) (O.contents result.out)
        (E.contents err.new)) }
{
    match moving::run(alloc, disk, words, input, &mut out) {
        Ok(()) => done(alloc, out, err),
        Err(refusal) => fail_with(alloc, &refusal, refusal.status(), out, err),
    }
}
