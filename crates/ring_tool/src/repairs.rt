//! Does the command `repairs`, and ends the run.

ghost use Rattle.std.specs.Prelude.{None};
ghost use Rattle.std.specs.Io.Buffered.{writer_contents};
ghost use Rattle.ring_tool.specs.Repaired.{HasRepaired};
ghost use Rattle.tool_parts.specs.Worlds.{world};

use crate::ends::{Ending, done, fail_with};
use disks::Disk;
use repair_commands::repairs;
use repair_requests::RepairsWords;
use std::io::{BufWriter, Write};
use std::thread::Threads;

/// Does the trials and ends the run: what was printed leaves the buffer of `out`, and a refusal is reported on `err`. The file for the
/// table is one of `disk`.
///
/// The status is 0 if it was done and every byte of the answer is in the writer below, and else 1.
pub fn do_repairs<R: AllocGlobal + Threads + Sync, D: Disk, O: Write + Drop, E: Write>(
    rt: &R,
    disk: &mut D,
    words: &RepairsWords<'_>,
    mut out: BufWriter<O>,
    err: &mut E,
) -> Ending<O>
    ensures { HasRepaired words.now result.status result.told
        (world (D.holds disk.old) None (writer_contents O.contents out) (E.contents err.old))
        (world (D.holds disk.new) None (O.contents result.out) (E.contents err.new)) }
{
    let alloc = rt.alloc();
    match repairs::run(rt, alloc, disk, words, &mut out) {
        Ok(()) => done(alloc, out, err),
        Err(refusal) => fail_with(alloc, &refusal, refusal.status(), out, err),
    }
}
