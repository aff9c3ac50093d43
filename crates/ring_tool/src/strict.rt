//! Does `run` with settings that are read strictly, and ends the run.

ghost use Rattle.std.specs.Prelude.{◌≤◌, None};
ghost use Rattle.std.specs.Io.Buffered.{writer_contents};
ghost use Rattle.ring_tool.specs.Strictly.{IsWantedOver, HasEndedOver, HasRunStrictly};
ghost use Rattle.tool_parts.specs.Worlds.{world};

use crate::ends::{Ending, fail_with};
use crate::wanted::do_wanted;
use command_line::StrictWords;
use disks::Disk;
use std::io::{BufWriter, Read, Write};
use std::sync::Wait;
use std::thread::Threads;
use strict_settings::strict_bytes;
use tool_parts::requests::{Request, RunWords};
use tool_requests::{InTurnWords, Wanted};

/// What the words want, but of settings that are standard input.
fn wanted_over<'a>(words: &StrictWords<'a>) -> Wanted<'a>
    ensures { IsWantedOver words.now result }
{
    let run = RunWords {
        settings: "-",
        history: words.run.history,
        quiet: words.run.quiet,
    };
    match words.seed {
        Some(seed) => Wanted::RunInTurn(InTurnWords { run, seed }),
        None => Wanted::Tool(Request::Run(run)),
    }
}

/// Does what the words want with settings of which these are the bytes, and ends the run.
fn run_bytes<R: AllocGlobal + Threads + Wait + Sync, D: Disk, O: Write + Drop, E: Write>(
    rt: &R,
    disk: &mut D,
    words: &StrictWords<'_>,
    bytes: &[u8],
    out: BufWriter<O>,
    err: &mut E,
) -> Ending<O>
    ensures status { result.status ≤ 2 }
    ensures ended { HasEndedOver words.now bytes.now result.status result.told
        (world (D.holds disk.old) None (writer_contents O.contents out) (E.contents err.old))
        (world (D.holds disk.new) None (O.contents result.out) (E.contents err.new)) }
{
    let wanted = wanted_over(words);
    let mut input = bytes;
    do_wanted(rt, disk, &wanted, &mut input, out, err)
}

/// Does `run` where each member of the settings is read, and ends the run; else it refuses them, before they are run. Words,
/// files and streams are those of `answer`.
///
/// The status is that of [`do_wanted`], or 1 if the settings are refused.
pub fn do_strictly<
    R: AllocGlobal + Threads + Wait + Sync,
    D: Disk,
    I: Read,
    O: Write + Drop,
    E: Write,
>(
    rt: &R,
    disk: &mut D,
    words: &StrictWords<'_>,
    input: &mut I,
    out: BufWriter<O>,
    err: &mut E,
) -> Ending<O>
    ensures status { result.status ≤ 2 }
    ensures ended { HasRunStrictly words.now result.status result.told
        (world (D.holds disk.old) (I.remaining input.old)
        (writer_contents O.contents out) (E.contents err.old))
        (world (D.holds disk.new) (I.remaining input.new)
        (O.contents result.out) (E.contents err.new)) }
{
    match strict_bytes(rt.alloc(), disk, &words.run, input) {
        Ok(bytes) => run_bytes(rt, disk, words, bytes.as_slice(), out, err),
        Err(refusal) => fail_with(rt.alloc(), &refusal, refusal.status(), out, err),
    }
}
