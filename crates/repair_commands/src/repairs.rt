//! `repairs`: many repairs of rings, counted.

ghost use Rattle.std.specs.Prelude.{None, OnOk, IfOk, IfErr};
ghost use Rattle.repair_commands.specs.Repaired.{IsRepairsAnswer, IsRepairsRefusal, HavePrinted, IsPrintRefusal, AreCounts};
ghost use Rattle.tool_parts.specs.Worlds.{world};

use crate::files::save;
use crate::studies::{studies_of, threads_of};
use disks::Disk;
use repair_report::{Lines, ReportFault, report_repairs};
use repair_requests::{Refusal, RepairsWords};
use repair_texts::Row;
use repair_threads::ThreadCount;
use ring_repairs::Study;
use std::alloc::Global;
use std::io::Write;
use std::thread::Threads;
use tool_parts::faults::ToolError;

/// Does the trials of each study, and prints the reports on them: each leaves the writer's buffer as soon as its trials are done.
/// Returns their rows; if there is one study, `counts` then says how many of its trials took each number of passes.
///
/// # Errors
///
/// `OutOfMemory`, and `Write` where the writer fails: the bytes written until then are a prefix of the reports on the first studies.
fn print_all<W: Write>(
    rt: &(impl Threads + Sync),
    alloc: Global,
    studies: Vec<Study>,
    threads: ThreadCount,
    lines: Lines,
    counts: &mut Vec<u64>,
    out: &mut W,
) -> Result<Vec<Row<'static>>, Refusal<'static>>
    ensures ok { IfOk result (λ rows.
        HavePrinted lines studies.items rows.items (W.contents out.old) (W.contents out.new)) }
    ensures counts { OnOk result (AreCounts studies.items counts.new.items) }
    ensures err { IfErr result (λ e.
        IsPrintRefusal lines studies.items (W.contents out.old) (W.contents out.new) e) }
{
    let mut rows = Vec::new(alloc);
    for study in studies {
        match report_repairs(rt, alloc, study, threads, lines, &mut rows, counts, out) {
            Ok(()) => {
                // So that an interrupt leaves the lines of what is done. A fault is met again where the buffer is emptied.
                let _ = out.flush();
            }
            Err(ReportFault::Write) => return Err(Refusal::Tool(ToolError::Write)),
            Err(ReportFault::OutOfMemory) => return Err(Refusal::Tool(ToolError::OutOfMemory)),
        }
    }
    Ok(rows)
}

/// `repairs`, from its words: does the trials of each size, and prints the report on them as soon as they are done; then replaces the
/// files for the table and the picture, if they are wanted.
///
/// # Errors
///
/// `NoRing` if there is no size, the refusal of the first study that is refused, `NoThreads` and `ManyThreads`: nothing is printed then.
/// `OutOfMemory`. `Write` if the writer fails: the bytes written until then are a prefix of the reports. `Stream` and `Save` with the
/// name of the file. No file has changed then, except for the table, if the picture could not be made.
pub fn run<'a, R: Threads + Sync, D: Disk, W: Write>(
    rt: &R,
    alloc: Global,
    disk: &mut D,
    words: &RepairsWords<'a>,
    out: &mut W,
) -> Result<(), Refusal<'a>>
    ensures ok { OnOk result (IsRepairsAnswer words.now
        (world (D.holds disk.old) None (W.contents out.old) None)
        (world (D.holds disk.new) None (W.contents out.new) None)) }
    ensures err { IfErr result (λ e. IsRepairsRefusal words.now
        (world (D.holds disk.old) None (W.contents out.old) None)
        (world (D.holds disk.new) None (W.contents out.new) None) e) }
{
    let studies = match studies_of(alloc, words) {
        Ok(studies) => studies,
        Err(refusal) => return Err(refusal),
    };
    let threads = match threads_of(words) {
        Ok(threads) => threads,
        Err(refusal) => return Err(refusal),
    };
    let mut counts = Vec::new(alloc);
    let rows = match print_all(rt, alloc, studies, threads, words.lines, &mut counts, out) {
        Ok(rows) => rows,
        Err(refusal) => return Err(refusal),
    };
    match save(alloc, disk, words.made, rows.as_slice(), counts.as_slice()) {
        Ok(()) => Ok(()),
        Err(refusal) => Err(refusal),
    }
}
