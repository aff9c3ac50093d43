//! The lines of the last file of a folder that are kept: whether the judge of names accepts them, and what they record.

ghost use Rattle.std.specs.Prelude.{◌≡◌, ◌≤◌, true, false, length, map, take, IfOk, IfErr, OnOk, string_bytes};
ghost use Rattle.segment_files.specs.RemarkLaws.{AreLines};
ghost use Rattle.segment_files.specs.Remarks.{lines_in};
ghost use Rattle.name_remarks.specs.Bindings.{nothing, IsTakenIn, AreTakenIn};
ghost use Rattle.folder_of_locks.specs.Fronts.{IsUnheld, IsTornBinding, AreKeptLines, IsLineFault, IsRemarkFault, AreRightLines, AreWrongLines};

use crate::faults::StartFault;
use crate::fronts::lines_end;
use held_locks::Locks;
use judged_files::{FolderJudge, JudgeError};
use name_remarks::{NameRemark, NotTaken, Recorded, read_name_remark};
use segment_files::split_line;
use std::alloc::Global;

/// Whether nobody holds the lock of a ring, or there is none.
fn is_unheld(locks: &Locks, ring: u32) -> bool
    ensures yes { result ≡ true → IsUnheld locks.now ring }
    ensures no { result ≡ false → ¬ IsUnheld locks.now ring }
{
    if ring >= locks.count() {
        return true;
    }
    match locks.holder(ring) {
        Some(_) => false,
        None => true,
    }
}

/// Whether a line binds a ring that nobody holds.
fn is_torn_binding(line: &[u8], locks: &Locks) -> bool
    ensures yes { result ≡ true → IsTornBinding locks.now line.now }
    ensures no { result ≡ false → ¬ IsTornBinding locks.now line.now }
{
    match read_name_remark(line) {
        Ok(Some(NameRemark::Bind { ring, .. })) => is_unheld(locks, ring),
        Ok(Some(NameRemark::Free { .. })) => false,
        Ok(Some(NameRemark::Top { .. })) => false,
        Ok(None) => false,
        Err(_) => false,
    }
}

/// Where the lines end that are kept of these: the last one is left out if its grant was torn off.
pub(crate) fn kept_end(lines: &[u8], locks: &Locks) -> usize
    requires { AreLines lines.now }
    ensures within { result ≤ length lines.now }
    ensures kept { AreKeptLines locks.now lines.now (take result lines.now) }
{
    if lines.is_empty() {
        return 0;
    }
    let start = lines_end(&lines[..lines.len() - 1]);
    if is_torn_binding(&lines[start..], locks) {
        start
    } else {
        lines.len()
    }
}

/// Judges these lines of the segment of this number, as those of the only file of a folder with these fixed locks. So a start
/// takes none that `check` refuses in that segment from then on.
pub(crate) fn judge_kept(
    alloc: Global,
    number: u64,
    lines: &[u8],
    fixed: &[String],
) -> Result<(), StartFault>
    ensures ok { OnOk result (AreRightLines (map string_bytes fixed.now) lines.now) }
    ensures err { IfErr result
        (λ e. AreWrongLines (map string_bytes fixed.now) number lines.now e) }
{
    match FolderJudge::new().with_file(alloc, fixed, lines, true) {
        Ok(_judged) => Ok(()),
        Err(JudgeError::OutOfMemory) => Err(StartFault::OutOfMemory),
        Err(why) => Err(StartFault::Judged(number, why)),
    }
}

/// Takes a line of the segment of this number in.
fn take_line(
    recorded: &mut Recorded,
    alloc: Global,
    number: u64,
    place: u64,
    line: &[u8],
) -> Result<(), StartFault>
    ensures ok { OnOk result (IsTakenIn line.now recorded.old recorded.new) }
    ensures err { IfErr result (λ e. IsLineFault number place line.now recorded.old e) }
{
    match recorded.take_in(alloc, line) {
        Ok(()) => Ok(()),
        Err(NotTaken::OutOfMemory) => Err(StartFault::OutOfMemory),
        Err(why) => Err(StartFault::Remark(number, place, why)),
    }
}

/// What the lines of the segment of this number record of the names of n rings.
pub(crate) fn recorded_of(
    alloc: Global,
    number: u64,
    lines: &[u8],
    rings: u32,
) -> Result<Recorded, StartFault>
    ensures ok { IfOk result (λ t. AreTakenIn (lines_in lines.now) (nothing rings) t) }
    ensures err { IfErr result (λ e. IsRemarkFault number (lines_in lines.now) (nothing rings) e) }
{
    let Ok(mut recorded) = Recorded::nothing(alloc, rings) else {
        return Err(StartFault::OutOfMemory);
    };
    let mut rest = lines;
    let mut place: u64 = 0;
    while !rest.is_empty() {
        let (line, after) = split_line(rest);
        place += 1;
        match take_line(&mut recorded, alloc, number, place, line) {
            Ok(()) => {}
            Err(fault) => return Err(fault),
        }
        rest = after;
    }
    Ok(recorded)
}
