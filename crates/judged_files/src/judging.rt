//! The judge of a folder's files, one after the other.

ghost use Rattle.std.specs.Prelude.{◌≡◌, ◌≤◌, ◌||◌, List, false, true, length, map, Some, None, IsTrue, IfOk, IfErr, OnOk, string_bytes};
ghost use Rattle.name_check.specs.Entries.{Entry};
ghost use Rattle.name_check.specs.Judged.{AreSaid};
ghost use Rattle.name_check.specs.Kept.{IsNoted, unbegun};
ghost use Rattle.name_check.specs.declared.wrongs.Wrong.{Wrong};
ghost use Rattle.judged_files.specs.declared.faults.Cause.{Cause};
ghost use Rattle.judged_files.specs.declared.faults.JudgeError.{JudgeError};
ghost use Rattle.judged_files.specs.Lines.{is_done, whole_lines, LineSays, AreSaidBy};
ghost use Rattle.judged_files.specs.Judging.{is_passed, IsJudged, MayEnd, IsAccepted, IsLineRefused, AreLinesRefused, IsRefusedFile, IsUnaccepted};

use crate::begin::shows_pool;
use crate::faults::{Cause, JudgeError};
use crate::lines::{Unsaid, is_done, is_whole, line_says};
use crate::rings::begun_rings;
use crate::starts::started;
use name_check::{Judge, Refused};
use segment_files::split_line;
use std::alloc::Global;
use std::marker::Model;

/// A line of this number.
fn judge_line(
    judge: &mut Judge,
    alloc: Global,
    line: &[u8],
    done: bool,
    number: u64,
) -> Result<(), JudgeError>
    ensures ok { OnOk result ((e : Entry)
        × LineSays done line.now e × IsNoted judge.old e judge.new) }
    ensures err { IfErr result (λ e. IsLineRefused judge.old done line.now number e) }
{
    let says = match line_says(line, done) {
        Ok(says) => says,
        Err(Unsaid::Misspelled) => return Err(JudgeError::Line(number, Cause::Misspelled)),
        Err(Unsaid::OutOfMemory) => return Err(JudgeError::OutOfMemory),
    };
    match judge.line(alloc, says) {
        Ok(()) => Ok(()),
        Err(Refused::Wrong(wrong)) => Err(JudgeError::Line(number, Cause::Wrong(wrong))),
        Err(Refused::Memory) => Err(JudgeError::OutOfMemory),
    }
}

/// Whether the blocks of the rings have ended after a line.
fn is_ended(done: bool, line: &[u8]) -> bool
    ensures { result ≡ (done || is_done line.now) }
{
    done || is_done(line)
}

/// The lines of a file, one after the other; returns how many there are. A last one that was torn off is none.
fn judge_lines(judge: &mut Judge, alloc: Global, bytes: &[u8]) -> Result<u64, JudgeError>
    ensures count { IfOk result (λ n. n ≡ length (whole_lines bytes.now)) }
    ensures few { IfOk result (λ n. n ≤ length bytes.now) }
    ensures ok { OnOk result ((said : List Entry)
        × AreSaidBy false (whole_lines bytes.now) said × AreSaid judge.old said judge.new) }
    ensures err { IfErr result (λ e. AreLinesRefused judge.old bytes.now e) }
{
    let mut rest = bytes;
    let mut done = false;
    let mut count: u64 = 0;
    while !rest.is_empty() {
        let (line, after) = split_line(rest);
        rest = after;
        if !is_whole(line) {
            continue;
        }
        match judge_line(judge, alloc, line, done, count + 1) {
            Ok(()) => {}
            Err(error) => return Err(error),
        }
        count += 1;
        done = is_ended(done, line);
    }
    Ok(count)
}

/// The last file may not end before its beginning is whole: the line of this number is missing.
fn check_end(judge: &Judge, last: bool, number: u64) -> Result<(), JudgeError>
    ensures ok { OnOk result (last ≡ true → MayEnd (Some judge.now)) }
    ensures err { IfErr result (λ e. (w : Wrong)
        × (e ≡ JudgeError.Line number (Cause.Wrong w))
        × (last ≡ true)
        × (unbegun judge.now.due ≡ Some w)) }
{
    if !last {
        return Ok(());
    }
    match judge.unbegun() {
        None => Ok(()),
        Some(wrong) => Err(JudgeError::Line(number, Cause::Wrong(wrong))),
    }
}

/// A file that is not passed over.
fn judged(
    alloc: Global,
    old: Option<Judge>,
    fixed: &[String],
    bytes: &[u8],
    last: bool,
) -> Result<Judge, JudgeError>
    ensures ok { IfOk result (λ s. IsJudged (map string_bytes fixed.now) old bytes.now s) }
    ensures end { IfOk result (λ s. last ≡ true → MayEnd (Some s)) }
    ensures err { IfErr result
        (λ e. IsRefusedFile (map string_bytes fixed.now) old bytes.now last e) }
{
    let rings = match begun_rings(alloc, bytes) {
        Ok(rings) => rings,
        Err(error) => return Err(error),
    };
    let mut judge = match started(alloc, old, fixed, &rings) {
        Ok(judge) => judge,
        Err(error) => return Err(error),
    };
    let count = match judge_lines(&mut judge, alloc, bytes) {
        Ok(count) => count,
        Err(error) => return Err(error),
    };
    match check_end(&judge, last, count + 1) {
        Ok(()) => Ok(judge),
        Err(error) => Err(error),
    }
}

/// Whether a file is from before the folder had a pool, after these fixed locks.
fn is_passed(fixed: &[String], old: &Option<Judge>, bytes: &[u8]) -> bool
    ensures { result ≡ is_passed (length (map string_bytes fixed.now)) old.now bytes.now }
{
    match old {
        Some(_) => false,
        None => !shows_pool(bytes, fixed.len()),
    }
}

/// The judge of the files of a folder so far. Contracts see what is known after them, if one was judged.
#[derive(Drop)]
pub struct FolderJudge {
    judge: Option<Judge>,
}

impl Model for FolderJudge {
    ghost use Rattle.std.specs.Prelude.{Option};
    ghost use Rattle.name_check.specs.Entries.{Judged};

    ghost Value = { Option Judged };

    ghost view = { λ f. f.judge };
}

impl FolderJudge {
    /// No file yet.
    pub fn new() -> FolderJudge
        ensures { result ≡ None }
    {
        FolderJudge { judge: None }
    }

    /// The same with the next file of a folder with these fixed locks, which may be the last one. The files before the first one that
    /// shows that the folder has a pool are passed over: they are from before it had one.
    ///
    /// # Errors
    ///
    /// `Line` with the first line that is wrong, `NoHold`, `Segment`, `OutOfMemory`.
    pub fn with_file(
        self,
        alloc: Global,
        fixed: &[String],
        bytes: &[u8],
        last: bool,
    ) -> Result<FolderJudge, JudgeError>
        ensures ok { IfOk result
            (λ new. IsAccepted (map string_bytes fixed.now) self bytes.now new) }
        ensures end { IfOk result (λ new. last ≡ true → MayEnd new) }
        ensures err { IfErr result
            (λ e. IsUnaccepted (map string_bytes fixed.now) self bytes.now last e) }
    {
        let old = self.judge;
        if is_passed(fixed, &old, bytes) {
            return Ok(FolderJudge { judge: None });
        }
        match judged(alloc, old, fixed, bytes, last) {
            Ok(judge) => Ok(FolderJudge { judge: Some(judge) }),
            Err(error) => Err(error),
        }
    }
}
