//! What is known before the first line of a file.

ghost use Rattle.std.specs.Prelude.{◌≡◌, map, Some, None, IfOk, IfErr, string_bytes};
ghost use Rattle.judged_files.specs.declared.faults.Cause.{Cause};
ghost use Rattle.judged_files.specs.declared.faults.JudgeError.{JudgeError};
ghost use Rattle.judged_files.specs.Judging.{Starts, IsNoStart};

use crate::faults::{Cause, JudgeError};
use name_check::{Judge, NotJudged, Refused, Ring, Wrong};
use std::alloc::Global;

/// Of the first file that is judged.
fn first(alloc: Global, fixed: &[String], rings: &[Ring]) -> Result<Judge, JudgeError>
    ensures ok { IfOk result (λ s. Starts (map string_bytes fixed.now) None rings.now s) }
    ensures err { IfErr result (λ e. IsNoStart (map string_bytes fixed.now) None rings.now e) }
{
    match Judge::begin(alloc, fixed, rings) {
        Ok(judge) => Ok(judge),
        Err(NotJudged::Rings) => Err(JudgeError::Line(1, Cause::FewRings)),
        Err(NotJudged::Twice) => Err(JudgeError::Line(1, Cause::Twice)),
        Err(NotJudged::Full) => Err(JudgeError::Line(1, Cause::Wrong(Wrong::Full))),
        Err(NotJudged::Memory) => Err(JudgeError::OutOfMemory),
    }
}

/// The judge, if its rings are these.
fn with_rings(judge: Judge, rings: &[Ring]) -> Result<Judge, JudgeError>
    ensures ok { IfOk result (λ s. (s ≡ judge) × (judge.rings ≡ rings.now)) }
    ensures err { IfErr result (λ e. (e ≡ JudgeError.Line 1 Cause.OtherRings)
        × (¬ (judge.rings ≡ rings.now))) }
{
    if judge.has(rings) {
        Ok(judge)
    } else {
        Err(JudgeError::Line(1, Cause::OtherRings))
    }
}

/// Of a file after others.
fn later(judge: Judge, fixed: &[String], rings: &[Ring]) -> Result<Judge, JudgeError>
    ensures ok { IfOk result
        (λ s. Starts (map string_bytes fixed.now) (Some judge) rings.now s) }
    ensures err { IfErr result
        (λ e. IsNoStart (map string_bytes fixed.now) (Some judge) rings.now e) }
{
    let _ = fixed; // says: of which folder
    let judge = match judge.next(rings.len()) {
        Ok(judge) => judge,
        Err(Refused::Wrong(wrong)) => return Err(JudgeError::Line(1, Cause::Wrong(wrong))),
        Err(Refused::Memory) => return Err(JudgeError::OutOfMemory),
    };
    match with_rings(judge, rings) {
        Ok(judge) => Ok(judge),
        Err(error) => Err(error),
    }
}

/// What is known before the first line of a file with these rings, after what was known before it.
///
/// # Errors
///
/// `Line`, the first one, and `OutOfMemory`.
pub(crate) fn started(
    alloc: Global,
    old: Option<Judge>,
    fixed: &[String],
    rings: &[Ring],
) -> Result<Judge, JudgeError>
    ensures ok { IfOk result (λ s. Starts (map string_bytes fixed.now) old rings.now s) }
    ensures err { IfErr result (λ e. IsNoStart (map string_bytes fixed.now) old rings.now e) }
{
    match old {
        None => first(alloc, fixed, rings),
        Some(judge) => later(judge, fixed, rings),
    }
}
