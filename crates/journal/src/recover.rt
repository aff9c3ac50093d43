//! The recovery of a journal that was cut anywhere.

ghost use Rattle.std.specs.Prelude.{◌≡◌, ℕ, ◌+◌, ◌<◌, ◌^◌, List, length, vec_len, Ok, Some, IfOk};
ghost use Rattle.std.specs.List.{All};
ghost use Rattle.saved_history.specs.Content.{Content, content};
ghost use Rattle.ring_check.specs.Lines.{lines};
ghost use Rattle.journal.specs.declared.calls.JournalLine.{JournalLine};
ghost use Rattle.journal.specs.Reading.{head_at};
ghost use Rattle.journal.specs.ContentAfter.{content_after};
ghost use Rattle.journal.specs.Recovery.{IsWrongCall, IsRightRecovery};
ghost use Rattle.journal.specs.Judging.{refused_as, IsBegun, IsJudged, IsFaultOf, AreCallsOf};

use crate::calls::JournalLine;
use crate::errors::RecoverError;
use crate::histories::history;
use crate::read::{NoRoom, calls, head};
use ring_check::{CheckError, Kind, check_saved};
use saved_history::Saved;
use std::alloc::Global;
use text_lines::{ReadError, line_at, refusal};

/// The name of a reader's refusal here.
fn recover_error(error: ReadError) -> RecoverError
    ensures { result ≡ refused_as error }
{
    match error {
        ReadError::Syntax(line) => RecoverError::Syntax(line),
        ReadError::Truncated => RecoverError::Truncated,
        ReadError::OutOfMemory => RecoverError::OutOfMemory,
    }
}

/// Reads the legal saved rings that the journal began with; returns them with the bytes after them.
fn legal_beginning(alloc: Global, bytes: &[u8]) -> Result<(Saved, &[u8]), RecoverError>
    ensures { IsBegun (λ x. (content x.0, x.1.now)) bytes.now result }
{
    let (began, rest) = match head(alloc, bytes) {
        Ok(found) => found,
        Err(stop) => return Err(recover_error(refusal(bytes, stop))),
    };
    match check_saved(alloc, &began) {
        Ok(_) => Ok((began, rest)),
        // the journal's own first line is before the lines that were checked
        Err(CheckError::Bad { line, kind }) => Err(RecoverError::Bad {
            line: line + 1,
            kind,
        }),
        Err(CheckError::OutOfMemory) => Err(RecoverError::OutOfMemory),
    }
}

/// Returns the history of saved rings and the calls after them, if it is legal.
fn legal_history(alloc: Global, began: Saved, calls: &[JournalLine]) -> Result<Saved, CheckError>
    requires rings { All (λ (r : JournalLine). r.ring < vec_len began.rings) calls.now }
    requires room { length (lines (content began)) + length calls.now + 1 < 2 ^ 64 }
    ensures { IsJudged (content began) calls.now result }
{
    let Ok(saved) = history(alloc, began, calls) else {
        return Err(CheckError::OutOfMemory);
    };
    match check_saved(alloc, &saved) {
        Ok(_) => Ok(saved),
        Err(error) => Err(error),
    }
}

/// Finds the fault of the history that the first calls of a journal record. It reads the journal's start again.
fn fault_of(alloc: Global, bytes: &[u8], calls: &[JournalLine]) -> Result<Option<Kind>, NoRoom>
    requires { AreCallsOf bytes.now calls.now }
    ensures { IfOk result (λ fault. (began : Content) (rest : List ℕ)
        → head_at bytes.now ≡ Ok (began, rest) → IsFaultOf (content_after began calls.now) fault) }
{
    let Ok((began, _)) = head(alloc, bytes) else {
        return Err(NoRoom);
    };
    let Err(error) = legal_history(alloc, began, calls) else {
        return Ok(None);
    };
    match error {
        CheckError::Bad { kind, .. } => Ok(Some(kind)),
        CheckError::OutOfMemory => Err(NoRoom),
    }
}

/// Finds a call with which the recorded history has a fault, while those before it record a legal one: by halves.
fn wrong_call(
    alloc: Global,
    bytes: &[u8],
    calls: &[JournalLine],
    kind: Kind,
) -> Result<(usize, Kind), NoRoom>
    requires calls { AreCallsOf bytes.now calls.now }
    requires some { 0 < length calls.now }
    requires wrong { (began : Content) (rest : List ℕ) → head_at bytes.now ≡ Ok (began, rest)
        → IsFaultOf (content_after began calls.now) (Some kind) }
    ensures { IfOk result (λ x. (began : Content) (rest : List ℕ)
        → head_at bytes.now ≡ Ok (began, rest) → IsWrongCall began calls.now x.0 x.1) }
{
    let mut legal: usize = 0;
    let mut wrong = calls.len();
    let mut kind = kind;
    while wrong - legal > 1 {
        let middle = legal + (wrong - legal) / 2;
        match fault_of(alloc, bytes, &calls[..middle])? {
            None => legal = middle,
            Some(fault) => {
                wrong = middle;
                kind = fault;
            }
        }
    }
    Ok((legal, kind))
}

/// Returns the longest legal history of the bytes of a journal that was cut anywhere: the one that its whole lines record,
/// without the members of a group that is not whole.
///
/// It takes time in proportion to the length of the text, as a check does; if a call is wrong, a few checks more.
///
/// # Errors
///
/// `Truncated` if the bytes end within the journal's start. `Syntax` with a line, from 1, that ends, and that no
/// journal has there. `Bad` if the journal's start is not legal, with its first bad line and the fault of
/// it, and if a call is wrong: the history of the calls before its line is legal, and with it is not. A fault
/// within a group is reported at its last line, where the group begins to count, or at the line that breaks it off.
/// `OutOfMemory` where there was no room.
pub fn recover_journal(alloc: Global, bytes: &[u8]) -> Result<Saved, RecoverError>
    ensures { IsRightRecovery bytes.now result }
{
    let (began, rest) = match legal_beginning(alloc, bytes) {
        Ok(found) => found,
        Err(error) => return Err(error),
    };
    let first_line = line_at(bytes, bytes.len() - rest.len());
    let Ok((calls, tail)) = calls(alloc, began.version, began.rings.len(), rest) else {
        return Err(RecoverError::OutOfMemory);
    };
    if tail.contains(&b'\n') {
        return Err(RecoverError::Syntax(first_line + calls.len() as u64));
    }
    match legal_history(alloc, began, &calls) {
        Ok(saved) => Ok(saved),
        Err(CheckError::OutOfMemory) => Err(RecoverError::OutOfMemory),
        Err(CheckError::Bad { kind, .. }) => match wrong_call(alloc, bytes, &calls, kind) {
            Ok((call, kind)) => Err(RecoverError::Bad {
                line: first_line + call as u64,
                kind,
            }),
            Err(NoRoom) => Err(RecoverError::OutOfMemory),
        },
    }
}
