//! The recovery of a journal up to its bad line.

ghost use Rattle.std.specs.Prelude.{◌≡◌, ◌≤◌, ◌-◌, ◌↔◌, Some, None, IsTrue, length, IfSome, ◌<◌};
ghost use Rattle.text_lines.specs.Texts.{line_of};
ghost use Rattle.journal.specs.Salvaging.{named_line, lost_as, first_as, IsLineStart, IsRightSalvage};

use crate::errors::RecoverError;
use crate::recover::recover_journal;
use saved_history::Saved;
use std::alloc::Global;
use text_lines::line_at;

/// What is saved of a journal.
#[derive(Drop)]
pub struct Salvaged {
    /// The history before the bad line, or all of it.
    pub saved: Saved,
    /// How many bytes it is recovered of; those after them are left out.
    pub kept: usize,
    /// The refusal that names the bad line where those begin; none if nothing is left out.
    pub bad: Option<RecoverError>,
}

/// The line that a refusal names.
fn named_line(error: &RecoverError) -> Option<u64>
    ensures { result ≡ named_line error.now }
{
    match *error {
        RecoverError::Syntax(line) => Some(line),
        RecoverError::Bad { line, .. } => Some(line),
        RecoverError::Truncated => None,
        RecoverError::OutOfMemory => None,
    }
}

/// The place after the end of the line before this one.
fn line_start(bytes: &[u8], line: u64) -> usize
    ensures { result ≤ length bytes.now }
{
    let mut at: u64 = 1;
    for (i, b) in bytes.iter().enumerate() {
        if at >= line {
            return i;
        }
        if *b == b'\n' {
            at = at.saturating_add(1);
        }
    }
    bytes.len()
}

/// Whether a line begins at a place.
fn is_line_start(bytes: &[u8], place: usize) -> bool
    requires { place ≤ length bytes.now }
    ensures { IsTrue result → IsLineStart bytes.now place }
{
    place == 0 || bytes[place - 1] == b'\n'
}

/// The place where a bad line begins, before this one.
fn bad_start(bytes: &[u8], line: u64, before: usize) -> Option<usize>
    requires { before ≤ length bytes.now }
    ensures { IfSome result (λ start. (start < before)
        × IsLineStart bytes.now start × (line_of bytes.now start ≡ line)) }
{
    let start = line_start(bytes, line);
    if start < before && is_line_start(bytes, start) && line_at(bytes, start) == line {
        Some(start)
    } else {
        None
    }
}

/// The refusal of bytes of which nothing is saved: the first one, memory aside.
fn lost(first: Option<RecoverError>, error: RecoverError) -> RecoverError
    ensures { result ≡ lost_as first error }
{
    match (error, first) {
        (RecoverError::OutOfMemory, _) => RecoverError::OutOfMemory,
        (error, None) => error,
        (_, Some(first)) => first,
    }
}

/// The first of some refusals, with one more.
fn first_of(first: Option<RecoverError>, error: RecoverError) -> RecoverError
    ensures { result ≡ first_as first error }
{
    match first {
        None => error,
        Some(first) => first,
    }
}

/// Returns the history of the bytes of a journal before its bad line, if it has one; a journal without one is recovered as
/// [`recover_journal`] does.
///
/// It takes time as that does, a few times if a line is bad.
///
/// # Errors
///
/// The refusal of `recover_journal` if the bad line is in the start of the journal, or the bytes end there; `OutOfMemory`.
pub fn salvage_journal(alloc: Global, bytes: &[u8]) -> Result<Salvaged, RecoverError>
    ensures { IsRightSalvage bytes.now result }
{
    let mut kept = bytes.len();
    let mut bad: Option<RecoverError> = None;
    let mut first: Option<RecoverError> = None;
    'cuts: loop {
        let error = match recover_journal(alloc, &bytes[..kept]) {
            Ok(saved) => return Ok(Salvaged { saved, kept, bad }),
            Err(error) => error,
        };
        let Some(line) = named_line(&error) else {
            return Err(lost(first, error));
        };
        let Some(start) = bad_start(bytes, line, kept) else {
            // the line that is named is among the bytes, so this does not come
            return Err(RecoverError::OutOfMemory);
        };
        first = Some(first_of(first, error));
        kept = start;
        bad = Some(error);
    }
}
