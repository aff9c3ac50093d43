//! Reads lists of locks.

ghost use Rattle.std.specs.Prelude.{◌≡◌, ℕ, ◌∷◌, ◌++◌, [], map, List, None, Some, Option, MatchOption, IfOk, IfErr, OnOk, string_bytes};
ghost use Rattle.std.specs.Option.{option_map};
ghost use Rattle.folder_of_locks.specs.Lists.{Listed, listed, IsLockText, AreTexts, IsLockList, IsLockFile, IsTextsFault, IsWordFault, IsFileFault};
ghost use Rattle.folder_of_locks.specs.ListSteps.{IsMark, AreMarks, IsPieceFault, IsReadFault, HasReadAll};

use crate::checks::check_locks;
use crate::locks::{ListError, ListedLock};
use crate::sizes::{cut, read_size};
use lock_protocol::is_name;
use std::alloc::Global;

/// The lock whose text this is, by the mark between its parts.
fn read_lock(text: &str, mark: char) -> Option<ListedLock<'_>>
    requires { IsMark mark }
    ensures { MatchOption result ((l : Listed) → ¬ IsLockText mark text.now l)
        (λ l. IsLockText mark text.now (listed l)) }
{
    let (name, after) = cut(text, mark);
    let Some((n, k)) = read_size(after, mark) else {
        return None;
    };
    if !is_name(name.as_bytes()) {
        return None;
    }
    Some(ListedLock { name, n, k })
}

/// Adds the lock whose text this is.
fn add_lock<'t>(locks: &mut Vec<ListedLock<'t>>, text: &'t str, mark: char) -> Result<(), ListError>
    requires { IsMark mark }
    ensures ok { OnOk result ((l : Listed)
        × IsLockText mark text.now l
        × (map listed locks.new.items ≡ map listed locks.old.items ++ l ∷ [])) }
    ensures err { IfErr result (λ e. IsPieceFault mark text.now e) }
{
    let Some(lock) = read_lock(text, mark) else {
        return Err(ListError::Syntax);
    };
    if locks.push(lock).is_err() {
        return Err(ListError::OutOfMemory);
    }
    Ok(())
}

/// A text, as far as it was read.
pub(crate) struct Read<'t> {
    pub(crate) locks: Vec<ListedLock<'t>>,
    /// What comes after the last end.
    pub(crate) rest: &'t str,
}

/// Reads the locks of a text, each up to its end.
pub(crate) fn read_ended<'t>(
    alloc: Global,
    text: &'t str,
    end: char,
    mark: char,
) -> Result<Read<'t>, ListError>
    requires { AreMarks end mark }
    ensures ok { IfOk result
        (λ read. HasReadAll end mark text.now (map listed read.locks.items) read.rest.now) }
    ensures err { IfErr result (λ e. (tail : List ℕ) → IsReadFault end mark (text.now ++ tail) e) }
{
    let mut locks = Vec::new(alloc);
    let mut rest = text;
    while let Some((piece, more)) = rest.split_once(end) {
        match add_lock(&mut locks, piece, mark) {
            Ok(()) => {}
            Err(error) => return Err(error),
        }
        rest = more;
    }
    Ok(Read { locks, rest })
}

/// The locks of a word, `NAME[:N[:K]],..`: 8 machines if N is left out, and as many values as machines if K is.
///
/// # Errors
///
/// `Syntax` if it is the text of no locks; else the first that applies of `Many`, `Size` and `Twice`, with the first place that it
/// holds of. `OutOfMemory`.
pub fn read_list_word(alloc: Global, word: &str) -> Result<Vec<ListedLock<'_>>, ListError>
    ensures ok { IfOk result (λ locks. IsLockList word.now (map listed locks.items)) }
    ensures err { IfErr result (λ e. IsWordFault word.now e) }
{
    let Read { mut locks, rest } = match read_ended(alloc, word, ',', ':') {
        Ok(read) => read,
        Err(error) => return Err(error),
    };
    match add_lock(&mut locks, rest, ':') {
        Ok(()) => {}
        Err(error) => return Err(error),
    }
    match check_locks(alloc, &locks) {
        Ok(()) => Ok(locks),
        Err(error) => Err(error),
    }
}

/// The locks of a file's text: a line `NAME N K` for each, of which K, or both numbers, may be left out as in a word.
///
/// # Errors
///
/// As of [`read_list_word`].
pub fn read_list_file(alloc: Global, text: &str) -> Result<Vec<ListedLock<'_>>, ListError>
    ensures ok { IfOk result (λ locks. IsLockFile text.now (map listed locks.items)) }
    ensures err { IfErr result (λ e. IsFileFault text.now e) }
{
    let Read { locks, rest } = match read_ended(alloc, text, '\n', ' ') {
        Ok(read) => read,
        Err(error) => return Err(error),
    };
    if !rest.is_empty() || locks.is_empty() {
        return Err(ListError::Syntax);
    }
    match check_locks(alloc, &locks) {
        Ok(()) => Ok(locks),
        Err(error) => Err(error),
    }
}
