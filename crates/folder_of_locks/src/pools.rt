//! Lists of locks with a pool of rings after them.

ghost use Rattle.std.specs.Prelude.{◌≡◌, ◌≢◌, ◌∷◌, ◌++◌, [], ℕ, ◌<◌, ◌^◌, map, List, MatchOption, IfOk, IfErr, OnOk};
ghost use Rattle.ring_state.specs.Sizes.{Size};
ghost use Rattle.folder_of_locks.specs.Lists.{listed, AreTexts, IsLocksFault};
ghost use Rattle.folder_of_locks.specs.ListSteps.{IsMark, IsPlain, AreMarks, IsReadFault};
ghost use Rattle.folder_of_locks.specs.Pools.{Pooled, pooled, IsPoolSize, AreFixed, IsPooledWord, IsPooledFile, IsPooledWordFault, IsPooledFileFault};
ghost use Rattle.folder_of_locks.specs.PoolSteps.{IsAround, IsNotAround};

use crate::checks::check_locks;
use crate::list_reading::{Read, read_ended, read_list_file, read_list_word};
use crate::locks::{ListError, ListedLock};
use crate::sizes::{cut, read_size};
use ring_state::Params;
use std::alloc::Global;

/// How many machines a ring of the pool has, and how many values each of them can hold, if a list does not say it.
const USUAL_SIZE: u32 = 2;

/// The list of the locks of a folder.
#[derive(Drop)]
pub struct FolderList<'t> {
    /// Those that have a name for ever.
    pub locks: Vec<ListedLock<'t>>,
    /// The size of the rings of the pool, if it has one.
    pub pool: Option<Params>,
}

/// The numbers of machines and values, by what comes after the star of a pool.
fn read_pool_size(text: &str, mark: char) -> Option<(u32, u32)>
    requires { IsMark mark }
    ensures { MatchOption result
        ((n k : ℕ) → n < 2 ^ 32 → k < 2 ^ 32 → ¬ IsPoolSize mark text.now n k)
        (λ x. IsPoolSize mark text.now x.0 x.1) }
{
    if text.is_empty() {
        return Some((USUAL_SIZE, USUAL_SIZE));
    }
    let (before, after) = cut(text, mark);
    let Some(after) = after else {
        return None;
    };
    if !before.is_empty() {
        return None;
    }
    read_size(Some(after), mark)
}

/// The locks of a text, each of which has its end.
fn read_front<'t>(
    alloc: Global,
    front: &'t str,
    end: char,
    mark: char,
) -> Result<Vec<ListedLock<'t>>, ListError>
    requires { AreMarks end mark }
    ensures ok { IfOk result (λ locks. AreTexts end mark front.now (map listed locks.items)) }
    ensures err { IfErr result (λ e. IsReadFault end mark front.now e) }
{
    let Read { locks, rest } = match read_ended(alloc, front, end, mark) {
        Ok(read) => read,
        Err(error) => return Err(error),
    };
    if !rest.is_empty() {
        return Err(ListError::Syntax);
    }
    Ok(locks)
}

/// Checks that these may be the fixed locks of a list with a pool.
fn check_fixed(alloc: Global, locks: &[ListedLock<'_>]) -> Result<(), ListError>
    ensures ok { OnOk result (AreFixed (map listed locks.now)) }
    ensures err { IfErr result (λ e. IsLocksFault (map listed locks.now) e) }
{
    if locks.is_empty() {
        return Ok(());
    }
    match check_locks(alloc, locks) {
        Ok(()) => Ok(()),
        Err(error) => Err(error),
    }
}

/// The list with these texts before and after the star of its pool.
fn read_around<'t>(
    alloc: Global,
    front: &'t str,
    size: &str,
    end: char,
    mark: char,
) -> Result<FolderList<'t>, ListError>
    requires { AreMarks end mark }
    ensures ok { IfOk result (λ list. IsAround end mark front.now size.now (pooled list)) }
    ensures err { IfErr result (λ e. IsNotAround end mark front.now size.now e) }
{
    let Some((n, k)) = read_pool_size(size, mark) else {
        return Err(ListError::Syntax);
    };
    let locks = match read_front(alloc, front, end, mark) {
        Ok(locks) => locks,
        Err(error) => return Err(error),
    };
    match check_fixed(alloc, &locks) {
        Ok(()) => {}
        Err(error) => return Err(error),
    }
    match Params::new(n, k) {
        Ok(params) => Ok(FolderList {
            locks,
            pool: Some(params),
        }),
        Err(cause) => Err(ListError::Size(locks.len(), cause)),
    }
}

/// The list of a word, `[NAME[:N[:K]],..][*[:N[:K]]]`: a lock for each name, as in [`read_list_word`], and then a pool, if there is
/// a star. Its rings have 2 machines if N is left out, and as many values as machines if K is.
///
/// # Errors
///
/// `Syntax` if it is the text of no list; else the first that applies of `Many`, `Size` and `Twice` to the locks; then `Size` for
/// the pool, at the place after theirs. `OutOfMemory`.
pub fn read_folder_word(alloc: Global, word: &str) -> Result<FolderList<'_>, ListError>
    ensures ok { IfOk result (λ list. IsPooledWord word.now (pooled list)) }
    ensures err { IfErr result (λ e. IsPooledWordFault word.now e) }
{
    let (front, after) = cut(word, '*');
    match after {
        Some(size) => match read_around(alloc, front, size, ',', ':') {
            Ok(list) => Ok(list),
            Err(error) => Err(error),
        },
        None => match read_list_word(alloc, word) {
            Ok(locks) => Ok(FolderList { locks, pool: None }),
            Err(error) => Err(error),
        },
    }
}

/// What comes after the star in a file's text, up to the end of its line, which is the last one.
fn pool_line(after: &str) -> Option<&str>
    ensures { MatchOption result
        ((text : List ℕ) → IsPlain 10 text → after.now ≢ text ++ 10 ∷ [])
        (λ text. after.now ≡ text.now ++ 10 ∷ []) }
{
    let (line, rest) = cut(after, '\n');
    let Some(rest) = rest else {
        return None;
    };
    if !rest.is_empty() {
        return None;
    }
    Some(line)
}

/// The list of a file's text: a line `NAME N K` for each lock, and then a line `* N K` for the pool, if there is one. Numbers may be
/// left out as in a word.
///
/// # Errors
///
/// As of [`read_folder_word`].
pub fn read_folder_file(alloc: Global, text: &str) -> Result<FolderList<'_>, ListError>
    ensures ok { IfOk result (λ list. IsPooledFile text.now (pooled list)) }
    ensures err { IfErr result (λ e. IsPooledFileFault text.now e) }
{
    let (front, after) = cut(text, '*');
    let Some(after) = after else {
        return match read_list_file(alloc, text) {
            Ok(locks) => Ok(FolderList { locks, pool: None }),
            Err(error) => Err(error),
        };
    };
    let Some(size) = pool_line(after) else {
        return Err(ListError::Syntax);
    };
    match read_around(alloc, front, size, '\n', ' ') {
        Ok(list) => Ok(list),
        Err(error) => Err(error),
    }
}
