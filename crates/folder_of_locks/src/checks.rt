//! Which locks may be in one list, and whether one list continues another.

ghost use Rattle.std.specs.Prelude.{◌≡◌, ◌≢◌, ◌⊎◌, ◌<◌, ◌++◌, List, length, map, slice_get, Some, IfOk, IfErr, OnOk, IfSome, IsNone, true, false};
ghost use Rattle.folder_of_locks.specs.Lists.{Listed, listed, size_of, names_of, AreLocks, IsLocksFault};
ghost use Rattle.std.specs.List.{All, IsDistinct};
ghost use Rattle.std.specs.Str.{bytes_eq};
ghost use Rattle.ring_state.specs.Sizes.{IsSize};
ghost use Rattle.folder_of_locks.specs.Pools.{pooled, HasOtherPool, ContinuesPooled, IsOtherAt};

use crate::locks::{ListError, ListedLock};
use crate::pools::FolderList;
use held_locks::LOCK_LIMIT;
use ring_state::Params;
use std::alloc::Global;
use std::collections::HashMap;

/// Checks the sizes.
fn check_sizes(locks: &[ListedLock<'_>]) -> Result<(), ListError>
    ensures ok { OnOk result (All IsSize (map size_of (map listed locks.now))) }
    ensures err { IfErr result (λ e. IsLocksFault (map listed locks.now) e) }
{
    for (place, lock) in locks.iter().enumerate() {
        match Params::new(lock.n, lock.k) {
            Ok(_) => {}
            Err(cause) => return Err(ListError::Size(place, cause)),
        }
    }
    Ok(())
}

/// Checks that no two have one name.
fn check_names(alloc: Global, locks: &[ListedLock<'_>]) -> Result<(), ListError>
    ensures ok { OnOk result (IsDistinct bytes_eq (names_of (map listed locks.now))) }
    ensures err { IfErr result (λ e. IsLocksFault (map listed locks.now) e) }
{
    let mut places = HashMap::new(alloc);
    for (place, lock) in locks.iter().enumerate() {
        match places.insert(lock.name, place) {
            Ok(None) => {}
            Ok(Some(_)) => return Err(ListError::Twice(place)),
            Err(_) => return Err(ListError::OutOfMemory),
        }
    }
    Ok(())
}

/// Checks that these may be the locks of one list.
pub(crate) fn check_locks(alloc: Global, locks: &[ListedLock<'_>]) -> Result<(), ListError>
    requires { 0 < length locks.now }
    ensures ok { OnOk result (AreLocks (map listed locks.now)) }
    ensures err { IfErr result (λ e. IsLocksFault (map listed locks.now) e) }
{
    if locks.len() > LOCK_LIMIT {
        return Err(ListError::Many);
    }
    match check_sizes(locks) {
        Ok(()) => check_names(alloc, locks),
        Err(error) => Err(error),
    }
}

/// Whether two locks have one name and one size.
fn is_same(one: &ListedLock<'_>, other: &ListedLock<'_>) -> bool
    ensures yes { result ≡ true → listed one.now ≡ listed other.now }
    ensures no { result ≡ false → listed one.now ≢ listed other.now }
{
    one.name == other.name && one.n == other.n && one.k == other.k
}

/// The first place of a list at which the other has no lock, or another one.
pub fn first_difference(old: &[ListedLock<'_>], new: &[ListedLock<'_>]) -> Option<usize>
    ensures same { IsNone result → (more : List Listed) × (map listed new.now ≡ map listed old.now ++ more) }
    ensures other { IfSome result (λ i. (i < length old.now)
        × (slice_get (map listed new.now) i ≢ slice_get (map listed old.now) i)) }
{
    for (place, lock) in old.iter().enumerate() {
        if place >= new.len() || !is_same(lock, &new[place]) {
            return Some(place);
        }
    }
    None
}

/// Whether two sizes are the same.
fn is_same_size(one: Params, other: Params) -> bool
    ensures yes { result ≡ true → one ≡ other }
    ensures no { result ≡ false → one ≢ other }
{
    one.n() == other.n() && one.k() == other.k()
}

/// Whether a list has this pool after this number of locks.
fn has_pool(list: &FolderList<'_>, place: usize, size: Params) -> bool
    ensures yes { result ≡ true → (length list.now.locks.items ≡ place) × (list.now.pool ≡ Some size) }
    ensures no { result ≡ false
        → (length list.now.locks.items ≢ place) ⊎ (list.now.pool ≢ Some size) }
{
    match list.pool {
        Some(other) => list.locks.len() == place && is_same_size(other, size),
        None => false,
    }
}

/// The first place of a list at which the other has no lock, or another one; after its locks the place of its pool, if the other
/// does not have the same one there.
pub fn first_change(old: &FolderList<'_>, new: &FolderList<'_>) -> Option<usize>
    ensures same { IsNone result → ContinuesPooled (pooled old.now) (pooled new.now) }
    ensures other { IfSome result (λ i. IsOtherAt (pooled old.now) (pooled new.now) i) }
{
    if let Some(place) = first_difference(&old.locks, &new.locks) {
        return Some(place);
    }
    let place = old.locks.len();
    match old.pool {
        Some(size) => {
            if has_pool(new, place, size) {
                None
            } else {
                Some(place)
            }
        }
        None => None,
    }
}
