//! The names of the locks of a list.

ghost use Rattle.std.specs.Prelude.{◌≡◌, map, IfOk, IfErr};
ghost use Rattle.folder_of_locks.specs.Lists.{listed, names_of};

use crate::faults::StartFault;
use crate::locks::ListedLock;
use lock_protocol::LockNames;
use std::alloc::Global;

/// The table of the names of a list.
///
/// # Errors
///
/// Only `OutOfMemory`.
pub fn names_of(alloc: Global, list: &[ListedLock<'_>]) -> Result<LockNames, StartFault>
    ensures ok { IfOk result (λ names. names ≡ names_of (map listed list.now)) }
    ensures err { IfErr result (λ e. e ≡ StartFault.OutOfMemory) }
{
    let mut names = LockNames::none(alloc);
    for lock in list {
        names = match names.with(alloc, lock.name.as_bytes()) {
            Ok(more) => more,
            // what a list has are names, and no two are the same
            Err(_) => return Err(StartFault::OutOfMemory),
        };
    }
    Ok(names)
}
