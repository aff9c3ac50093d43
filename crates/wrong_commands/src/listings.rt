//! A wrong list of a folder.

ghost use Rattle.std.specs.Prelude.{IsSome, IfSome};
ghost use Rattle.disks.specs.Folders.{Lists};

use disks::{Disk, FolderEntry};
use std::alloc::Global;

/// The list of a folder has every name in it: here it has none, though there is one.
pub fn folder_that_looks_empty<D: Disk>(
    alloc: Global,
    disk: &D,
    folder: &str,
) -> Option<Vec<FolderEntry>>
    requires { IsSome (D.holds disk.now) }
    ensures wrong { IfSome result
        (λ entries. Lists (D.holds disk.now) folder.now entries.items → ⊥) }
{
    match disk.list(folder) {
        Ok(entries) if !entries.is_empty() => Some(Vec::new(alloc)),
        _ => None,
    }
}
