//! Files that are replaced, made, opened or removed wrongly.

ghost use Rattle.std.specs.Prelude.{◌≡◌, ◌≢◌, IsSome, IfSome, None, Some, IfOk, OnOk};
ghost use Rattle.disks.specs.Held.{bytes_of, Creates, Discards, Replaces, IsHeld};

use disks::{Contents, Disk, ReplaceFault, replace};
use std::alloc::Global;
use std::io::{self, ErrorKind};

/// The file holds the bytes that it was to hold: it holds others.
pub fn file_with_other_bytes<D: Disk, C: Contents>(
    alloc: Global,
    disk: &mut D,
    name: &str,
    _contents: &C,
    other: &C,
) -> Result<(), ReplaceFault>
    requires ready { C.ready other.now }
    requires known { IsSome (D.holds disk.old) }
    requires apart { C.bytes other.now ≢ C.bytes _contents.now }
    ensures wrong { OnOk result (Replaces (D.holds disk.old) (D.holds disk.new) name.now
        (Some (C.bytes _contents.now)) → ⊥) }
{
    match replace(alloc, disk, name, other) {
        Ok(()) => Ok(()),
        Err(fault) => Err(fault),
    }
}

/// The file holds all bytes that it was to hold: it is reported to do so although a write failed.
pub fn file_whose_write_failed<D: Disk, C: Contents>(
    alloc: Global,
    disk: &mut D,
    name: &str,
    contents: &C,
) -> Result<(), ReplaceFault>
    requires ready { C.ready contents.now }
    requires known { IsSome (D.holds disk.old) }
    requires others { IsHeld (D.holds disk.old) name.now (C.bytes contents.now) → ⊥ }
    ensures wrong { OnOk result (Replaces (D.holds disk.old) (D.holds disk.new) name.now
        (Some (C.bytes contents.now)) → ⊥) }
{
    match replace(alloc, disk, name, contents) {
        Err(ReplaceFault::Write) => Ok(()),
        Err(fault) => Err(fault),
        Ok(()) => Err(ReplaceFault::Finish),
    }
}

/// A file that is opened to be written at its end is there, and can be read: it is said that there is none.
pub fn grown_file_that_cannot_be_opened<D: Disk>(disk: &mut D, name: &str) -> io::Result<()>
where
    D::Grown: Drop,
    requires known { IsSome (D.holds disk.old) }
    ensures wrong { OnOk result (IfSome (D.holds disk.new)
        (λ held. bytes_of held name.now ≡ None) → ⊥) }
{
    let Ok(_) = disk.grow(name, false) else {
        return Err(io::Error::from(ErrorKind::NotFound));
    };
    Ok(())
}

/// An empty file is made where it is said to be: there is none.
pub fn empty_file_that_is_not_made<D: Disk>(_disk: &mut D, _name: &str) -> io::Result<bool>
    requires known { IsSome (D.holds _disk.old) }
    ensures wrong { IfOk result
        (λ made. Creates (D.holds _disk.old) (D.holds _disk.new) _name.now made → ⊥) }
{
    Ok(true)
}

/// An empty file is removed where it is said to be: it stays.
pub fn empty_file_that_is_not_removed<D: Disk>(_disk: &mut D, _name: &str) -> io::Result<bool>
    requires known { IsSome (D.holds _disk.old) }
    ensures wrong { IfOk result
        (λ gone. Discards (D.holds _disk.old) (D.holds _disk.new) _name.now gone → ⊥) }
{
    Ok(true)
}
