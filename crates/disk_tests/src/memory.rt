//! Files in memory.

use disks::{Disk, MemoryDisk};
use std::alloc::Global;
use std::io::{self, ErrorKind, Read, Write};
use std::test::Fail;
use test_files::{bytes_of, make_folder, no_files, put};

#[test]
fn a_file_holds_what_was_finished_last(rt: HostRuntime) -> Result<(), Fail> {
    let mut disk = no_files(rt.alloc());
    for (name, bytes) in [("a", "one"), ("b", "two"), ("a", "three"), ("c", "")] {
        put(&mut disk, name, bytes.as_bytes())?;
    }
    for (name, bytes) in [("a", "three"), ("b", "two"), ("c", "")] {
        let held = bytes_of(rt.alloc(), &disk, name)?;
        assert!(rt; held.as_slice() == bytes.as_bytes(), "at {name}");
    }
    Ok(())
}

#[test]
fn a_file_that_is_not_there_is_refused(rt: HostRuntime) -> Result<(), Fail> {
    let mut disk = no_files(rt.alloc());
    put(&mut disk, "a", b"one")?;
    let Err(fault) = disk.open("b") else {
        panic!(rt; "opened");
    };
    assert!(rt; fault.kind() == ErrorKind::NotFound);
    Ok(())
}

#[test]
fn a_new_file_that_is_let_go_was_never_there(rt: HostRuntime) -> Result<(), Fail> {
    let mut disk = no_files(rt.alloc());
    put(&mut disk, "a", b"one")?;
    let mut made = disk.make("a")?;
    made.write_all(b"two")?;
    drop(made);
    let held = bytes_of(rt.alloc(), &disk, "a")?;
    assert_eq!(rt; held.as_slice(), b"one".as_slice());
    assert_eq!(rt; disk.entries.len(), 1);
    Ok(())
}

#[test]
fn a_reader_has_the_bytes_of_its_opening(rt: HostRuntime) -> Result<(), Fail> {
    let mut disk = no_files(rt.alloc());
    put(&mut disk, "a", b"one")?;
    let mut reader = disk.open("a")?;
    put(&mut disk, "a", b"two")?;
    let mut bytes = Vec::new(rt.alloc());
    reader.read_to_end(&mut bytes)?;
    assert_eq!(rt; bytes.as_slice(), b"one".as_slice());
    Ok(())
}

#[test]
fn a_name_is_one_file_with_itself_alone(rt: HostRuntime) -> Result<(), Fail> {
    let disk = no_files(rt.alloc());
    assert!(rt; disk.is_one_file("a", "a")?);
    assert!(rt; !disk.is_one_file("a", "./a")?);
    Ok(())
}

/// A folder with two files and a folder, and files elsewhere.
fn one_folder(alloc: Global) -> io::Result<MemoryDisk> {
    let mut disk = no_files(alloc);
    make_folder(&mut disk, "f")?;
    make_folder(&mut disk, "f/g")?;
    make_folder(&mut disk, "e")?;
    for name in ["f/a", "a", "f/b", "g/a", "f/g/a", "ff/c"] {
        put(&mut disk, name, b"text")?;
    }
    Ok(disk)
}

#[test]
fn a_folder_has_what_has_its_name_before_a_slash(rt: HostRuntime) -> Result<(), Fail> {
    let disk = one_folder(rt.alloc())?;
    let listed = disk.list("f")?;
    let mut names = listed
        .iter()
        .map(|entry| (entry.name.as_str(), entry.is_regular));
    assert_eq!(rt; names.next(), Some(("g", false)));
    assert_eq!(rt; names.next(), Some(("a", true)));
    assert_eq!(rt; names.next(), Some(("b", true)));
    assert_eq!(rt; names.next(), None);
    assert!(rt; disk.list("e")?.is_empty());
    for name in ["a", "f/a", "h", "ff"] {
        let Err(fault) = disk.list(name) else {
            panic!(rt; "listed {name}");
        };
        assert!(rt; fault.kind() == ErrorKind::NotFound);
    }
    Ok(())
}

/// Whether this is refused since a folder has the name.
pub fn is_of_a_folder<T>(done: &io::Result<T>) -> bool {
    match done {
        Ok(_) => false,
        Err(fault) => fault.kind() == ErrorKind::IsADirectory,
    }
}

#[test]
fn a_folder_is_no_file(rt: HostRuntime) -> Result<(), Fail> {
    let mut disk = one_folder(rt.alloc())?;
    for name in ["f", "f/g", "e"] {
        assert!(rt; is_of_a_folder(&disk.open(name)));
        assert!(rt; is_of_a_folder(&disk.create(name)));
        assert!(rt; is_of_a_folder(&disk.hold(name)));
        assert!(rt; is_of_a_folder(&disk.grow(name, false)));
        assert!(rt; !disk.discard(name)?);
        assert!(rt; is_of_a_folder(&put(&mut disk, name, b"text")));
        let grown = disk.grow("a", false)?;
        assert!(rt; disk.close_synced(grown, name).is_err());
    }
    assert_eq!(rt; disk.entries.len(), 9);
    assert_eq!(rt; disk.list("f")?.len(), 3);
    Ok(())
}
