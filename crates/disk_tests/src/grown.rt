//! Files that are written at their end.

use crate::playing::{Play, expect_bytes, expect_count, play_in};
use disks::{Disk, Grow, SystemDisk};
use std::io::{self, ErrorKind};
use std::process::Abort;
use std::rt::Files;
use std::test::Fail;
use test_files::{bytes_of, folder_of, no_files, put, within};

/// A file of this name cannot be grown, for this reason.
fn expect_refused<D: Disk>(rt: &impl Abort, disk: &mut D, name: &str, kind: ErrorKind)
where
    D::Grown: Drop,
{
    let Err(fault) = disk.grow(name, false) else {
        panic!(rt; "grown");
    };
    assert!(rt; fault.kind() == kind);
}

/// A file of this name cannot be locked, for this reason.
fn expect_unlocked<D: Disk>(rt: &impl Abort, disk: &mut D, name: &str, kind: ErrorKind)
where
    D::Grown: Drop,
{
    let Err(fault) = disk.lock(name) else {
        panic!(rt; "locked");
    };
    assert!(rt; fault.kind() == kind);
}

/// Adds these bytes to a file.
pub fn add<G: Grow>(rt: &impl Abort, grown: &mut G, bytes: &[u8]) {
    assert!(rt; grown.add(bytes).is_ok());
}

/// Closes a file of this name.
pub fn close<D: Disk>(rt: &impl Abort, disk: &mut D, grown: D::Grown, name: &str)
where
    D::Grown: Drop,
{
    assert!(rt; disk.close_synced(grown, name).is_ok());
}

/// A file is grown twice, and by nobody else meanwhile.
struct GrowByOneHand;

impl Play for GrowByOneHand {
    fn play<R: Abort + AllocGlobal + Files + Clone, D: Disk>(
        &self,
        rt: &R,
        disk: &mut D,
        _other: &mut D,
        folder: &str,
    ) -> io::Result<()>
    where
        D::Grown: Drop,
    {
        let name = within(rt, folder, "a")?;
        expect_refused(rt, disk, &name, ErrorKind::NotFound);
        assert!(rt; disk.create(&name)?);
        let mut first = disk.grow(&name, true)?;
        add(rt, &mut first, b"one");
        expect_bytes(rt, &name, b"one")?;
        expect_refused(rt, disk, &name, ErrorKind::WouldBlock);
        close(rt, disk, first, &name);
        let mut again = disk.grow(&name, false)?;
        add(rt, &mut again, b" two");
        close(rt, disk, again, &name);
        expect_bytes(rt, &name, b"one two")?;
        expect_refused(rt, disk, folder, ErrorKind::IsADirectory);
        expect_refused(rt, disk, "/dev/null", ErrorKind::InvalidInput);
        expect_count(rt, folder, 1)
    }
}

#[test]
fn a_file_grows_by_one_hand_alone(rt: HostRuntime) -> Result<(), Fail> {
    let folder = folder_of(&rt, "grown")?;
    play_in(&rt, &folder, &GrowByOneHand)?;
    Ok(())
}

/// The first disk locks a file, which the second one can lock once the first one is gone.
fn lock_by_turns<R: Abort + AllocGlobal + Files + Clone, D: Disk + Drop>(
    rt: &R,
    mut first: D,
    second: &mut D,
    folder: &str,
) -> io::Result<()>
where
    D::Grown: Drop,
{
    let name = within(rt, folder, "lock")?;
    expect_unlocked(rt, &mut first, &name, ErrorKind::NotFound);
    assert!(rt; first.create(&name)?);
    assert!(rt; first.lock(&name).is_ok());
    expect_unlocked(rt, second, &name, ErrorKind::WouldBlock);
    expect_refused(rt, second, &name, ErrorKind::WouldBlock);
    // No lock is let go for another.
    let other = within(rt, folder, "other")?;
    assert!(rt; first.create(&other)?);
    expect_unlocked(rt, &mut first, &other, ErrorKind::WouldBlock);
    expect_unlocked(rt, second, &name, ErrorKind::WouldBlock);
    drop(first);
    assert!(rt; second.lock(&name).is_ok());
    expect_count(rt, folder, 2)
}

#[test]
fn a_file_is_locked_as_long_as_its_disk_is_there(rt: HostRuntime) -> Result<(), Fail> {
    let folder = folder_of(&rt, "locked")?;
    lock_by_turns(
        &rt,
        SystemDisk::new(&rt),
        &mut SystemDisk::new(&rt),
        &folder,
    )?;
    Ok(())
}

/// A file that was grown is let go, and grown once more.
struct LetGo;

impl Play for LetGo {
    fn play<R: Abort + AllocGlobal + Files + Clone, D: Disk>(
        &self,
        rt: &R,
        disk: &mut D,
        _other: &mut D,
        folder: &str,
    ) -> io::Result<()>
    where
        D::Grown: Drop,
    {
        let name = within(rt, folder, "a")?;
        assert!(rt; disk.create(&name)?);
        let mut grown = disk.grow(&name, true)?;
        add(rt, &mut grown, b"one");
        disk.abandon(grown, within(rt, folder, "a")?);
        expect_bytes(rt, &name, b"one")?;
        let again = disk.grow(&name, false)?;
        close(rt, disk, again, &name);
        expect_count(rt, folder, 1)
    }
}

#[test]
fn a_file_that_is_let_go_keeps_what_was_added(rt: HostRuntime) -> Result<(), Fail> {
    let folder = folder_of(&rt, "let_go")?;
    play_in(&rt, &folder, &LetGo)?;
    Ok(())
}

#[test]
fn a_grown_file_in_memory_holds_what_was_written(rt: HostRuntime) -> Result<(), Fail> {
    let mut disk = no_files(rt.alloc());
    put(&mut disk, "a", b"one")?;
    let mut grown = disk.grow("a", true)?;
    add(&rt, &mut grown, b" two");
    let held = bytes_of(rt.alloc(), &disk, "a")?;
    assert!(rt; held.as_slice() == b"one".as_slice());
    close(&rt, &mut disk, grown, "a");
    let held = bytes_of(rt.alloc(), &disk, "a")?;
    assert!(rt; held.as_slice() == b"one two".as_slice());
    expect_refused(&rt, &mut disk, "b", ErrorKind::NotFound);
    assert!(rt; disk.hold("b").is_err());
    let mut grown = disk.grow("a", false)?;
    add(&rt, &mut grown, b" three");
    disk.abandon(grown, String::from_str(rt.alloc(), "a")?);
    let held = bytes_of(rt.alloc(), &disk, "a")?;
    assert!(rt; held.as_slice() == b"one two three".as_slice());
    Ok(())
}

#[test]
fn an_empty_file_in_memory_is_made_and_removed(rt: HostRuntime) -> Result<(), Fail> {
    let mut disk = no_files(rt.alloc());
    put(&mut disk, "b", b"other")?;
    assert!(rt; disk.create("a")?);
    assert!(rt; !disk.create("b")?);
    disk.hold("a")?;
    let none = disk.grow("a", false)?;
    assert!(rt; none.is_empty());
    let held = bytes_of(rt.alloc(), &disk, "a")?;
    assert!(rt; held.is_empty());
    assert!(rt; !disk.discard("b")?);
    assert!(rt; disk.discard("a")?);
    assert!(rt; !disk.discard("a")?);
    assert!(rt; disk.open("a").is_err());
    let held = bytes_of(rt.alloc(), &disk, "b")?;
    assert!(rt; held.as_slice() == b"other".as_slice());
    Ok(())
}
