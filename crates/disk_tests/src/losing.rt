//! Files in memory of which a loss of power takes all that it may.

use crate::grown::{add, close};
use disks::{Disk, Grow, LosingCalls, LosingDisk, MemoryDisk, SystemDisk};
use std::alloc::Global;
use std::io;
use std::process::Abort;
use std::test::Fail;
use test_files::{bytes_of, no_files, put};

/// Files in memory, of which these are on the disk.
fn losing(alloc: Global, files: &[(&str, &str)]) -> io::Result<LosingDisk> {
    let mut held = no_files(alloc);
    let mut on_disk = no_files(alloc);
    for (name, bytes) in files {
        put(&mut held, name, bytes.as_bytes())?;
        put(&mut on_disk, name, bytes.as_bytes())?;
    }
    Ok(SystemDisk::over(LosingCalls::new(held, on_disk.entries)))
}

/// What a loss of power leaves of the files.
fn after_loss(disk: LosingDisk) -> io::Result<MemoryDisk> {
    disk.into_calls().after_loss()
}

/// Compares what files hold after a loss of power; `None` is a file that is not there.
fn expect_left<R: Abort + AllocGlobal>(
    rt: &R,
    disk: LosingDisk,
    files: &[(&str, Option<&str>)],
) -> io::Result<()> {
    let left = after_loss(disk)?;
    for (name, bytes) in files {
        match bytes {
            Some(bytes) => {
                let has = bytes_of(rt.alloc(), &left, name)?;
                assert!(rt; has.as_slice() == bytes.as_bytes(), "at {name}");
            }
            None => assert!(rt; left.open(name).is_err(), "at {name}"),
        }
    }
    Ok(())
}

/// What is done to files before a loss of power.
trait Change {
    fn change<R: Abort + AllocGlobal, D: Disk>(&self, rt: &R, disk: &mut D) -> io::Result<()>
    where
        D::Grown: Drop;
}

/// Has it done, and compares what is left.
fn expect_change<R: Abort + AllocGlobal, C: Change>(
    rt: &R,
    mut disk: LosingDisk,
    change: &C,
    files: &[(&str, Option<&str>)],
) -> io::Result<()> {
    change.change(rt, &mut disk)?;
    expect_left(rt, disk, files)
}

/// Two files are put in their places, of which one is opened synced.
struct GrowOneOfTwo;

impl Change for GrowOneOfTwo {
    fn change<R: Abort + AllocGlobal, D: Disk>(&self, rt: &R, disk: &mut D) -> io::Result<()>
    where
        D::Grown: Drop,
    {
        put(disk, "a", b"one")?;
        put(disk, "b", b"new")?;
        let held = bytes_of(rt.alloc(), disk, "b")?;
        assert!(rt; held.as_slice() == b"new".as_slice());
        drop(disk.grow("a", true)?);
        Ok(())
    }
}

#[test]
fn a_name_lasts_once_its_file_is_opened_synced(rt: HostRuntime) -> Result<(), Fail> {
    let disk = losing(rt.alloc(), &[("b", "old")])?;
    expect_change(
        &rt,
        disk,
        &GrowOneOfTwo,
        &[("a", Some("one")), ("b", Some("old"))],
    )?;
    Ok(())
}

/// A file that is synced and one that is not are added to by turns, and let go.
struct AddByTurns;

impl Change for AddByTurns {
    fn change<R: Abort + AllocGlobal, D: Disk>(&self, rt: &R, disk: &mut D) -> io::Result<()>
    where
        D::Grown: Drop,
    {
        let mut synced = disk.grow("a", true)?;
        add(rt, &mut synced, b" two");
        put(disk, "b", b"")?;
        let mut other = disk.grow("b", false)?;
        add(rt, &mut other, b"lost");
        add(rt, &mut synced, b" three");
        disk.abandon(synced, String::from_str(rt.alloc(), "a")?);
        disk.abandon(other, String::from_str(rt.alloc(), "b")?);
        let held = bytes_of(rt.alloc(), disk, "a")?;
        assert!(rt; held.as_slice() == b"one two three".as_slice());
        let held = bytes_of(rt.alloc(), disk, "b")?;
        assert!(rt; held.as_slice() == b"lost".as_slice());
        Ok(())
    }
}

#[test]
fn what_is_added_to_a_synced_file_lasts(rt: HostRuntime) -> Result<(), Fail> {
    let disk = losing(rt.alloc(), &[("a", "one")])?;
    expect_change(
        &rt,
        disk,
        &AddByTurns,
        &[("a", Some("one two three")), ("b", Some(""))],
    )?;
    Ok(())
}

/// A file is made, added to and closed.
struct AddAndClose;

impl Change for AddAndClose {
    fn change<R: Abort + AllocGlobal, D: Disk>(&self, rt: &R, disk: &mut D) -> io::Result<()>
    where
        D::Grown: Drop,
    {
        assert!(rt; disk.create("a")?);
        let mut grown = disk.grow("a", false)?;
        add(rt, &mut grown, b"one");
        close(rt, disk, grown, "a");
        let held = bytes_of(rt.alloc(), disk, "a")?;
        assert!(rt; held.as_slice() == b"one".as_slice());
        Ok(())
    }
}

#[test]
fn a_file_that_is_closed_lasts(rt: HostRuntime) -> Result<(), Fail> {
    let disk = losing(rt.alloc(), &[])?;
    expect_change(&rt, disk, &AddAndClose, &[("a", Some("one"))])?;
    Ok(())
}

/// An empty file is removed, and another one made.
struct DiscardAndCreate;

impl Change for DiscardAndCreate {
    fn change<R: Abort + AllocGlobal, D: Disk>(&self, rt: &R, disk: &mut D) -> io::Result<()>
    where
        D::Grown: Drop,
    {
        assert!(rt; disk.discard("a")?);
        assert!(rt; disk.create("b")?);
        assert!(rt; disk.open("a").is_err());
        Ok(())
    }
}

#[test]
fn what_is_made_or_removed_alone_may_be_lost(rt: HostRuntime) -> Result<(), Fail> {
    let disk = losing(rt.alloc(), &[("a", "")])?;
    expect_change(
        &rt,
        disk,
        &DiscardAndCreate,
        &[("a", Some("")), ("b", None)],
    )?;
    Ok(())
}

/// A file is added to past the sync that fails, and cannot be closed.
struct AddPastASync;

impl Change for AddPastASync {
    fn change<R: Abort + AllocGlobal, D: Disk>(&self, rt: &R, disk: &mut D) -> io::Result<()>
    where
        D::Grown: Drop,
    {
        let mut grown = disk.grow("a", true)?;
        assert!(rt; grown.add(b" two") == Ok(()));
        assert!(rt; grown.add(b" three") == Err(6));
        assert!(rt; grown.add(b" four") == Err(0));
        let Err(grown) = disk.close_synced(grown, "a") else {
            panic!(rt; "closed");
        };
        disk.abandon(grown, String::from_str(rt.alloc(), "a")?);
        Ok(())
    }
}

#[test]
fn a_synced_file_whose_sync_failed_takes_no_more(rt: HostRuntime) -> Result<(), Fail> {
    let mut held = no_files(rt.alloc());
    put(&mut held, "a", b"one")?;
    let calls = LosingCalls::new(held, Vec::new(rt.alloc())).failing(2, u32::MAX);
    let disk = SystemDisk::over(calls);
    expect_change(&rt, disk, &AddPastASync, &[("a", Some("one two"))])?;
    Ok(())
}

/// A file whose name cannot be synced is not opened synced, and not closed.
struct GrowNameless;

impl Change for GrowNameless {
    fn change<R: Abort + AllocGlobal, D: Disk>(&self, rt: &R, disk: &mut D) -> io::Result<()>
    where
        D::Grown: Drop,
    {
        assert!(rt; disk.grow("a", true).is_err());
        let grown = disk.grow("a", false)?;
        assert!(rt; disk.close_synced(grown, "a").is_err());
        Ok(())
    }
}

#[test]
fn a_name_that_cannot_be_synced_is_told(rt: HostRuntime) -> Result<(), Fail> {
    let mut held = no_files(rt.alloc());
    put(&mut held, "a", b"one")?;
    let calls = LosingCalls::new(held, Vec::new(rt.alloc())).failing(u32::MAX, 0);
    let disk = SystemDisk::over(calls);
    expect_change(&rt, disk, &GrowNameless, &[("a", None)])?;
    Ok(())
}
