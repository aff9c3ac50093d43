//! What could rob a file of the system: somebody who writes it, links that lead nowhere, parts and long names.

use crate::grown::{add, close};
use crate::playing::{Play, expect, expect_bytes, expect_count, play_in, put_in};
use disks::Disk;
use std::fs;
use std::io::{self, ErrorKind, Write};
use std::process::Abort;
use std::rt::Files;
use std::test::Fail;
use test_files::{folder_of, link_in, put, within, write_in};

/// A file that the other grows is replaced once it is closed.
struct KeepFromReplacing;

impl Play for KeepFromReplacing {
    fn play<R: Abort + AllocGlobal + Files + Clone, D: Disk>(
        &self,
        rt: &R,
        disk: &mut D,
        other: &mut D,
        folder: &str,
    ) -> io::Result<()>
    where
        D::Grown: Drop,
    {
        let name = within(rt, folder, "a")?;
        write_in(rt, folder, "a", "noted")?;
        let grown = other.grow(&name, false)?;
        let Err(fault) = put(disk, &name, b"new") else {
            panic!(rt; "replaced");
        };
        assert!(rt; fault.kind() == ErrorKind::WouldBlock);
        expect_bytes(rt, &name, b"noted")?;
        close(rt, other, grown, &name);
        put(disk, &name, b"new")?;
        expect_bytes(rt, &name, b"new")?;
        expect_count(rt, folder, 1)
    }
}

#[test]
fn a_file_that_somebody_grows_is_not_replaced(rt: HostRuntime) -> Result<(), Fail> {
    let folder = folder_of(&rt, "held")?;
    play_in(&rt, &folder, &KeepFromReplacing)?;
    Ok(())
}

/// A file is replaced while it is grown here, and grown once more.
struct ReplaceOwn;

impl Play for ReplaceOwn {
    fn play<R: Abort + AllocGlobal + Files + Clone, D: Disk>(
        &self,
        rt: &R,
        disk: &mut D,
        _other: &mut D,
        folder: &str,
    ) -> io::Result<()>
    where
        D::Grown: Drop,
    {
        let name = within(rt, folder, "a")?;
        write_in(rt, folder, "a", "old")?;
        let lock = disk.hold(&name)?;
        put(disk, &name, b"new")?;
        let mut again = disk.grow(&name, false)?;
        add(rt, &mut again, b" and more");
        close(rt, disk, again, &name);
        drop(lock);
        expect_bytes(rt, &name, b"new and more")?;
        expect_count(rt, folder, 1)
    }
}

#[test]
fn whoever_grows_a_file_may_replace_it(rt: HostRuntime) -> Result<(), Fail> {
    let folder = folder_of(&rt, "own")?;
    play_in(&rt, &folder, &ReplaceOwn)?;
    Ok(())
}

/// Files are removed, or replaced, while they are grown.
struct CloseLost;

impl Play for CloseLost {
    fn play<R: Abort + AllocGlobal + Files + Clone, D: Disk>(
        &self,
        rt: &R,
        disk: &mut D,
        _other: &mut D,
        folder: &str,
    ) -> io::Result<()>
    where
        D::Grown: Drop,
    {
        let name = within(rt, folder, "a")?;
        write_in(rt, folder, "a", "")?;
        let first = disk.grow(&name, false)?;
        fs::remove_file(rt, name.as_str())?;
        assert!(rt; disk.close_synced(first, &name).is_err());
        write_in(rt, folder, "a", "")?;
        let second = disk.grow(&name, false)?;
        fs::remove_file(rt, name.as_str())?;
        write_in(rt, folder, "a", "another")?;
        assert!(rt; disk.close_synced(second, &name).is_err());
        expect_bytes(rt, &name, b"another")?;
        expect_count(rt, folder, 1)
    }
}

#[test]
fn a_grown_file_that_was_removed_or_replaced_is_not_closed(rt: HostRuntime) -> Result<(), Fail> {
    let folder = folder_of(&rt, "lost")?;
    play_in(&rt, &folder, &CloseLost)?;
    Ok(())
}

/// A file is made by a name from which links lead to it.
struct MakeBehindLinks;

impl Play for MakeBehindLinks {
    fn play<R: Abort + AllocGlobal + Files + Clone, D: Disk>(
        &self,
        rt: &R,
        disk: &mut D,
        _other: &mut D,
        folder: &str,
    ) -> io::Result<()>
    where
        D::Grown: Drop,
    {
        fs::create_dir(rt, within(rt, folder, "d")?.as_str())?;
        link_in(rt, folder, "one", "d/two")?;
        link_in(rt, folder, "d/two", "three")?;
        let name = within(rt, folder, "one")?;
        let mut made = disk.make(&name)?;
        made.write_all(b"text")?;
        expect(rt, folder, "d/three", None)?;
        expect(rt, folder, "d/.wozgirt.part", Some("text"))?;
        drop(made);
        expect(rt, folder, "d/.wozgirt.part", None)?;
        put_in(rt, disk, folder, "one", b"text")?;
        expect(rt, folder, "d/three", Some("text"))?;
        let link = fs::symlink_metadata(rt, name.as_str())?;
        assert!(rt; link.is_symlink());
        link_in(rt, folder, "round", "round")?;
        assert!(rt; disk.make(&within(rt, folder, "round")?).is_err());
        expect_count(rt, folder, 3)
    }
}

#[test]
fn what_a_link_leads_to_is_made_as_a_whole(rt: HostRuntime) -> Result<(), Fail> {
    let folder = folder_of(&rt, "dangling")?;
    play_in(&rt, &folder, &MakeBehindLinks)?;
    Ok(())
}

/// A file of this name is made and replaced.
#[derive(Drop)]
struct ReplaceLong<'a> {
    long: &'a str,
}

impl Play for ReplaceLong<'_> {
    fn play<R: Abort + AllocGlobal + Files + Clone, D: Disk>(
        &self,
        rt: &R,
        disk: &mut D,
        _other: &mut D,
        folder: &str,
    ) -> io::Result<()>
    where
        D::Grown: Drop,
    {
        put_in(rt, disk, folder, self.long, b"one")?;
        put_in(rt, disk, folder, self.long, b"two")?;
        expect(rt, folder, self.long, Some("two"))?;
        expect_count(rt, folder, 1)
    }
}

#[test]
fn a_name_of_any_length_is_replaced(rt: HostRuntime) -> Result<(), Fail> {
    let folder = folder_of(&rt, "long")?;
    let mut long = String::new(rt.alloc());
    for _ in 0..255 {
        long.push('a')?;
    }
    play_in(&rt, &folder, &ReplaceLong { long: &long })?;
    Ok(())
}

/// Two files are made at once for one name.
struct MakeBeside;

impl Play for MakeBeside {
    fn play<R: Abort + AllocGlobal + Files + Clone, D: Disk>(
        &self,
        rt: &R,
        disk: &mut D,
        other: &mut D,
        folder: &str,
    ) -> io::Result<()>
    where
        D::Grown: Drop,
    {
        let name = within(rt, folder, "a")?;
        let mut first = disk.make(&name)?;
        first.write_all(b"first")?;
        let mut second = other.make(&name)?;
        second.write_all(b"second")?;
        expect(rt, folder, ".wozgirt.part", Some("first"))?;
        expect(rt, folder, ".wozgirt.part1", Some("second"))?;
        disk.finish(first, &name)?;
        disk.finish(second, &name)?;
        expect(rt, folder, "a", Some("second"))?;
        expect_count(rt, folder, 1)
    }
}

#[test]
fn files_are_made_beside_one_another(rt: HostRuntime) -> Result<(), Fail> {
    let folder = folder_of(&rt, "beside")?;
    play_in(&rt, &folder, &MakeBeside)?;
    Ok(())
}

/// A file is made where a link lies in place of its part.
struct MakePastALink;

impl Play for MakePastALink {
    fn play<R: Abort + AllocGlobal + Files + Clone, D: Disk>(
        &self,
        rt: &R,
        disk: &mut D,
        _other: &mut D,
        folder: &str,
    ) -> io::Result<()>
    where
        D::Grown: Drop,
    {
        write_in(rt, folder, "victim", "old")?;
        link_in(rt, folder, ".wozgirt.part", "victim")?;
        put_in(rt, disk, folder, "a", b"one")?;
        expect(rt, folder, "victim", Some("old"))?;
        expect(rt, folder, "a", Some("one"))?;
        expect_count(rt, folder, 3)
    }
}

#[test]
fn a_link_in_place_of_a_part_is_not_followed(rt: HostRuntime) -> Result<(), Fail> {
    let folder = folder_of(&rt, "planted")?;
    play_in(&rt, &folder, &MakePastALink)?;
    Ok(())
}

/// An empty file is made and removed by the name of a link.
struct MakeAndDiscard;

impl Play for MakeAndDiscard {
    fn play<R: Abort + AllocGlobal + Files + Clone, D: Disk>(
        &self,
        rt: &R,
        disk: &mut D,
        other: &mut D,
        folder: &str,
    ) -> io::Result<()>
    where
        D::Grown: Drop,
    {
        link_in(rt, folder, "link", "a")?;
        let link = within(rt, folder, "link")?;
        assert!(rt; !disk.discard(&link)?);
        assert!(rt; disk.create(&link)?);
        assert!(rt; !disk.create(&link)?);
        expect(rt, folder, "a", Some(""))?;
        let held = disk.hold(&link)?;
        assert!(rt; other.hold(&link).is_err());
        assert!(rt; other.discard(&link).is_err());
        drop(held);
        assert!(rt; disk.discard(&link)?);
        expect(rt, folder, "a", None)?;
        write_in(rt, folder, "a", "text")?;
        assert!(rt; !disk.discard(&link)?);
        expect(rt, folder, "a", Some("text"))?;
        expect_count(rt, folder, 2)
    }
}

#[test]
fn an_empty_file_is_made_and_removed(rt: HostRuntime) -> Result<(), Fail> {
    let folder = folder_of(&rt, "empty")?;
    play_in(&rt, &folder, &MakeAndDiscard)?;
    Ok(())
}

/// Names of files that are there, that can be made, and that cannot.
struct LookAtNames;

impl Play for LookAtNames {
    fn play<R: Abort + AllocGlobal + Files + Clone, D: Disk>(
        &self,
        rt: &R,
        disk: &mut D,
        _other: &mut D,
        folder: &str,
    ) -> io::Result<()>
    where
        D::Grown: Drop,
    {
        write_in(rt, folder, "a", "text")?;
        link_in(rt, folder, "nowhere", "no/b")?;
        for name in ["a", "b"] {
            assert!(rt; !disk.is_standard(&within(rt, folder, name)?)?, "at {name}");
        }
        for name in ["no/b", "nowhere"] {
            assert!(rt;
                disk.is_standard(&within(rt, folder, name)?).is_err(),
                "at {name}"
            );
        }
        assert!(rt; !disk.is_standard("/dev/null")?);
        expect_count(rt, folder, 2)
    }
}

#[test]
fn where_a_file_can_be_made_is_looked_at(rt: HostRuntime) -> Result<(), Fail> {
    let folder = folder_of(&rt, "looked")?;
    play_in(&rt, &folder, &LookAtNames)?;
    Ok(())
}
