//! The system's files.

use crate::memory::is_of_a_folder;
use crate::playing::{Play, expect, expect_count, play_in, put_in};
use disks::{Disk, FolderEntry, SystemDisk};
use std::fs::{self, File};
use std::io::{self, ErrorKind, Write};
use std::os::unix::fs::{MetadataExt, PermissionsExt};
use std::process::Abort;
use std::rt::Files;
use std::test::Fail;
use test_files::{folder_of, link_in, put, within, write_in};

/// The content of files, by their names in a folder.
type Held<'a> = &'a [(&'a str, Option<&'a str>)];

/// Compares what these files of a folder hold.
fn expect_all<R: Abort + AllocGlobal + Files>(rt: &R, folder: &str, files: Held) -> io::Result<()> {
    for (name, text) in files {
        expect(rt, folder, name, *text)?;
    }
    Ok(())
}

/// A file that is made in a folder, and put in its place or let go.
#[derive(Clone, Copy)]
struct Scene<'a> {
    folder: &'a str,
    /// The files before.
    old: Option<(&'a str, &'a str)>,
    made: (&'a str, &'a str),
    finished: bool,
    /// The content of files while the new one is written, and of all in the end.
    during: Held<'a>,
    after: Held<'a>,
}

const SCENES: [Scene; 5] = [
    // a file is made beside, and put in its place
    Scene {
        folder: "made",
        old: None,
        made: ("a", "one"),
        finished: true,
        during: &[("a", None), (".wozgirt.part", Some("one"))],
        after: &[("a", Some("one"))],
    },
    // an old file is whole until it is replaced
    Scene {
        folder: "replaced",
        old: Some(("a", "old")),
        made: ("a", "new text"),
        finished: true,
        during: &[("a", Some("old"))],
        after: &[("a", Some("new text"))],
    },
    // a new file that is let go is removed
    Scene {
        folder: "dropped",
        old: Some(("a", "old")),
        made: ("a", "new"),
        finished: false,
        during: &[("a", Some("old"))],
        after: &[("a", Some("old"))],
    },
    // a part that was left is removed, and its name is taken
    Scene {
        folder: "parts",
        old: Some((".wozgirt.part", "left")),
        made: ("a", "one"),
        finished: true,
        during: &[("a", None), (".wozgirt.part", Some("one"))],
        after: &[("a", Some("one"))],
    },
    // what only looks like a part is left
    Scene {
        folder: "others_parts",
        old: Some(("a.part", "anothers")),
        made: ("a", "one"),
        finished: true,
        during: &[(".wozgirt.part", Some("one"))],
        after: &[("a.part", Some("anothers")), ("a", Some("one"))],
    },
];

/// Makes the scene's file, and looks at its folder before it is finished.
fn make_watched<R: Abort + AllocGlobal + Files<File = File>>(
    rt: &R,
    folder: &str,
    scene: Scene,
) -> io::Result<()> {
    let name = within(rt, folder, scene.made.0)?;
    let mut disk = SystemDisk::new(rt);
    let mut made = disk.make(&name)?;
    made.write_all(scene.made.1.as_bytes())?;
    expect_all(rt, folder, scene.during)?;
    if scene.finished {
        disk.finish(made, &name)
    } else {
        Ok(())
    }
}

/// Plays a scene in its folder, which is empty.
fn play<R: Abort + AllocGlobal + Files<File = File> + Clone>(
    rt: &R,
    folder: &str,
    scene: Scene,
) -> io::Result<()> {
    if let Some((name, text)) = scene.old {
        write_in(rt, folder, name, text)?;
    }
    make_watched(rt, folder, scene)?;
    expect_all(rt, folder, scene.after)?;
    expect_count(rt, folder, scene.after.len())
}

#[test]
fn a_new_file_is_made_beside_and_put_in_its_place(rt: HostRuntime) -> Result<(), Fail> {
    for scene in SCENES {
        let folder = folder_of(&rt, scene.folder)?;
        play(&rt, &folder, scene)?;
    }
    Ok(())
}

/// A file that only its owner and its group can read is replaced.
struct ReplaceWithMode;

impl Play for ReplaceWithMode {
    fn play<R: Abort + AllocGlobal + Files + Clone, D: Disk>(
        &self,
        rt: &R,
        disk: &mut D,
        _other: &mut D,
        folder: &str,
    ) -> io::Result<()>
    where
        D::Grown: Drop,
    {
        let name = within(rt, folder, "a")?;
        fs::write(rt, name.as_str(), "old")?;
        fs::set_permissions(rt, name.as_str(), fs::Permissions::from_mode(0o640))?;
        put_in(rt, disk, folder, "a", b"new text")?;
        assert_eq!(rt; fs::metadata(rt, name.as_str())?.mode() & 0o777, 0o640);
        expect_count(rt, folder, 1)
    }
}

#[test]
fn the_mode_of_a_file_is_kept(rt: HostRuntime) -> Result<(), Fail> {
    let folder = folder_of(&rt, "modes")?;
    play_in(&rt, &folder, &ReplaceWithMode)?;
    Ok(())
}

/// A file is made for one name, and put to another.
struct FinishElsewhere;

impl Play for FinishElsewhere {
    fn play<R: Abort + AllocGlobal + Files + Clone, D: Disk>(
        &self,
        rt: &R,
        disk: &mut D,
        _other: &mut D,
        folder: &str,
    ) -> io::Result<()>
    where
        D::Grown: Drop,
    {
        let name = within(rt, folder, "a")?;
        let other = within(rt, folder, "b")?;
        let mut made = disk.make(&name)?;
        made.write_all(b"one")?;
        let Err(fault) = disk.finish(made, &other) else {
            panic!(rt; "put");
        };
        assert!(rt; fault.kind() == ErrorKind::InvalidInput);
        expect_count(rt, folder, 0)
    }
}

#[test]
fn a_new_file_goes_to_no_other_name(rt: HostRuntime) -> Result<(), Fail> {
    let folder = folder_of(&rt, "others")?;
    play_in(&rt, &folder, &FinishElsewhere)?;
    Ok(())
}

/// A file is replaced by the name of a link that leads to it.
struct ReplaceBehindALink;

impl Play for ReplaceBehindALink {
    fn play<R: Abort + AllocGlobal + Files + Clone, D: Disk>(
        &self,
        rt: &R,
        disk: &mut D,
        _other: &mut D,
        folder: &str,
    ) -> io::Result<()>
    where
        D::Grown: Drop,
    {
        write_in(rt, folder, "a", "old")?;
        link_in(rt, folder, "b", "a")?;
        put_in(rt, disk, folder, "b", b"new")?;
        expect(rt, folder, "a", Some("new"))?;
        let link = within(rt, folder, "b")?;
        assert!(rt; fs::symlink_metadata(rt, link.as_str())?.is_symlink());
        expect_count(rt, folder, 2)
    }
}

#[test]
fn what_a_link_leads_to_is_replaced(rt: HostRuntime) -> Result<(), Fail> {
    let folder = folder_of(&rt, "links")?;
    play_in(&rt, &folder, &ReplaceBehindALink)?;
    Ok(())
}

/// A file with three names, and another.
fn make_names<R: AllocGlobal + Files>(rt: &R, folder: &str) -> io::Result<()> {
    write_in(rt, folder, "a", "one")?;
    write_in(rt, folder, "b", "one")?;
    link_in(rt, folder, "link", "a")?;
    let name = within(rt, folder, "a")?;
    fs::hard_link(rt, name.as_str(), within(rt, folder, "hard")?.as_str())
}

/// Whether two names in a folder are of one file.
fn is_one_file<R: AllocGlobal + Files<File = File>>(
    rt: &R,
    folder: &str,
    one: &str,
    other: &str,
) -> io::Result<bool> {
    let disk = SystemDisk::new(rt);
    let one = within(rt, folder, one)?;
    let other = within(rt, folder, other)?;
    disk.is_one_file(&one, &other)
}

#[test]
fn names_of_one_file_are_known(rt: HostRuntime) -> Result<(), Fail> {
    let folder = folder_of(&rt, "names")?;
    make_names(&rt, &folder)?;
    for (other, want) in [
        ("a", true),
        ("./a", true),
        ("link", true),
        ("hard", true),
        ("b", false),
        ("missing", false),
    ] {
        assert!(rt;
            is_one_file(&rt, &folder, "a", other)? == want,
            "at {other}"
        );
    }
    assert!(rt; !is_one_file(&rt, &folder, "missing", "a")?);
    assert!(rt; !is_one_file(&rt, &folder, "missing", "gone")?);
    assert!(rt; is_one_file(&rt, &folder, "missing", "./missing").is_err());
    expect_count(&rt, &folder, 4)?;
    Ok(())
}

/// Files are opened and made where none can be.
struct MakeNowhere;

impl Play for MakeNowhere {
    fn play<R: Abort + AllocGlobal + Files + Clone, D: Disk>(
        &self,
        rt: &R,
        disk: &mut D,
        _other: &mut D,
        folder: &str,
    ) -> io::Result<()>
    where
        D::Grown: Drop,
    {
        let missing = within(rt, folder, "missing/a")?;
        assert!(rt; disk.open(&missing).is_err());
        assert!(rt; disk.make(&missing).is_err());
        assert!(rt; disk.make(folder).is_err());
        expect_count(rt, folder, 0)
    }
}

#[test]
fn what_cannot_be_made_is_refused(rt: HostRuntime) -> Result<(), Fail> {
    let folder = folder_of(&rt, "refused")?;
    play_in(&rt, &folder, &MakeNowhere)?;
    Ok(())
}

/// A file and an empty folder in a folder.
fn make_both<R: AllocGlobal + Files>(rt: &R, folder: &str) -> io::Result<()> {
    write_in(rt, folder, "a", "one")?;
    fs::create_dir(rt, within(rt, folder, "e")?.as_str())
}

/// An empty folder and a file are listed.
struct ListBoth;

impl Play for ListBoth {
    fn play<R: Abort + AllocGlobal + Files + Clone, D: Disk>(
        &self,
        rt: &R,
        disk: &mut D,
        _other: &mut D,
        folder: &str,
    ) -> io::Result<()>
    where
        D::Grown: Drop,
    {
        make_both(rt, folder)?;
        assert!(rt; disk.list(&within(rt, folder, "e")?)?.is_empty());
        assert!(rt; disk.list(&within(rt, folder, "a")?).is_err());
        expect_count(rt, folder, 2)
    }
}

#[test]
fn an_empty_folder_is_listed_and_a_file_is_not(rt: HostRuntime) -> Result<(), Fail> {
    let folder = folder_of(&rt, "both")?;
    play_in(&rt, &folder, &ListBoth)?;
    Ok(())
}

/// Folders are used as files.
struct UseFoldersAsFiles;

impl Play for UseFoldersAsFiles {
    fn play<R: Abort + AllocGlobal + Files + Clone, D: Disk>(
        &self,
        rt: &R,
        disk: &mut D,
        _other: &mut D,
        folder: &str,
    ) -> io::Result<()>
    where
        D::Grown: Drop,
    {
        make_both(rt, folder)?;
        let empty = within(rt, folder, "e")?;
        for name in [folder, empty.as_str()] {
            assert!(rt; is_of_a_folder(&disk.open(name)));
            assert!(rt; is_of_a_folder(&disk.create(name)));
            assert!(rt; is_of_a_folder(&disk.hold(name)));
            assert!(rt; is_of_a_folder(&disk.grow(name, false)));
            assert!(rt; is_of_a_folder(&disk.make(name)));
            assert!(rt; !disk.discard(name)?);
            assert!(rt; disk.is_one_file(name, name)?);
        }
        assert!(rt; !disk.is_one_file(folder, &empty)?);
        expect_count(rt, folder, 2)
    }
}

#[test]
fn a_folder_of_the_system_is_no_file(rt: HostRuntime) -> Result<(), Fail> {
    let folder = folder_of(&rt, "folders")?;
    play_in(&rt, &folder, &UseFoldersAsFiles)?;
    Ok(())
}

#[test]
fn a_device_is_written_as_it_stands(rt: HostRuntime) -> Result<(), Fail> {
    let mut disk = SystemDisk::new(&rt);
    put(&mut disk, "/dev/null", b"one")?;
    assert!(rt; !fs::metadata(&rt, "/dev/null")?.is_file());
    assert!(rt; !fs::exists(&rt, "/dev/.wozgirt.part")?);
    Ok(())
}

/// What a folder has of this name: none, or whether it is a regular file.
fn listed(entries: &[FolderEntry], name: &str) -> Option<bool> {
    for entry in entries {
        if entry.name.as_str() == name {
            return Some(entry.is_regular);
        }
    }
    None
}

/// A file, a link to it and a folder are listed.
struct ListThree;

impl Play for ListThree {
    fn play<R: Abort + AllocGlobal + Files + Clone, D: Disk>(
        &self,
        rt: &R,
        disk: &mut D,
        _other: &mut D,
        folder: &str,
    ) -> io::Result<()>
    where
        D::Grown: Drop,
    {
        write_in(rt, folder, "a.ring", "one")?;
        link_in(rt, folder, "b.ring", "a.ring")?;
        fs::create_dir(rt, within(rt, folder, "c.ring")?.as_str())?;
        let entries = disk.list(folder)?;
        assert_eq!(rt; entries.len(), 3);
        for (name, want) in [("a.ring", true), ("b.ring", false), ("c.ring", false)] {
            assert!(rt; listed(&entries, name) == Some(want), "at {name}");
        }
        expect_count(rt, folder, 3)
    }
}

#[test]
fn a_folder_is_listed_with_what_is_a_regular_file(rt: HostRuntime) -> Result<(), Fail> {
    let folder = folder_of(&rt, "listed")?;
    play_in(&rt, &folder, &ListThree)?;
    Ok(())
}

#[test]
fn a_folder_that_is_not_there_is_not_listed(rt: HostRuntime) -> Result<(), Fail> {
    let folder = folder_of(&rt, "gone")?;
    fs::remove_dir_all(&rt, folder.as_str())?;
    let Err(fault) = SystemDisk::new(&rt).list(&folder) else {
        panic!(rt; "listed");
    };
    assert!(rt; fault.kind() == ErrorKind::NotFound);
    Ok(())
}
