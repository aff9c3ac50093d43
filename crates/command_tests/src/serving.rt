//! How `serve` uses its journal: when it is locked, opened, synced and left.

use crate::commands::{serve, serve_words};
use disks::{Disk, FolderEntry, Grow, MemoryDisk};
use std::alloc::Global;
use std::cell::Cell;
use std::io::{self, Cursor, ErrorKind, Read};
use std::process::Abort;
use std::test::Fail;
use test_files::{bytes_of, no_files, put};
use tool_parts::faults::ToolError;
use tool_parts::requests::ServeWords;

/// A journal that records no call.
const BEGUN: &str = "ringjournal 1\nringfarm 2\nring 0 3 3\nstart 0 0 0\nend 0\ndone 1\n";

/// The same with a call.
const ONE_CALL: &str =
    "ringjournal 1\nringfarm 2\nring 0 3 3\nstart 0 0 0\nend 0\ndone 1\n0 p 0 0 5 g 1 5\n";

/// A file that is open to be written at its end. It is counted while it is.
struct Opened<'a> {
    held: Vec<u8>,
    count: &'a Cell<u32>,
}

impl Drop for Opened<'_> {
    fn drop(self) {
        let Opened { held, count } = self;
        count.set(count.get().saturating_sub(1));
        drop(held);
    }
}

impl Opened<'_> {
    /// What it has, as it is closed.
    fn closed(self) -> Vec<u8> {
        let Opened { held, count } = self;
        count.set(count.get().saturating_sub(1));
        held
    }
}

impl Grow for Opened<'_> {
    fn add(&mut self, bytes: &[u8]) -> Result<(), usize> {
        self.held.add(bytes)
    }
}

/// Files in memory that watch how they are used.
#[derive(Drop)]
struct Watched<'a> {
    files: MemoryDisk,
    /// Whether another process has each file open to be written at its end.
    used: bool,
    /// How many are open so here. A file is read only while one is.
    opened: &'a Cell<u32>,
    /// How many were opened to be synced.
    synced: u32,
    /// Whether no file can be closed.
    is_full: bool,
    /// How many were let go as they were.
    let_go: u32,
}

impl<'a> Watched<'a> {
    /// A file with these bytes that is open.
    fn counted(&self, held: Vec<u8>) -> Opened<'a> {
        self.opened.set(self.opened.get().saturating_add(1));
        Opened {
            held,
            count: self.opened,
        }
    }
}

impl<'a> Disk for Watched<'a> {
    type Reader = Cursor<Vec<u8>>;

    type New = Vec<u8>;

    type Grown = Opened<'a>;

    type Hold = Opened<'a>;

    fn open(&self, name: &str) -> io::Result<Cursor<Vec<u8>>> {
        if self.opened.get() == 0 {
            return Err(io::Error::from(ErrorKind::PermissionDenied));
        }
        self.files.open(name)
    }

    fn is_one_file(&self, one: &str, other: &str) -> io::Result<bool> {
        self.files.is_one_file(one, other)
    }

    fn leads_into(&self, folder: &str, name: &str) -> io::Result<bool> {
        self.files.leads_into(folder, name)
    }

    fn list(&self, folder: &str) -> io::Result<Vec<FolderEntry>> {
        self.files.list(folder)
    }

    fn make(&mut self, name: &str) -> io::Result<Vec<u8>> {
        self.files.make(name)
    }

    fn finish(&mut self, made: Vec<u8>, name: &str) -> io::Result<()> {
        self.files.finish(made, name)
    }

    fn create(&mut self, name: &str) -> io::Result<bool> {
        self.files.create(name)
    }

    fn discard(&mut self, name: &str) -> io::Result<bool> {
        self.files.discard(name)
    }

    fn lock(&mut self, name: &str) -> io::Result<()> {
        if self.used {
            return Err(io::Error::from(ErrorKind::WouldBlock));
        }
        self.files.lock(name)
    }

    fn hold(&mut self, name: &str) -> io::Result<Opened<'a>> {
        if self.used {
            return Err(io::Error::from(ErrorKind::WouldBlock));
        }
        let held = self.files.grow(name, false)?;
        Ok(self.counted(held))
    }

    fn grow(&mut self, name: &str, synced: bool) -> io::Result<Opened<'a>> {
        if self.used {
            return Err(io::Error::from(ErrorKind::WouldBlock));
        }
        let held = self.files.grow(name, synced)?;
        if synced {
            self.synced = self.synced.saturating_add(1);
        }
        Ok(self.counted(held))
    }

    fn close_synced(&mut self, grown: Opened<'a>, name: &str) -> Result<(), Opened<'a>> {
        if self.is_full {
            return Err(grown);
        }
        match self.files.close_synced(grown.closed(), name) {
            Ok(()) => Ok(()),
            Err(held) => Err(self.counted(held)),
        }
    }

    fn abandon(&mut self, grown: Opened<'a>, name: String) {
        self.let_go = self.let_go.saturating_add(1);
        self.files.abandon(grown.closed(), name);
    }
}

/// Files of which one has this name and holds this text.
fn files_with<'a>(
    alloc: Global,
    opened: &'a Cell<u32>,
    name: &str,
    text: &[u8],
) -> io::Result<Watched<'a>> {
    let mut files = no_files(alloc);
    put(&mut files, name, text)?;
    Ok(Watched {
        files,
        used: false,
        opened,
        synced: 0,
        is_full: false,
        let_go: 0,
    })
}

/// The words for this journal and no history.
fn words(journal: &str, synced: bool) -> ServeWords<'_> {
    serve_words(None, Some(journal), synced)
}

/// Gives these bytes, and then fails.
#[derive(Drop)]
struct Fails<'a> {
    left: &'a [u8],
}

impl Read for Fails<'_> {
    fn read(&mut self, buf: &mut [u8]) -> io::Result<usize> {
        if self.left.is_empty() {
            return Err(io::Error::from(ErrorKind::BrokenPipe));
        }
        self.left.read(buf)
    }
}

/// Has the lines served, and compares the answers and the line of totals.
fn expect_served(
    rt: &impl Abort,
    disk: &mut Watched<'_>,
    words: &ServeWords<'_>,
    lines: &[u8],
    answers: &[u8],
    totals: &[u8],
) {
    let alloc = disk.files.alloc;
    let mut input = lines;
    let mut out = Vec::new(alloc);
    let mut err = Vec::new(alloc);
    let ended = serve(alloc, disk, words, &mut input, &mut out, &mut err);
    assert!(rt; ended.is_ok());
    assert!(rt; out.as_slice() == answers);
    assert!(rt; err.as_slice() == totals);
}

/// Compares what the file of this name holds.
fn expect_held(rt: &impl Abort, disk: &Watched<'_>, name: &str, text: &[u8]) -> io::Result<()> {
    let held = bytes_of(disk.files.alloc, &disk.files, name)?;
    assert!(rt; held.as_slice() == text);
    Ok(())
}

#[test]
fn a_journal_is_locked_before_it_is_read(rt: HostRuntime) -> Result<(), Fail> {
    let opened = Cell::new(0);
    let mut disk = files_with(rt.alloc(), &opened, "j", ONE_CALL.as_bytes())?;
    let totals = b"total rings 1 events 2 granted 2 surveys 0\n";
    expect_served(
        &rt,
        &mut disk,
        &words("j", false),
        b"pass 0 0 1 7\n",
        b"granted 2 12\n",
        totals,
    );
    assert!(rt; opened.get() == 0);
    Ok(())
}

#[test]
fn a_journal_is_synced_just_if_that_is_asked_for(rt: HostRuntime) -> Result<(), Fail> {
    let opened = Cell::new(0);
    for (synced, count) in [(true, 1), (false, 0)] {
        let mut disk = files_with(rt.alloc(), &opened, "j", BEGUN.as_bytes())?;
        let totals = b"total rings 1 events 1 granted 1 surveys 0\n";
        expect_served(
            &rt,
            &mut disk,
            &words("j", synced),
            b"pass 0 0 0 5\n",
            b"granted 1 5\n",
            totals,
        );
        assert!(rt; disk.synced == count);
        expect_held(&rt, &disk, "j", ONE_CALL.as_bytes())?;
    }
    Ok(())
}

#[test]
fn a_journal_of_another_process_is_in_use(rt: HostRuntime) -> Result<(), Fail> {
    let alloc = rt.alloc();
    let opened = Cell::new(0);
    for name in ["j", "f"] {
        let mut disk = files_with(alloc, &opened, "j", BEGUN.as_bytes())?;
        put(&mut disk.files, "f/lock", b"")?;
        disk.used = true;
        let mut input: &[u8] = b"pass 0 0 0 5\n";
        let mut out = Vec::new(alloc);
        let mut err = Vec::new(alloc);
        match serve(
            alloc,
            &mut disk,
            &words(name, true),
            &mut input,
            &mut out,
            &mut err,
        ) {
            Err(ToolError::InUse(told)) => assert!(rt; told == name),
            _ => panic!(rt; "it is in use"),
        }
        assert!(rt; out.is_empty() && err.is_empty() && input.len() == 13);
        expect_held(&rt, &disk, "j", BEGUN.as_bytes())?;
    }
    Ok(())
}

#[test]
fn a_fault_leaves_the_journal(rt: HostRuntime) -> Result<(), Fail> {
    let alloc = rt.alloc();
    let opened = Cell::new(0);
    let mut disk = files_with(alloc, &opened, "j", ONE_CALL.as_bytes())?;
    let mut input = Fails {
        left: b"pass 0 0 1 7\n",
    };
    let mut out = Vec::new(alloc);
    let mut err = Vec::new(alloc);
    match serve(
        alloc,
        &mut disk,
        &words("j", true),
        &mut input,
        &mut out,
        &mut err,
    ) {
        Err(ToolError::Read(name)) => assert!(rt; name == "-"),
        _ => panic!(rt; "the input fails"),
    }
    assert!(rt; out.as_slice() == b"granted 2 12\n".as_slice());
    assert!(rt; disk.let_go == 1 && opened.get() == 0);
    // It holds what it began with, and the note of the call that was answered.
    let noted =
        b"ringjournal 1\nringfarm 2\nring 0 3 3\nstart 0 0 0\np 0 0 5 g 1 5\nend 1\ndone 1\n0 p 0 1 7 g 2 12\n";
    expect_held(&rt, &disk, "j", noted)?;
    Ok(())
}

#[test]
fn a_journal_that_cannot_be_closed_is_let_go(rt: HostRuntime) -> Result<(), Fail> {
    let alloc = rt.alloc();
    let opened = Cell::new(0);
    let mut disk = files_with(alloc, &opened, "j", BEGUN.as_bytes())?;
    disk.is_full = true;
    let mut input: &[u8] = b"pass 0 0 0 5\n";
    let mut out = Vec::new(alloc);
    let mut err = Vec::new(alloc);
    match serve(
        alloc,
        &mut disk,
        &words("j", true),
        &mut input,
        &mut out,
        &mut err,
    ) {
        Err(ToolError::Save(name)) => assert!(rt; name == "j"),
        _ => panic!(rt; "it cannot be closed"),
    }
    assert!(rt; out.as_slice() == b"granted 1 5\n".as_slice() && err.is_empty());
    assert!(rt; disk.let_go == 1 && opened.get() == 0);
    expect_held(&rt, &disk, "j", ONE_CALL.as_bytes())?;
    Ok(())
}

#[test]
fn a_journal_may_have_a_long_name(rt: HostRuntime) -> Result<(), Fail> {
    let alloc = rt.alloc();
    let opened = Cell::new(0);
    let mut name = String::new(alloc);
    for _ in 0..4_000 {
        name.push('j')?;
    }
    let mut disk = files_with(alloc, &opened, name.as_str(), BEGUN.as_bytes())?;
    let totals = b"total rings 1 events 1 granted 1 surveys 0\n";
    expect_served(
        &rt,
        &mut disk,
        &words(name.as_str(), true),
        b"pass 0 0 0 5\n",
        b"granted 1 5\n",
        totals,
    );
    expect_held(&rt, &disk, name.as_str(), ONE_CALL.as_bytes())?;
    Ok(())
}
