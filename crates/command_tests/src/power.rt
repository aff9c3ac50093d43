//! Commands on a system whose syncs fail from some moment on: what was delivered by then is in what a loss of power leaves; without
//! syncs, in what an end of the process leaves.

use crate::commands::{lend, serve, serve_words};
use disks::{Disk, KeepingCalls, LosingCalls, SystemDisk};
use std::alloc::Global;
use std::io;
use std::test::Fail;
use test_files::{Giver, bytes_of, make_folder, no_files, put};

/// A journal as it begins.
const BEGUN: &str = "ringjournal 1\nringfarm 2\nring 0 3 3\nstart 0 0 0\nend 0\ndone 1\n";

/// Calls, of which a reader gives a line each time.
const CALLS: &[u8] = b"pass 0 0 0 5\npass 0 0 1 7\n";

/// The answers to none, one and both of them, and what the journal then has.
const SERVED: [(&str, &str); 3] = [
    ("", BEGUN),
    (
        "granted 1 5\n",
        "ringjournal 1\nringfarm 2\nring 0 3 3\nstart 0 0 0\nend 0\ndone 1\n0 p 0 0 5 g 1 5\n",
    ),
    (
        "granted 1 5\ngranted 2 12\n",
        "ringjournal 1\nringfarm 2\nring 0 3 3\nstart 0 0 0\nend 0\ndone 1\n0 p 0 0 5 g 1 5\n0 p 0 1 7 g 2 12\n",
    ),
];

/// How many of the calls are answered, by how many syncs of the journal succeed.
const TOLD: [(u32, usize); 5] = [(0, 0), (1, 0), (2, 1), (3, 2), (4, 2)];

/// The first segment of one lock, as it begins, and once the lock was lent.
const SEGMENT: &str =
    "ringsegment 1 1 1\nbehind 0000000000000000000000000000000000000000000000000000000000000000\nbase 0 0 0 0\nringjournal 1\nringfarm 2\nring 0 3 3\nstart 0 0 0\nend 0\ndone 1\n";

pub const LENT: &str =
    "ringsegment 1 1 1\nbehind 0000000000000000000000000000000000000000000000000000000000000000\nbase 0 0 0 0\nringjournal 1\nringfarm 2\nring 0 3 3\nstart 0 0 0\nend 0\ndone 1\n0 p 0 0 77 g 1 77\n";

/// What is delivered of the lock, and what its segment then has, by how many syncs of it succeed.
const LOCKS_TOLD: [(u32, &str, Option<&str>); 4] = [
    (0, "", None),
    (1, "", Some(SEGMENT)),
    (2, "1 granted deploy 1\n", Some(LENT)),
    (3, "1 granted deploy 1\n", Some(LENT)),
];

/// A journal in memory, all of which is on the disk, and a folder. Of each file that is opened only `syncs` syncs succeed.
fn calls_of(alloc: Global, syncs: u32) -> io::Result<LosingCalls> {
    let mut held = no_files(alloc);
    make_folder(&mut held, "f")?;
    put(&mut held, "j", BEGUN.as_bytes())?;
    let mut on_disk = no_files(alloc);
    put(&mut on_disk, "j", BEGUN.as_bytes())?;
    Ok(LosingCalls::new(held, on_disk.entries).failing(syncs, u32::MAX))
}

/// `serve` of the calls with the journal: what was delivered, and whether it ended well.
fn serve_on<D: Disk>(alloc: Global, disk: &mut D, synced: bool) -> (Vec<u8>, bool) {
    let words = serve_words(None, Some("j"), synced);
    let mut input = Giver {
        at_most: 13,
        ..Giver::new(CALLS)
    };
    let mut out = Vec::new(alloc);
    let mut err = Vec::new(alloc);
    let ended = serve(alloc, disk, &words, &mut input, &mut out, &mut err).is_ok();
    (out, ended)
}

/// `locks` of one call in the folder: what was delivered, and whether it ended well.
fn lend_on<D: Disk>(alloc: Global, disk: &mut D, synced: bool) -> (Vec<u8>, bool) {
    let mut input: &[u8] = b"1 acquire deploy 77\n";
    let mut out = Vec::new(alloc);
    let mut err = Vec::new(alloc);
    let ended = lend(alloc, disk, "f", synced, &mut input, &mut out, &mut err).is_ok();
    (out, ended)
}

// The first sync is that of the file when it is opened, and the last one that when it is closed.
#[test]
fn what_serve_told_is_left(rt: HostRuntime) -> Result<(), Fail> {
    let alloc = rt.alloc();
    for (syncs, told) in TOLD {
        let mut disk = SystemDisk::over(calls_of(alloc, syncs)?);
        let (out, ended) = serve_on(alloc, &mut disk, true);
        assert!(rt; ended == (syncs == 4), "with {syncs} syncs");
        let (answers, journal) = SERVED[told];
        assert!(rt; out.as_slice() == answers.as_bytes(), "with {syncs} syncs");
        let left = bytes_of(alloc, &disk.into_calls().after_loss()?, "j")?;
        assert!(rt; left.as_slice() == journal.as_bytes(), "with {syncs} syncs");
    }
    Ok(())
}

// What is to outlive the process only is kept here as often as syncs succeed.
#[test]
fn what_serve_told_without_syncs_is_left(rt: HostRuntime) -> Result<(), Fail> {
    let alloc = rt.alloc();
    for (kept, told) in TOLD {
        let mut disk = SystemDisk::over(KeepingCalls::new(calls_of(alloc, kept)?));
        let (out, ended) = serve_on(alloc, &mut disk, false);
        assert!(rt; ended == (kept == 4), "kept {kept} times");
        let (answers, journal) = SERVED[told];
        assert!(rt; out.as_slice() == answers.as_bytes(), "kept {kept} times");
        let left = bytes_of(alloc, &disk.into_calls().after_end()?, "j")?;
        assert!(rt; left.as_slice() == journal.as_bytes(), "kept {kept} times");
    }
    Ok(())
}

#[test]
fn what_was_told_of_locks_is_left(rt: HostRuntime) -> Result<(), Fail> {
    let alloc = rt.alloc();
    for (syncs, answers, segment) in LOCKS_TOLD {
        let mut disk = SystemDisk::over(calls_of(alloc, syncs)?);
        let (out, ended) = lend_on(alloc, &mut disk, true);
        assert!(rt; ended == (syncs == 3), "with {syncs} syncs");
        assert!(rt; out.as_slice() == answers.as_bytes(), "with {syncs} syncs");
        let left = disk.into_calls().after_loss()?;
        match segment {
            Some(text) => {
                let has = bytes_of(alloc, &left, "f/0000000001.ring")?;
                assert!(rt; has.as_slice() == text.as_bytes(), "with {syncs} syncs");
            }
            None => assert!(rt; left.open("f/0000000001.ring").is_err()),
        }
    }
    Ok(())
}

#[test]
fn what_was_told_of_locks_without_syncs_is_left(rt: HostRuntime) -> Result<(), Fail> {
    let alloc = rt.alloc();
    for (kept, answers, segment) in LOCKS_TOLD {
        let mut disk = SystemDisk::over(KeepingCalls::new(calls_of(alloc, kept)?));
        let (out, ended) = lend_on(alloc, &mut disk, false);
        assert!(rt; ended == (kept == 3), "kept {kept} times");
        assert!(rt; out.as_slice() == answers.as_bytes(), "kept {kept} times");
        let left = disk.into_calls().after_end()?;
        match segment {
            Some(text) => {
                let has = bytes_of(alloc, &left, "f/0000000001.ring")?;
                assert!(rt; has.as_slice() == text.as_bytes(), "kept {kept} times");
            }
            None => assert!(rt; left.open("f/0000000001.ring").is_err()),
        }
    }
    Ok(())
}
