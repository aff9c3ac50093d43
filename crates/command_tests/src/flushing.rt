//! Outputs whose flush fails: what was written stays, no more is read, and nothing more is reported.

use crate::commands::{lend, serve, serve_words};
use disks::MemoryDisk;
use folder_commands::recover;
use ring_check::Kind;
use std::alloc::Global;
use std::io::{self, ErrorKind, Write};
use std::process::Abort;
use std::test::Fail;
use test_files::{Giver, bytes_of, make_folder, no_files, put};
use text_commands::check_all::check_all_bytes;
use text_commands::picture;
use tool_parts::faults::ToolError;
use tool_parts::requests::{PictureWords, RecoverWords, ServeWords};

/// A writer into memory, which can be flushed so often, and then no more.
#[derive(Drop)]
struct Stuck {
    text: Vec<u8>,
    flushes: u32,
}

impl Write for Stuck {
    fn write(&mut self, bytes: &[u8]) -> io::Result<usize> {
        self.text.extend_from_slice(bytes)?;
        Ok(bytes.len())
    }

    fn flush(&mut self) -> io::Result<()> {
        if self.flushes == 0 {
            return Err(io::Error::from(ErrorKind::BrokenPipe));
        }
        self.flushes -= 1;
        Ok(())
    }
}

/// A writer that can be flushed so often.
fn stuck_after(alloc: Global, flushes: u32) -> Stuck {
    Stuck {
        text: Vec::new(alloc),
        flushes,
    }
}

/// A saved text, and the journal that begins with it.
const SAVED: &str = "ringfarm 2\nring 0 3 3\nstart 0 0 0\nend 0\ndone 1\n";

const BEGUN: &str = "ringjournal 1\nringfarm 2\nring 0 3 3\nstart 0 0 0\nend 0\ndone 1\n";

/// The first segment of one lock, as it begins.
const SEGMENT: &str =
    "ringsegment 1 1 1\nbehind 0000000000000000000000000000000000000000000000000000000000000000\nbase 0 0 0 0\nringjournal 1\nringfarm 2\nring 0 3 3\nstart 0 0 0\nend 0\ndone 1\n";

/// Calls, of which a reader gives a line each time.
const CALLS: &[u8] = b"pass 0 0 0 5\npass 0 0 1 7\npass 0 0 2 1\n";

/// How often the output is flushed, how many bytes of the calls are read then, what has been written, and the notes of that.
const SERVED: [(u32, usize, &str, &str); 2] = [
    (0, 13, "granted 1 5\n", "0 p 0 0 5 g 1 5\n"),
    (
        1,
        26,
        "granted 1 5\ngranted 2 12\n",
        "0 p 0 0 5 g 1 5\n0 p 0 1 7 g 2 12\n",
    ),
];

/// Compares what the file of this name holds: how it began, and then these notes.
fn expect_noted(
    rt: &impl Abort,
    disk: &MemoryDisk,
    name: &str,
    begun: &str,
    noted: &str,
) -> io::Result<()> {
    let mut text = Vec::new(disk.alloc);
    text.extend_from_slice(begun.as_bytes())?;
    text.extend_from_slice(noted.as_bytes())?;
    let held = bytes_of(disk.alloc, disk, name)?;
    assert!(rt; held.as_slice() == text.as_slice());
    Ok(())
}

/// Serves the calls on these words, to an output that can be flushed so often, and compares what was read and written.
fn expect_stuck(
    rt: &impl Abort,
    disk: &mut MemoryDisk,
    words: &ServeWords<'_>,
    flushes: u32,
    read: usize,
    written: &str,
) {
    let alloc = disk.alloc;
    let mut input = Giver {
        at_most: 13,
        ..Giver::new(CALLS)
    };
    let mut out = stuck_after(alloc, flushes);
    let mut err = Vec::new(alloc);
    let ended = serve(alloc, disk, words, &mut input, &mut out, &mut err);
    assert!(rt; matches!(ended, Err(ToolError::Write)));
    assert!(rt; out.text.as_slice() == written.as_bytes() && err.is_empty());
    assert!(rt; input.given == read);
}

#[test]
fn serve_ends_where_its_output_is_stuck(rt: HostRuntime) -> Result<(), Fail> {
    for (flushes, read, written, _) in SERVED {
        let mut disk = no_files(rt.alloc());
        put(&mut disk, "s", SAVED.as_bytes())?;
        let plain = serve_words(Some("s"), None, false);
        expect_stuck(&rt, &mut disk, &plain, flushes, read, written);
    }
    Ok(())
}

#[test]
fn serve_leaves_its_journal_where_its_output_is_stuck(rt: HostRuntime) -> Result<(), Fail> {
    for (flushes, read, written, notes) in SERVED {
        let mut disk = no_files(rt.alloc());
        put(&mut disk, "j", BEGUN.as_bytes())?;
        let noted = serve_words(None, Some("j"), false);
        expect_stuck(&rt, &mut disk, &noted, flushes, read, written);
        expect_noted(&rt, &disk, "j", BEGUN, notes)?;
    }
    Ok(())
}

#[test]
fn locks_end_where_their_output_is_stuck(rt: HostRuntime) -> Result<(), Fail> {
    let alloc = rt.alloc();
    for (flushes, read, written) in [
        (0, 20, "1 granted deploy 1\n"),
        (1, 40, "1 granted deploy 1\n2 waiting deploy 0\n"),
    ] {
        let mut disk = no_files(alloc);
        make_folder(&mut disk, "j")?;
        let mut input = Giver {
            at_most: 20,
            ..Giver::new(b"1 acquire deploy 77\n2 acquire deploy 78\n1 release deploy 1\n")
        };
        let mut out = stuck_after(alloc, flushes);
        let mut err = Vec::new(alloc);
        let ended = lend(alloc, &mut disk, "j", false, &mut input, &mut out, &mut err);
        assert!(rt; matches!(ended, Err(ToolError::Write)));
        assert!(rt; out.text.as_slice() == written.as_bytes() && err.is_empty());
        assert!(rt; input.given == read);
        let notes = "0 p 0 0 77 g 1 77\n";
        expect_noted(&rt, &disk, "j/0000000001.ring", SEGMENT, notes)?;
    }
    Ok(())
}

// The bad lines are written in both runs; the refusal is that of the output where that is stuck.
#[test]
fn bad_lines_are_told_to_an_output_that_is_stuck(rt: HostRuntime) {
    let bytes = b"ringfarm 2\nring 0 3 3\nstart 0 0 0\nend 1\ndone 1\n";
    let line = b"line 4: count: 1, should be 0\n";
    let mut out = stuck_after(rt.alloc(), 0);
    let refused = check_all_bytes(rt.alloc(), bytes, &mut out);
    assert!(rt; matches!(refused, Err(ToolError::Write)));
    assert!(rt; out.text.as_slice() == line.as_slice());
    let mut out = stuck_after(rt.alloc(), 1);
    let refused = check_all_bytes(rt.alloc(), bytes, &mut out);
    assert!(rt; matches!(refused, Err(ToolError::Bad(4, Kind::Count))));
    assert!(rt; out.text.as_slice() == line.as_slice());
}

#[test]
fn no_sums_are_told_of_what_is_recovered_to_an_output_that_is_stuck(
    rt: HostRuntime,
) -> Result<(), Fail> {
    let words = RecoverWords {
        file: "j",
        new: "-",
        salvage: false,
    };
    let sums = "legal rings 1 events 0 granted 0 corrupted 0 surveys 0\n";
    for (flushes, told) in [(0, ""), (1, sums)] {
        let mut disk = no_files(rt.alloc());
        put(&mut disk, "j", BEGUN.as_bytes())?;
        let mut input: &[u8] = b"";
        let mut out = stuck_after(rt.alloc(), flushes);
        let mut err = Vec::new(rt.alloc());
        let done = recover::run(
            rt.alloc(),
            &mut disk,
            &words,
            &mut input,
            &mut out,
            &mut err,
        );
        assert!(rt; done.is_ok() == (flushes > 0));
        assert!(rt; done.is_ok() || matches!(done, Err(ToolError::Write)));
        assert!(rt; out.text.as_slice() == SAVED.as_bytes());
        assert!(rt; err.as_slice() == told.as_bytes());
    }
    Ok(())
}

// The picture is the one of an output that is not stuck.
#[test]
fn no_sums_are_told_of_a_picture_on_an_output_that_is_stuck(rt: HostRuntime) -> Result<(), Fail> {
    let alloc = rt.alloc();
    let words = PictureWords {
        file: "s",
        picture: "-",
        ring: 0,
        from: 0,
        events: 10,
    };
    let mut disk = no_files(alloc);
    put(&mut disk, "s", SAVED.as_bytes())?;
    let mut input: &[u8] = b"";
    let mut drawn = Vec::new(alloc);
    let mut err = Vec::new(alloc);
    let done = picture::run(alloc, &mut disk, &words, &mut input, &mut drawn, &mut err);
    assert!(rt; done.is_ok() && drawn.starts_with(b"<svg "));
    let sums = b"legal rings 1 events 0 granted 0 corrupted 0 surveys 0\n";
    assert!(rt; err.as_slice() == sums.as_slice());
    err.clear();
    let mut out = stuck_after(alloc, 0);
    let refused = picture::run(alloc, &mut disk, &words, &mut input, &mut out, &mut err);
    assert!(rt; matches!(refused, Err(ToolError::Write)));
    assert!(rt; out.text.as_slice() == drawn.as_slice() && err.is_empty());
    Ok(())
}
