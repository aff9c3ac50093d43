//! The commands `serve` and `locks` as each test calls them. They have no clause: so no test loads the statements about the commands,
//! which is dear, but these two functions.

use disks::Disk;
use lock_commands::locks;
use serve_commands::serve;
use std::alloc::Global;
use std::io::{Read, Write};
use tool_parts::faults::ToolError;
use tool_parts::requests::{LocksWords, ServeWords};

/// Serves rings from a history or with a journal, and answers how that ends.
pub fn serve<'a, D: Disk, I: Read, W: Write>(
    alloc: Global,
    disk: &mut D,
    words: &ServeWords<'a>,
    input: &mut I,
    out: &mut W,
    err: &mut Vec<u8>,
) -> Result<(), ToolError<'a>> {
    serve::run(alloc, disk, words, input, out, err)
}

/// The words for rings from a history or with a journal.
pub fn serve_words<'a>(
    history: Option<&'a str>,
    journal: Option<&'a str>,
    synced: bool,
) -> ServeWords<'a> {
    ServeWords {
        history,
        journal,
        segment: 1_000_000,
        synced,
        faults: false,
        saves: None,
        strict: false,
    }
}

/// Lends the lock `deploy` of a folder, and answers how that ends. No sums are expected of it.
pub fn lend<'a, D: Disk, I: Read, W: Write>(
    alloc: Global,
    disk: &mut D,
    folder: &'a str,
    synced: bool,
    input: &mut I,
    out: &mut W,
    err: &mut Vec<u8>,
) -> Result<(), ToolError<'a>> {
    let words = LocksWords {
        journal: folder,
        locks: Some("deploy:3"),
        most_names: 1024,
        holders: None,
        segment: 100,
        synced,
        faults: false,
        strict: false,
    };
    locks::run(alloc, disk, &words, input, out, err)
}
