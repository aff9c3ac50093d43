//! Files that are to be made, and are those of a standard descriptor.

use disks::{Disk, FolderEntry, MemoryDisk};
use std::io::{self, Cursor, ErrorKind};
use test_files::no_files;
use tool_parts::faults::ToolError;
use tool_parts::reading::keep_apart;

/// Files in memory. The answers about standard descriptors are the same for each name.
#[derive(Drop)]
struct Streams {
    files: MemoryDisk,
    /// Whether a file is one of a standard descriptor; none if it cannot be made.
    is_standard: Option<bool>,
    is_one_file: bool,
}

impl Disk for Streams {
    type Reader = Cursor<Vec<u8>>;

    type New = Vec<u8>;

    type Grown = Vec<u8>;

    type Hold = ();

    fn open(&self, name: &str) -> io::Result<Cursor<Vec<u8>>> {
        self.files.open(name)
    }

    fn is_one_file(&self, one: &str, _other: &str) -> io::Result<bool> {
        Ok(self.is_one_file && one == "/dev/stdin")
    }

    fn leads_into(&self, folder: &str, name: &str) -> io::Result<bool> {
        self.files.leads_into(folder, name)
    }

    fn is_standard(&self, _name: &str) -> io::Result<bool> {
        match self.is_standard {
            Some(is_standard) => Ok(is_standard),
            None => Err(io::Error::from(ErrorKind::NotFound)),
        }
    }

    fn list(&self, folder: &str) -> io::Result<Vec<FolderEntry>> {
        self.files.list(folder)
    }

    fn make(&mut self, name: &str) -> io::Result<Vec<u8>> {
        self.files.make(name)
    }

    fn finish(&mut self, made: Vec<u8>, name: &str) -> io::Result<()> {
        self.files.finish(made, name)
    }

    fn create(&mut self, name: &str) -> io::Result<bool> {
        self.files.create(name)
    }

    fn discard(&mut self, name: &str) -> io::Result<bool> {
        self.files.discard(name)
    }

    fn lock(&mut self, name: &str) -> io::Result<()> {
        self.files.lock(name)
    }

    fn hold(&mut self, name: &str) -> io::Result<()> {
        self.files.hold(name)
    }

    fn grow(&mut self, name: &str, synced: bool) -> io::Result<Vec<u8>> {
        self.files.grow(name, synced)
    }

    fn close_synced(&mut self, grown: Vec<u8>, name: &str) -> Result<(), Vec<u8>> {
        self.files.close_synced(grown, name)
    }

    fn abandon(&mut self, grown: Vec<u8>, name: String) {
        self.files.abandon(grown, name);
    }
}

#[test]
fn a_file_of_a_standard_stream_is_kept_apart(rt: HostRuntime) {
    let mut disk = Streams {
        files: no_files(rt.alloc()),
        is_standard: Some(false),
        is_one_file: true,
    };
    assert!(rt; keep_apart(&disk, "-", "h").is_ok());
    assert!(rt; keep_apart(&disk, "s", "h").is_ok());
    disk.is_standard = Some(true);
    assert!(rt; matches!(keep_apart(&disk, "-", "h"), Err(ToolError::SameFile("h"))));
    assert!(rt; matches!(keep_apart(&disk, "s", "h"), Err(ToolError::Stream("h"))));
    disk.is_one_file = false;
    assert!(rt; matches!(keep_apart(&disk, "-", "h"), Err(ToolError::Stream("h"))));
    disk.is_standard = None;
    for read in ["-", "s"] {
        assert!(rt; matches!(keep_apart(&disk, read, "h"), Err(ToolError::Save("h"))));
    }
}
