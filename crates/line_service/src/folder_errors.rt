//! Why a folder is none of segments.

ghost use Rattle.line_service.specs.declared.folder_errors.FolderError.TheVariants.{OutOfMemory};
ghost use Rattle.std.specs.Prelude.{◌≡◌, ◌≤◌, length, take};
ghost use Rattle.line_service.specs.SegmentNumbers.{most_shown, shown};

use std::alloc::AllocError;
use std::error::Error;
use std::fmt;

/// How many bytes of a name are shown.
const MOST_SHOWN: usize = 255;

/// A name in a folder; of one that is longer than those of the system's files, the first 255 bytes.
#[derive(Clone, Copy)]
pub struct EntryName {
    pub bytes: [u8; MOST_SHOWN],
    /// How many of the bytes are the name's.
    pub length: usize,
}

impl EntryName {
    /// The name, as far as it is shown.
    pub(crate) fn of(name: &[u8]) -> EntryName
        ensures { shown result ≡ take most_shown name.now }
    {
        let mut bytes = [0; MOST_SHOWN];
        let length = name.len().min(MOST_SHOWN);
        for i in 0..length {
            bytes[i] = name[i];
        }
        EntryName { bytes, length }
    }
}

impl fmt::Display for EntryName {
    fn fmt<W: fmt::Write>(&self, f: &mut fmt::Formatter<W>) -> fmt::Result {
        let bytes = self.bytes.get(..self.length).unwrap_or(&[]);
        match str::from_utf8(bytes) {
            Ok(name) => f.write_str(name),
            // (a name that was cut within a character)
            Err(_) => f.write_str("a name that is too long"),
        }
    }
}

/// Why a folder is none of segments.
#[derive(Clone, Copy)]
pub enum FolderError {
    /// The names in it cannot be listed.
    Unlisted,
    /// The name is neither a segment's nor one that may be beside segments.
    Foreign(EntryName),
    /// The segment of this number is not a regular file.
    Irregular(u64),
    /// The segment of this number is missing, but one before it and one after it are there.
    Missing(u64),
    OutOfMemory,
}

impl From<AllocError> for FolderError {
    ghost from_gives = { λ _ e. e ≡ OutOfMemory };

    fn from(_error: AllocError) -> FolderError {
        FolderError::OutOfMemory
    }
}
