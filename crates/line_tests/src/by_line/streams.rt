//! A reader that gives a byte at a time, a writer and a journal whose room ends, and a writer that keeps all back until it is flushed.

use disks::Grow;
use std::io::{self, ErrorKind, Read, Write};

/// Gives one byte a call, and at the end fails or gives none.
#[derive(Drop)]
pub(super) struct Drops<'a> {
    pub(super) left: &'a [u8],
    pub(super) fails: bool,
}

impl Read for Drops<'_> {
    fn read(&mut self, buf: &mut [u8]) -> io::Result<usize> {
        if self.fails && self.left.is_empty() {
            return Err(io::Error::from(ErrorKind::BrokenPipe));
        }
        let count = buf.len().min(1);
        self.left.read(&mut buf[..count])
    }
}

/// Takes this many bytes, and fails at the next.
#[derive(Drop)]
pub(super) struct Narrow {
    pub(super) held: Vec<u8>,
    pub(super) room: usize,
}

impl Write for Narrow {
    fn write(&mut self, bytes: &[u8]) -> io::Result<usize> {
        if self.room == 0 {
            return Err(io::Error::from(ErrorKind::BrokenPipe));
        }
        let taken = bytes.len().min(self.room);
        self.held.extend_from_slice(&bytes[..taken])?;
        self.room = self.room.saturating_sub(taken);
        Ok(taken)
    }

    fn flush(&mut self) -> io::Result<()> {
        Ok(())
    }
}

impl Grow for Narrow {
    fn add(&mut self, bytes: &[u8]) -> Result<(), usize> {
        let taken = bytes.len().min(self.room);
        if self.held.extend_from_slice(&bytes[..taken]).is_err() {
            return Err(0);
        }
        self.room = self.room.saturating_sub(taken);
        if taken < bytes.len() {
            return Err(taken);
        }
        Ok(())
    }
}

/// Holds bytes only once it is flushed.
#[derive(Drop)]
pub(super) struct Late {
    pub(super) held: Vec<u8>,
    pub(super) waits: Vec<u8>,
}

impl Write for Late {
    fn write(&mut self, bytes: &[u8]) -> io::Result<usize> {
        self.waits.extend_from_slice(bytes)?;
        Ok(bytes.len())
    }

    fn flush(&mut self) -> io::Result<()> {
        self.held.extend_from_slice(self.waits.as_slice())?;
        self.waits.clear();
        Ok(())
    }
}
