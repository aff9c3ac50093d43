//! Writers that stop after a while, and writers that take little at a time; and requests that mark where memory ends.

use std::alloc::Global;
use std::io::{self, ErrorKind, Write};

/// How a writer answers once, when its room is used up; from then on it takes all.
#[derive(Clone, Copy)]
pub(crate) enum Refusal {
    Fails,
    Interrupted,
    TakesNone,
}

pub(crate) const REFUSALS: [Refusal; 3] = [
    Refusal::Fails,
    Refusal::Interrupted,
    Refusal::TakesNone,
];

/// A writer with room for a number of bytes that takes at most a number of them a call.
#[derive(Drop)]
pub(crate) struct Scripted {
    pub(crate) held: Vec<u8>,
    pub(crate) room: usize,
    /// How often it was asked to take bytes.
    pub(crate) asked: usize,
    at_most: usize,
    then: Refusal,
}

impl Write for Scripted {
    fn write(&mut self, bytes: &[u8]) -> io::Result<usize> {
        self.asked = self.asked.saturating_add(1);
        if self.room == 0 {
            self.room = usize::MAX;
            return match self.then {
                Refusal::Fails => Err(io::Error::from(ErrorKind::BrokenPipe)),
                Refusal::Interrupted => Err(io::Error::from(ErrorKind::Interrupted)),
                Refusal::TakesNone => Ok(0),
            };
        }
        let taken = bytes.len().min(self.room).min(self.at_most);
        self.held.extend_from_slice(&bytes[..taken])?;
        self.room = self.room.saturating_sub(taken);
        Ok(taken)
    }

    fn flush(&mut self) -> io::Result<()> {
        Err(io::Error::from(ErrorKind::Unsupported))
    }
}

pub(crate) fn writer_with(alloc: Global, room: usize, at_most: usize, then: Refusal) -> Scripted {
    Scripted {
        held: Vec::new(alloc),
        room,
        asked: 0,
        at_most,
        then,
    }
}

/// A request for this many bytes, and one for a byte more, enclose calls that take no memory: `trials/refused_memory.sh`
/// refuses each request from the one to the other.
const MARK: usize = 1_234_567;

pub(crate) fn memory_ends(alloc: Global) {
    let _ = "x".repeat(alloc, MARK);
}

pub(crate) fn memory_is_back(alloc: Global) {
    let _ = "x".repeat(alloc, MARK + 1);
}
