//! Segments whose files are written.

use crate::digested::Digested;

/// How lines are served in segments.
#[derive(Clone, Copy)]
pub struct SegmentRules<'n> {
    /// The folder of the segments.
    pub folder: &'n str,
    /// Whether notes are put on the disk before their answers leave.
    pub synced: bool,
}

/// The segment that is being written: its number, from 1, the name of its file, and the writer of the file.
#[derive(Drop)]
pub struct OpenSegment<W> {
    pub number: u64,
    pub name: String,
    pub writer: Digested<W>,
}
