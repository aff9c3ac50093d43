//! The content of a saved text, as it is read.

ghost use Rattle.std.specs.Prelude.{◌≡◌, ◌<◌, vec_len};

/// One event line of a saved text.
#[derive(Clone, Copy, Debug, PartialEq, Eq)]
pub enum SavedEvent {
    /// A pass that was granted: its place among the grants, from 1, and its answer.
    Granted {
        seat: u32,
        machine: u32,
        order: u64,
        number: u64,
        result: u64,
    },
    /// A pass at a machine that was not privileged.
    Refused {
        seat: u32,
        machine: u32,
        order: u64,
    },
    /// A pass as a member of a group, with `left` members after it, described as a granted pass is.
    /// No text of the first version has one.
    Member {
        seat: u32,
        machine: u32,
        order: u64,
        left: u32,
        number: u64,
        result: u64,
    },
    /// A corruption: the value that was written and the one before it.
    Corrupted {
        seat: u32,
        machine: u32,
        value: u32,
        old: u32,
    },
}

/// One survey line of a saved text: the survey of a seat after `position` events.
#[derive(Clone, Copy, Debug, PartialEq, Eq)]
pub struct SavedSurvey {
    pub seat: u32,
    pub position: u64,
    pub privileged: u32,
    pub first: u32,
    pub calm: u64,
    pub rest: u64,
}

/// One block of a saved text: a ring with its start, its events and its surveys.
/// `n` is at least 1, and `start` has exactly `n` values.
#[derive(Drop)]
pub struct SavedRing {
    /// The place of the ring in its farm, as the text says it.
    pub index: u32,
    pub n: u32,
    pub k: u32,
    pub start: Vec<u32>,
    pub events: Vec<SavedEvent>,
    /// The number of events, as the text says it.
    pub events_said: u64,
    pub surveys: Vec<SavedSurvey>,
    ghost some: { 0 < n },
    ghost has_n: { vec_len start ≡ n },
}

/// A saved text: the version of its grammar, its blocks, and the number of them as the text says it.
#[derive(Drop)]
pub struct Saved {
    /// [`FIRST_VERSION`](crate::FIRST_VERSION) to [`LATEST_VERSION`](crate::LATEST_VERSION), where it was read.
    pub version: u32,
    pub rings: Vec<SavedRing>,
    pub rings_said: u32,
}

/// The content of a ring's first line.
#[derive(Clone, Copy)]
pub struct RingHeader {
    pub index: u32,
    pub n: u32,
    pub k: u32,
}
