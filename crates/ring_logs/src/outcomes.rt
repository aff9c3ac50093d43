//! The outcome of a ring over a till.

use crate::logs::Log;
use ring_book::{Book, Till};

/// One ring's outcome: its book, and the log of each seat by number.
#[derive(Drop)]
pub struct RingOutcome {
    pub book: Book<Till>,
    pub logs: Vec<Log>,
}
