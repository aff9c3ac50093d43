//! The records of a journal's lines.

use saved_history::{SavedEvent, SavedSurvey};

/// A call with its reply, as a saved text has it.
#[derive(Clone, Copy)]
pub enum Call {
    Event(SavedEvent),
    Survey(SavedSurvey),
}

/// A call of one of the rings.
#[derive(Clone, Copy)]
pub struct JournalLine {
    /// The ring's number, from 0.
    pub ring: u32,
    pub call: Call,
}
