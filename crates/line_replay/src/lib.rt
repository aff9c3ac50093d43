//! A start does the noted lines of a segment again: what comes back of whatever was kept of its notes, cut anywhere.
#![tactic(auto)]

mod following;
pub mod laws;
mod machine;
mod noting;
mod replaying;

pub use machine::DoesLines;
pub use noting::note_line;
pub use replaying::{Replay, ReplayError, redo_lines};
