//! The command `picture --animate`: one ring of a saved history in motion.
//!
//! It takes any disk, reader and writer, and says the content of files before and after, by their names. The command line itself
//! is the matter of `command_line`.
#![tactic(auto)]

mod drawings;
pub mod moving;
mod refusals;

pub use drawings::{MOST_EVENTS, MOST_MACHINES};
pub use refusals::Refusal;
