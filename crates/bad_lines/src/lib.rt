//! All bad lines of a saved text, each with what is there and what should be: the one-thread ring's own answer.
//!
//! The table of `ring_check` judges each line. After a bad one the ring continues with its own reply, so that one mistake is reported
//! once.
#![tactic(auto)]

mod blocks;
mod events;
mod laws;
mod lines;
mod put;
mod replay;
mod surveys;
mod wrongs;

pub use laws::{first_is_first, none_is_legal};
pub use lines::bad_lines;
pub use put::put_bad_lines;
pub use wrongs::{Bad, BadLine, Wrong};
