//! The command line of the program, as `clap` reads it: from words to what they want.
#![tactic(auto)]

mod arguments;
mod fresh;
mod holds;
mod journals;
mod locks;
mod picture;
mod repairs;
mod report;
mod settings;
mod sizes;
mod states;
mod version;
mod words;

pub use version::VERSION;
pub use words::{StrictWords, Words, read_words};
