//! The commands that print what a farm or a service begins with: `settings`, and `new` with drawn values.
//!
//! They take any writer. The command line itself is the matter of `command_line`.
#![tactic(auto)]

pub mod drawn;
mod rings;
pub mod settings;
mod texts;
