//! The command `repairs`: many repairs of rings, counted.
//!
//! It takes any disk and any writer. The command line itself is the matter of `command_line`.
#![tactic(auto)]

mod files;
mod pictures;
pub mod repairs;
mod studies;
mod tables;
