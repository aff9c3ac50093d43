//! The commands about a saved text: `check`, which also takes a folder of segments, `check --all`, `report`, `picture` and `upgrade`.
//!
//! They take any disk, reader and writer, and say the content of files before and after, by their names. The command line itself
//! is the matter of `command_line`: nothing here knows of it, so that these parts are proved, and tried on wrong bodies, without it.
#![tactic(auto)]

pub mod check;
pub mod check_all;
pub mod names;
pub mod picture;
pub mod report;
pub mod upgrade;
