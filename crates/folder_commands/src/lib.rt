//! The commands that make a history of journals: `recover`, of one journal or the last segment of a folder, and `join`, of a whole
//! folder.
//!
//! They take any disk, reader and writer, and say the content of files before and after, by their names. The command line itself
//! is the matter of `command_line`: nothing here knows of it, so that these parts are proved, and tried on wrong bodies, without it.
#![tactic(auto)]

pub mod join;
mod last_file;
mod last_segment;
mod place_remarks;
pub mod recover;
