//! The command `serve`: rings that lines drive, with a journal in a file or in a folder of segments.
//!
//! They take any disk, reader and writer, and say the content of files before and after, by their names. The command line itself
//! is the matter of `command_line`: nothing here knows of it, so that these parts are proved, and tried on wrong bodies, without it.
#![tactic(auto)]

mod beginning;
mod resuming;
pub mod serve;
pub mod serve_folder;
