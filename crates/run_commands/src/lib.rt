//! The commands that run rings: `run`, from settings, on threads or in turns; `step`, one ring from its words; and `new`, a history without events.
//!
//! They take any disk, reader and writer, and say the content of files before and after, by their names. The command line itself
//! is the matter of `command_line`: nothing here knows of it, so that these parts are proved, and tried on wrong bodies, without it.
#![tactic(auto)]

pub mod fresh;
pub mod in_turn;
pub mod run;
pub mod step;
