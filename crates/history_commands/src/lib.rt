//! The commands that show states and repairs: `states`, `report` with repairs, and `step` with states.
//!
//! They take any disk, reader and writer, and say the content of files before and after, by their names. The command line itself
//! is the matter of `command_line`: nothing here knows of it.
#![tactic(auto)]

pub mod repairs;
pub mod states;
pub mod step;
