//! The commands on locks, once their words are read.
#![tactic(auto)]

pub mod any_names;
mod held_folder;
mod held_looks;
mod hold_lines;
mod hold_names;
mod holders;
pub mod holds;
pub mod lending;
pub mod locks;
mod refusals;
mod serving;
mod totals;
