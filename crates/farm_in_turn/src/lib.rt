//! A farm on one thread: the actions of all seats of a ring in turns, each drawn, so that a run can be repeated.
#![tactic(auto)]

mod farms;
mod parts;
mod rings;
mod turns;

pub use farms::run_in_turn;
