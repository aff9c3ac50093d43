//! How far a ring is from being settled: the lead, the rest and its bound, and passes along a list of
//! choices, and group moves. No call takes memory.
#![tactic(auto)]

mod groups;
mod potential;
mod runs;

pub use groups::{least_left_out, machine_in_turn, move_group};
pub use potential::{bound, is_settled, lead, rest, survey_here};
pub use runs::follow;
