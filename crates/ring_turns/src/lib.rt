//! Turns: each client has one machine of its ring, and takes its passes one turn at a time.
#![tactic(auto)]

mod desks;
mod spared;
mod turns;

pub use spared::{PASS_ON, Spared};
pub use turns::{TooFewMachines, Turn, Turns};
