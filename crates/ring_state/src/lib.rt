//! Sizes and states of rings: a state is a list of values below K, kept in one byte for each machine where K is at most
//! 256, and in two otherwise.
#![tactic(auto)]

mod cells;
mod packed;
mod sizes;
mod states;

pub use sizes::{Params, ParamsError};
pub use states::{RingState, StateError};
