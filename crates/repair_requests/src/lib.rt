//! What words can ask of the command `repairs`, as plain data, and why it refuses.
#![tactic(auto)]

mod refusals;
mod words;

pub use refusals::Refusal;
pub use words::{Made, RepairsWords};
