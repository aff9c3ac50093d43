//! The repairs of a saved history: what came of each of its faults, and the lines that report it.
#![tactic(auto)]

mod laws;
mod lines;
mod repairs;
mod spreads;

pub use laws::repairs_are_bounded;
pub use lines::repairs_lines;
pub use repairs::{Repair, repairs_of};
pub use spreads::{Spread, spread_over};
