//! Repairs of rings in which drawn groups of privileged machines move at once, and how many passes they take.
#![tactic(auto)]

mod drawing;
mod groups;
pub mod laws;
mod repairing;

pub use repairing::repair_in_groups;
