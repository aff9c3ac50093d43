//! What the machine with names does, the judge of names accepts. Neither knows the other: this is the only crate above both.
#![tactic(auto)]

pub mod laws;
