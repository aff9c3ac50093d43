//! The ring of a block of a saved text, from event to event: its values with their measures, and its calm.
#![tactic(auto)]

mod steps;

pub use steps::{calm_step, gauge_of, step_on};
