//! The outcome of a farm.

use ring_logs::RingOutcome;

/// The outcomes of all rings, in the order of the settings.
#[derive(Drop)]
pub struct Outcome {
    pub rings: Vec<RingOutcome>,
}
