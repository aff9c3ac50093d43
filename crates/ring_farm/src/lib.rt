//! A farm: several rings at once, each driven by one thread for each plan of the settings.
#![tactic(auto)]

mod farms;
mod faults;
mod gates;
mod laws;
mod outcomes;
mod rings;
mod rooms;
mod threads;
mod workers;

pub use farms::{run_farm, run_rings};
pub use faults::FarmError;
pub use gates::{Gate, Open};
pub use laws::{farms_are_lawful, logs_follow};
pub use outcomes::Outcome;
pub use ring_logs::{Log, RingOutcome};
