//! A book's history that is played again, whatever its resource: whether its clients' logs fit it.
#![tactic(auto)]

mod fitting;
mod gathering;
mod judge;
mod logs;
mod outcomes;
mod placing;

pub use fitting::{logs_fit, surveys_fit};
pub use judge::calm_behind;
pub use logs::{ClientLog, Log};
pub use outcomes::RingOutcome;
