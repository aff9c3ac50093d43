//! Many repairs of rings, each from a drawn start, under a daemon, and how many passes they took.
#![tactic(auto)]

mod daemons;
mod draws;
mod histograms;
pub mod laws;
pub mod limits;
mod parts;
mod repairing;
mod repairs;
mod rounds;
mod starts;
mod studies;
mod trials;

pub use daemons::Daemon;
pub use draws::{draw, generator};
pub use histograms::Histogram;
pub use parts::count_part;
pub use repairs::Repairs;
pub use rounds::{count_rounds, most_rounds};
pub use starts::Start;
pub use studies::{Study, StudyError};
pub use trials::longest_repair;
