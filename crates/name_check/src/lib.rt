//! The judge of names in a folder of locks with a pool: line by line, whether what a file's remarks say of names fits the
//! grants and the ends of holds between them.
#![tactic(auto)]

mod begin;
mod judge;
pub mod laws;
mod lines;
mod notes;
mod refusals;
mod scans;
mod table;
mod wrongs;

pub use begin::NotJudged;
pub use judge::Judge;
pub use lines::{Line, Ring};
pub use wrongs::{Refused, Wrong};
