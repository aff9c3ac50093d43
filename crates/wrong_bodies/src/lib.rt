//! Wrong bodies of the public calls of the lower crates. Each calls the real function with something wrong, or spoils
//! its answer, and its contract says that the result does not meet the clause that the real one promises. So the
//! clause refuses it at every input that the `requires` allows.
#![tactic(auto)]

pub mod book;
pub mod chains;
pub mod check;
pub mod groups;
pub mod histories;
mod numbers;
pub mod readers;
pub mod replay;
pub mod saved;
pub mod settle;
pub mod settling;
pub mod state;
pub mod told;
