//! Trials of repairs that threads do: each a part of them, whose histograms are joined in the end.
#![tactic(auto)]

mod advance;
mod counts;
mod shares;

pub use advance::advance_on;
pub use counts::{THREAD_LIMIT, ThreadCount};
