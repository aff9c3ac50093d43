//! Locks of a fixed list that answer the lines of clients, segment by segment; and the laws of such locks with a journal.
#![tactic(auto)]

pub mod laws;
mod lines;
mod segment;
mod segmented;
mod service;
mod stating;
mod telling;

pub use lock_journal::Terms;
pub use service::LockService;
