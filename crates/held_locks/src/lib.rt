//! Locks that programs hold, over rings: clients that wait are in a queue, and when the lock is free the first privileged machine
//! of its ring passes on behalf of the client at its head.
#![tactic(auto)]

mod answers;
mod asks;
mod chains;
mod cuts;
mod growing;
mod handing;
mod holds;
pub mod laws;
mod leaving;
mod locks;
mod marks;
mod opened;
mod parts;
mod queue;
mod waits;

pub use answers::{Answer, Answers, HoldEnd, Holder, Left, OneAnswer, Refusal, Stats, Waiter};
pub use asks::OneAsk;
pub use handing::Handover;
pub use locks::{LOCK_LIMIT, Locks};
