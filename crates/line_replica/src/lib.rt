//! A replica of a service that answers lines: what has a number of its own is done once, however often it is sent; and all that
//! is answered goes into a running digest.
#![tactic(auto)]

mod keys;
pub mod laws;
mod lines;
mod numbered;
mod reading;
mod replica;
mod restorable;
mod running;
mod segmented;
mod stating;

pub use replica::Replica;
pub use restorable::Restorable;
pub use stating::HasState;
