//! A ring that clients on many threads share: one lock, a seat for each client, and an exact end. Questions of
//! clients about the ring's state are answered beside the lock.
#![tactic(auto)]

mod closing;
mod front;
mod groups;
mod laws;
mod locked;
mod names;
mod rings;
mod seats;
mod shown;
mod summary;

pub use closing::{CloseFault, CloseReason, Closed};
pub use front::Front;
pub use laws::{calls_have_one_answer, groups_have_one_answer};
pub use locked::Locked;
pub use names::Name;
pub use ring_logs::Log;
pub use ring_model::Entry;
pub use rings::{Draft, DraftFault, OpenFault, OpenReason, Ring};
pub use seats::Seat;
