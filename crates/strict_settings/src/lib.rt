//! Settings that are read strictly: a member that nothing reads is found, and refused by its name.
#![tactic(auto)]

mod members;
mod reading;
mod refusals;

pub use members::first_unread;
pub use reading::{strict_bytes, unread_of};
pub use refusals::StrictRefusal;
