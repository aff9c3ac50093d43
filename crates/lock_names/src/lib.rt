//! Locks by any name, over the rings of `held_locks`: a name gets a ring with its first hold, and loses it with the last.
#![tactic(auto)]

mod asks;
mod growing;
mod handing;
pub mod laws;
mod leaving;
mod names;
mod replies;
mod restoring;
mod sizes;
mod starting;
mod table;

pub use growing::NotGrown;
pub use names::{Names, TOP_LIMIT};
pub use replies::{NameAnswers, NameAsked, Reply};
pub use restoring::NotRestored;
pub use sizes::{LEAST_POOL, wanted_pool};
pub use starting::NotBegun;
pub use table::Binding;
