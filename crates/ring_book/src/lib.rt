//! A ring on one thread, with its history: each call is one event, a group pass one for each of its machines, and
//! every number that the book reports is a function of its events.
#![tactic(auto)]

mod books;
mod events;
mod grants;
pub mod laws;
mod open_books;
mod resources;
mod tallies;
mod wholes;

pub use books::{Book, GroupError, GroupReceipt, HistoryError, NotMade};
pub use events::BookError;
pub use grants::GrantBook;
pub use resources::{Idle, Resource, Till};
pub use ring_model::{Entry, Event, Op, Receipt, Reply, Survey};
