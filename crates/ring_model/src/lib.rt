//! The definitions that every crate cites, of rings, moves, histories, surveys and logs, and the
//! laws of settlement over them; and a history without end, as a chain of segments: the numbers of
//! a segment counted with what came before it, and the laws of such chains.
#![tactic(auto)]

mod bases;
pub mod chain_laws;
mod events;
pub mod group_laws;
pub mod legal_histories;
pub mod limits;
pub mod lock_seats;
pub mod meanings;
pub mod plain;
pub mod repair_laws;
pub mod replay;
pub mod settlement;
mod tallies;

pub use bases::Base;
pub use events::{Entry, Event, Op, Receipt, Reply, Survey};
pub use tallies::Tally;
