//! Locks by any name that answer the lines of clients, segment by segment.
#![tactic(auto)]

mod growing;
pub mod growth_laws;
pub mod laws;
mod lines;
mod noting;
mod segment;
mod segmented;
mod service;
mod starting;
mod stating;
mod texts;

pub use service::{NameService, NameTerms};
pub use texts::named_text;
