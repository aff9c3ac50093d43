//! The states of a saved history, one after each event, as rows: in words, as CSV, or as JSON.
#![tactic(auto)]

mod calls;
mod cells;
mod form;
mod rows;
mod tables;

pub use calls::privileged_of;
pub use cells::{Cell, put_cells};
pub use form::Form;
pub use tables::{StatesFault, write_ring, write_states};
