//! Which name a ring of a pool had at each of its grants, by the remarks of a folder's files.
//!
//! `specs/Said.antt` says which bindings lines say, `specs/Kept.antt` which of its bindings a ring had at a grant.
#![tactic(auto)]

mod bound;
pub mod laws;
mod reading;
mod ring_names;

pub use bound::Bound;
pub use reading::read_bindings;
pub use ring_names::{RingNames, names_of_rings};
