//! The texts of repairs that were measured: a line for each size, and a line for each number that occurred; and the same figures as
//! a table and as an object. It knows nothing of rings.
#![tactic(auto)]

mod columns;
mod fields;
mod lines;
mod objects;
mod tables;

pub use crate::columns::Row;
pub use crate::lines::{Figures, Head, put_counts, put_figures};
pub use crate::objects::object_line;
pub use crate::tables::{heading, record};
