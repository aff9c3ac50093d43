//! Notes of lines: in a journal, before all that a line did, there is the line itself, with how many lines were noted up to it
//! and a sum of both. A segment begins with its version and that count.
#![tactic(auto)]

mod beginnings;
pub mod laws;
mod notes;
mod sums;

pub use beginnings::{Beginning, put_beginning, read_beginning};
pub use notes::{Note, put_note, read_note};
pub use sums::sum;
