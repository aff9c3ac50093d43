//! The states of a ring whose machines are chosen one after the other, as rows in words.
#![tactic(auto)]

mod asked;
mod rows;

pub use asked::Asked;
pub use rows::write_rows;
