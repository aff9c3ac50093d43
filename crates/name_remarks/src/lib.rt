//! The remarks in which a folder of locks keeps which ring each name has.
#![tactic(auto)]

pub mod laws;
mod reading;
mod recorded;
mod remarks;
mod writing;

pub use reading::read_name_remark;
pub use recorded::{Bound, NotTaken, Recorded};
pub use remarks::{Misspelled, NameRemark};
pub use writing::put_name_remark;
