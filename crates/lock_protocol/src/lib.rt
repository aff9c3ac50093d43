//! The lines by which clients ask for locks and are answered, and the names of locks.
#![tactic(auto)]

mod answers;
mod inputs;
pub mod laws;
mod name_reading;
mod names;
mod reading;

pub use answers::{Denial, put_answer, put_denial, put_names};
pub use inputs::{Ask, Fault, Input};
pub use name_reading::{MOST_NAME, is_name, lock_name};
pub use names::{LockNames, NameFault};
pub use reading::read_input;
