//! Sets of machines, a bit for each: how many they are, which is the k-th, the next, the last; one machine at a time is put in or taken out. The privileged
//! machines of a ring are such a set, which follows each pass.
#![tactic(auto)]

mod bits;
mod machines;
mod privileges;
mod searches;

pub use machines::Machines;
pub use privileges::{pass, privileged_machines};
