//! Wrong bodies of the crates above the book: each calls a real function with something wrong, or spoils its answer, and its
//! contract says that the result does not meet the clause that the real one promises.
#![tactic(auto)]

pub mod calls;
pub mod closings;
pub mod desks;
pub mod farms;
pub mod groups;
pub mod locks;
pub mod looks;
pub mod openings;
pub mod seats;
pub mod settings;
pub mod turns;
