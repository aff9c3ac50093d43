//! The life of locks over one folder: their starts, their runs, each ended at any moment, and what all runs together are. There is
//! no code: each law is the contract of a function that does nothing.
#![tactic(auto)]

pub mod laws;
