//! The files of a folder of locks with a pool, judged by what their lines say of names: how each line is read for the judge of
//! `name_check`, and file after file.
#![tactic(auto)]

mod begin;
mod calls;
mod faults;
mod judging;
pub mod laws;
mod lines;
mod rings;
mod starts;

pub use faults::{Cause, JudgeError};
pub use judging::FolderJudge;
