//! A ring over a till whose history has no end: a segment in memory, and its base; and the same
//! with the file of a chain that the segment is, and with a journal, for a caller who keeps the
//! files itself. Nothing here opens a file: texts are handed out.
#![tactic(auto)]

pub mod file_laws;
mod files;
mod fills;
pub mod laws;
mod places;
mod rings;
mod saves;
mod texts;

pub use files::{FileRing, Looked};
pub use places::FilePlace;
pub use rings::{EndlessRing, NextError, Uncut};
