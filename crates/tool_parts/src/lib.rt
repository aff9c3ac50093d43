//! What the commands of the program share: the requests, the refusals and their lines, lists, files
//! by the words that name them, folders of segments and their lock, where a text and its line go,
//! and how a run ends.
//!
//! They take any disk, reader and writer, and say the content of files before and after, by their
//! names. The command line itself is the matter of `command_line`, which makes the requests:
//! nothing here knows of it, so that these parts are proved, and tried on wrong bodies, without it.
#![tactic(auto)]

mod causes;
pub mod chain;
pub mod endings;
pub mod failing;
pub mod faults;
pub mod handing;
pub mod left;
pub mod legal;
mod line_ends;
pub mod lists;
pub mod locking;
pub mod looks;
pub mod one_line;
pub mod outside;
pub mod reading;
pub mod requests;
