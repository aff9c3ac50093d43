//! What the tests of several crates begin with: files in memory, folders of the system, and a reader that gives little at a time.
#![tactic(auto)]

mod folders;
mod giver;
mod memory;

pub use folders::{folder_of, has_text, link_in, removed, within, write_in};
pub use giver::Giver;
pub use memory::{bytes_of, make_folder, no_files, put};
