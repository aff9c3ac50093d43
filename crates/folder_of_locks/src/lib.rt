//! The locks of a folder: their names and sizes, and where their rings are.
//!
//! Lists of locks are texts with these names and sizes; so are the lines of the clients that get
//! the holds which are open at a start, to whom these are handed.
#![tactic(auto)]

mod checks;
mod faults;
mod folder;
mod fronts;
mod handing;
pub mod holder_laws;
mod holder_reading;
mod kept_lines;
pub mod list_laws;
mod list_reading;
mod lists;
mod locks;
mod missing_lines;
mod name_handing;
mod name_lists;
mod name_places;
mod name_rings;
mod name_starts;
mod naming;
mod places;
mod pool_finding;
mod pools;
mod rings;
mod sizes;
mod writing;

pub use checks::{first_change, first_difference};
pub use faults::StartFault;
pub use folder::start_locks;
pub use fresh_rings::fresh_ring;
pub use handing::hand_all;
pub use holder_reading::{HoldersError, NamedHold, read_holders};
pub use list_reading::{read_list_file, read_list_word};
pub use lists::{list_bytes, list_in};
pub use locks::{ListError, ListedLock};
pub use name_lists::folder_list_in;
pub use name_places::NameStart;
pub use name_starts::start_names;
pub use naming::names_of;
pub use places::Start;
pub use pool_finding::has_pool;
pub use pools::{FolderList, read_folder_file, read_folder_word};
pub use writing::{put_folder_list, put_list};
