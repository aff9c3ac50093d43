//! Journals: what a running arbiter writes down of each call before it answers, and the recovery of
//! that text when it was cut off anywhere; and what can be saved of a journal that has a bad line:
//! the history before it.
//!
//! A journal begins with the saved text of the rings as they were, and has a line for each call
//! since. `specs/Spelling.antt` spells it, `specs/ContentAfter.antt` says which history it records,
//! and `specs/Recovery.antt` what is recovered and what is refused.
#![tactic(auto)]

mod calls;
mod errors;
mod histories;
mod laws;
mod read;
mod recover;
mod salvage;
mod write;

pub use calls::{Call, JournalLine};
pub use errors::RecoverError;
pub use histories::all_in_order;
pub use laws::{one_is_recovered, prefixes_are_recovered, recovered_can_be_saved};
pub use recover::recover_journal;
pub use salvage::{Salvaged, salvage_journal};
pub use write::{put_first_line, put_journal_line};
