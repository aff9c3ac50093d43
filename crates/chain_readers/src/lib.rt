//! What a chain of files says: the histories of its files as one, each ring's events and surveys
//! counted from the first event of all; and the holds of locks, read from the saved history of
//! their rings.
//!
//! `specs/Joining.antt` says what is joined as a plain function of the files, `specs/JoinLaws.antt`
//! that it is one legal history; `specs/Signs.antt` what an event or a survey records of holds,
//! `specs/Holds.antt` which holds a history records.
#![tactic(auto)]

mod chains;
mod ends;
mod hold_errors;
mod hold_laws;
mod hold_lines;
mod holds;
mod join;
mod join_errors;
mod join_laws;
mod joined_lines;
mod labels;
mod reader;
mod rings;
mod shifts;
mod signs;

pub use chains::{HoldChain, holds_of_saved};
pub use hold_errors::{ChainHoldError, HoldError};
pub use hold_laws::{holds_exclude_each_other, holds_of_chains, holds_of_signs};
pub use hold_lines::{Choice, is_chosen, put_rest};
pub use holds::{End, Grant, Hold};
pub use join::Join;
pub use join_errors::JoinError;
pub use join_laws::joined_laws;
pub use labels::{LabelCounts, count_labels, put_labels};
pub use reader::HoldReader;
