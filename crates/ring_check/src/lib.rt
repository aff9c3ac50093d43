//! The separate checker of saved histories: a plain replay of each ring of a saved text, which trusts nothing that the text says.
//!
//! It shares the definitions of `ring_model` with the crates that run a ring, and none of their code: no function of theirs is called
//! here.
#![tactic(auto)]

mod answers;
mod check;
mod events;
mod gauge;
mod group_lines;
mod laws;
mod limits;
mod measures;
mod replay;
mod rings;
mod sums;
mod surveys;

pub use answers::{CheckError, Kind, Summary};
pub use check::check_saved;
pub use gauge::Gauge;
pub use group_lines::{goes_on, left_after, may_come};
pub use laws::{
    answers_are_apart, legal_as_defined, lines_are_few, members_as_defined, upgrade_is_legal,
};
pub use limits::{
    FIRST_VERSION_MACHINE_LIMIT, FIRST_VERSION_VALUE_LIMIT, are_parameters,
    first_version_limits_as_defined, machine_limit_of, value_limit_of,
};
pub use sums::{Tally, count_events};
