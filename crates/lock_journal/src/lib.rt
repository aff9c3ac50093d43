//! Locks and their journal: which lines a step leaves in it, when its segment ends, and what comes back of whatever is kept of it.
//! What answers the lines of clients, locks of a fixed list or locks by any name, is above.
#![tactic(auto)]

mod asking;
mod counting;
mod due;
pub mod laws;
mod noting;
pub mod room_laws;
mod stages;
mod stating;
mod terms;
mod texts;
mod untold;

pub use asking::{denial_of, is_lack, is_off, one_ask};
pub use counting::{after_end, after_events, after_left, after_start};
pub use due::{has_short, has_short_left, is_short_at};
pub use noting::{events_at, note, note_if, note_left_if};
pub use stages::{Stage, end_fault, is_stopped, is_to_end, stage_after};
pub use stating::{put_counted, put_hold_if};
pub use terms::{Terms, limit_of};
pub use texts::segment_text;
pub use untold::{Untold, put};
