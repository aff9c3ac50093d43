//! A ring on one thread with its clients' logs, called by numbers: for callers that no type keeps
//! right, such as a program in another language or a line of text. Each number is checked, and the
//! saved text of the ring is legal at every moment.
//!
//! How a ring is written is here too: its block in a saved text (`specs/SavedOf.antt`), and its
//! calls as lines of a journal; and why such a block is right.
#![tactic(auto)]

mod blocks;
mod clients;
mod counts;
mod errors;
mod events;
mod journals;
mod resuming;
mod rings;
mod saving;
mod surveys;

pub use blocks::put_block;
pub use clients::Client;
pub use counts::{Totals, granted};
pub use errors::{CallError, OpenError};
pub use events::{saved_event, saved_survey};
pub use journals::{put_events, put_survey};
pub use resuming::{ResumeError, from_saved};
pub use rings::OneThreadRing;
pub use saving::put_ring;
pub use surveys::SurveyLog;
