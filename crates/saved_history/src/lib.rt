//! Saved histories: the values that a saved text holds, its reader, its writer and the writers of its lines.
//!
//! A saved text has a first line, which says the version of its grammar, a block for each ring, and a last line.
//! `specs/Spelling.antt` spells it line by line as a plain function of the value; that, and which values fit, is all that a
//! reader of the contracts has to know.
#![tactic(auto)]

mod blocks;
mod event_lines;
mod lines;
pub mod put_lines;
mod read;
mod saved;
mod versions;
mod write;

pub use blocks::read_prefix;
pub use event_lines::{event_line, put_event, put_survey, survey_line};
pub use lines::{EventOrEnd, Next, SurveyOrNext, event_or_end, survey_or_next};
pub use read::{answers_are_apart, read_saved, texts_are_apart, texts_read_back};
pub use saved::{RingHeader, Saved, SavedEvent, SavedRing, SavedSurvey};
pub use text_lines::{ReadError, WriteFault};
pub use versions::{
    FIRST_VERSION, LATEST_VERSION, first_version_has_no_members, upgrade, versions_as_defined,
};
pub use write::write_saved;
