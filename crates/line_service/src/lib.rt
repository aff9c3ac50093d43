//! The loop that answers the lines of a reader, one after the other, generic over what answers a
//! line; the same loop with a journal in a chain of segment files; and the segments of a folder:
//! the names of their files, and which of them are there.
//!
//! The answers to the lines of a block, and their notes for a journal, are kept until the block has
//! been read. Then the journal gets the notes; only after that do the answers leave.
#![tactic(auto)]

mod answering;
mod beginning;
mod digested;
mod ending;
mod faults;
mod folder_errors;
mod parts;
mod pending;
mod putting;
mod segment_names;
mod segment_numbers;
mod segmented;
mod segments;
mod service;
mod taking;
mod unread;

pub use answering::AnswersLines;
pub use beginning::{begin_file, begin_segment};
pub use digested::Digested;
pub use ending::{abandon_segment, close_segment, open_segment};
pub use faults::{Ending, LoopFault};
pub use folder_errors::{EntryName, FolderError};
pub use parts::serve_part;
pub use pending::Pending;
pub use segment_names::{has_list, list_name, segment_file};
pub use segment_numbers::{SegmentNumbers, numbers_among, numbers_in};
pub use segmented::{EndFault, Segmented};
pub use segments::{OpenSegment, SegmentRules};
pub use service::serve_segments;
pub use unread::Unread;
