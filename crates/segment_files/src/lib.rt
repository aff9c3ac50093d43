//! A history without end, cut into files that follow one another: the text of a file, and the check of such files.
//!
//! A file has a head, which says what came before, and after it a journal with a segment of each ring.
//! `specs/Spelling.antt` spells the head, `specs/Files.antt` says when files are a chain.
//!
//! The last file may have an end that no program wrote, after a loss of power: `specs/Torn.antt` says which end is torn
//! and which one is damaged, `specs/TornSigns.antt` which line can follow.
#![tactic(auto)]

mod chain;
mod digests;
mod errors;
mod heads;
mod last;
mod laws;
mod links;
mod places;
mod reached;
mod read;
mod remarks;
mod replay;
mod segments;
mod sums;
mod torn_end;
mod torn_laws;
mod torn_signs;
mod write;

pub use chain::Chain;
pub use digests::{DIGEST_DIGITS, digest, digits};
pub use errors::SegmentError;
pub use heads::SegmentHead;
pub use last::{LastSegment, read_last};
pub use laws::{added_are_chained, files_tell_histories, one_file, remarks_are_left_out};
pub use read::read_head;
pub use remarks::{has_remark, is_remark, line_among, put_remark, split_line, without_remarks};
pub use segments::{Segment, head_refusal, journal_refusal, read_segment};
pub use sums::ChainSums;
pub use text_lines::{ReadError, WriteFault};
pub use torn_end::read_end;
pub use torn_laws::told_lines_stay;
pub use write::put_head;
