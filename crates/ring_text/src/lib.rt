//! The writers of a farm's outcome: its saved text (`specs/SavedOf.antt`), and the report on it
//! (`specs/Report.antt`). And the laws that such a text is legal.
//!
//! The report on a saved history is here too: what the report of a farm says of each ring, what
//! each seat did, and the sums.
#![tactic(auto)]

mod counts;
mod farm_report;
mod laws;
mod outcomes;
mod report_rings;
mod report_seats;
mod reports;

pub use counts::Counts;
pub use farm_report::{
    put_counts_line, put_end, put_total_line, put_worded_list, write_report, write_total,
};
pub use laws::{outcome_is_legal, written_is_legal};
pub use outcomes::write_outcome;
pub use reports::{ReportFault, report};
pub use saved_history::{
    ReadError, Saved, SavedEvent, SavedRing, SavedSurvey, answers_are_apart, read_saved,
    texts_are_apart, texts_read_back, upgrade, write_saved,
};
pub use text_lines::WriteFault;
