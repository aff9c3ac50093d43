//! The report on a saved history.

ghost use Rattle.std.specs.Prelude.{◌≡◌, ℕ, ◌++◌, ◌<◌, length, OnOk, IfOk, IfErr};
ghost use Rattle.ring_model.specs.Limits.{event_limit};
ghost use Rattle.saved_history.specs.Content.{content, block_of};
ghost use Rattle.ring_check.specs.Legal.{summary_of};
ghost use Rattle.ring_text.specs.declared.reports.ReportFault.TheVariants as report;
ghost use Rattle.ring_text.specs.SavedReport.{block_lines, report_of, IsReportFault};

use crate::farm_report::put_total_line;
use crate::report_rings::{put_ring, replayed};
use one_thread_ring::Totals;
use ring_check::Summary;
use ring_model::limits::EVENT_LIMIT;
use saved_history::{Saved, SavedRing};
use std::alloc::Global;

/// Why there is no report on a legal text.
#[derive(Clone, Copy, Debug, PartialEq, Eq)]
pub enum ReportFault {
    /// The ring at this place, the first, has more events than are replayed.
    Full(u64),
    OutOfMemory,
}

/// Adds the lines of a saved ring, which is legal, to a text.
fn add_ring(
    alloc: Global,
    ring: &SavedRing,
    place: u64,
    text: &mut Vec<u8>,
) -> Result<(), ReportFault>
    ensures ok { OnOk result
        (text.new.items ≡ text.old.items ++ block_lines (block_of ring.now)) }
    ensures full { IfErr result (λ e. (n : ℕ) → e ≡ report.Full n
        → (n ≡ place) × (event_limit < length ring.now.events.items)) }
{
    if ring.events.len() > EVENT_LIMIT {
        return Err(ReportFault::Full(place));
    }
    let outcome = match replayed(alloc, ring) {
        Ok(outcome) => outcome,
        Err(fault) => return Err(fault),
    };
    match put_ring(text, ring, &outcome.book) {
        Ok(()) => Ok(()),
        Err(_) => Err(ReportFault::OutOfMemory),
    }
}

/// Returns the report on a saved history, which is legal and has these sums: five lines for each ring, and one for all.
///
/// Each ring is replayed on one thread, one after the other.
///
/// # Errors
///
/// `Full` with the place of the first ring that has more than [`EVENT_LIMIT`] events, and `OutOfMemory`.
pub fn report(alloc: Global, saved: &Saved, sums: &Summary) -> Result<Vec<u8>, ReportFault>
    requires { sums.now ≡ summary_of (content saved.now) }
    ensures ok { IfOk result (λ text. text.items ≡ report_of (content saved.now)) }
    ensures err { IfErr result (λ e. IsReportFault (content saved.now) e) }
{
    let mut text = Vec::new(alloc);
    for (place, ring) in saved.rings.iter().enumerate() {
        match add_ring(alloc, ring, place as u64, &mut text) {
            Ok(()) => {}
            Err(fault) => return Err(fault),
        }
    }
    let totals = Totals {
        events: sums.events,
        granted: sums.granted,
        surveys: sums.surveys,
    };
    match put_total_line(&mut text, sums.rings, totals) {
        Ok(()) => Ok(text),
        Err(_) => Err(ReportFault::OutOfMemory),
    }
}
