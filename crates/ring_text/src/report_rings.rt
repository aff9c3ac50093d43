//! The lines of a saved ring.

ghost use Rattle.std.specs.Prelude.{◌≡◌, map, length, IfOk, IfErr};
ghost use Rattle.text_lines.specs.Writing.{Writes};
ghost use Rattle.ring_model.specs.Ring.{ring_with};
ghost use Rattle.saved_history.specs.Content.{block_of};
ghost use Rattle.ring_check.specs.Table.{event_of};
ghost use Rattle.ring_text.specs.SavedReport.{block_counts, block_lines};

use crate::counts::{Counts, refused};
use crate::farm_report::{put_counts_line, put_end};
use crate::report_seats::put_seats_line;
use crate::reports::ReportFault;
use one_thread_ring::from_saved;
use ring_book::{Book, Till};
use ring_check::count_events;
use ring_logs::RingOutcome;
use ring_model::Event;
use ring_model::limits::SEAT_LIMIT;
use saved_history::SavedRing;
use std::alloc::Global;
use std::io::Write;
use text_lines::WriteFault;

/// Replays a saved ring, which is legal, on one thread.
pub(crate) fn replayed(alloc: Global, ring: &SavedRing) -> Result<RingOutcome, ReportFault>
    ensures start { IfOk result (λ o. o.book.start ≡ ring_with ring.now.k ring.now.start.items) }
    ensures history { IfOk result (λ o. o.book.history ≡ map event_of ring.now.events.items) }
    ensures err { IfErr result (λ e. e ≡ ReportFault.OutOfMemory) }
{
    let Ok(resumed) = from_saved(alloc, ring, SEAT_LIMIT as u32) else {
        return Err(ReportFault::OutOfMemory);
    };
    match resumed.close(alloc) {
        Ok(outcome) => Ok(outcome),
        Err(_) => Err(ReportFault::OutOfMemory),
    }
}

/// Counts a saved ring's events and surveys.
fn counts_of(ring: &SavedRing, history: &[Event]) -> Counts
    requires { history.now ≡ map event_of ring.now.events.items }
    ensures { result ≡ block_counts (block_of ring.now) }
{
    let tally = count_events(&ring.events);
    Counts {
        events: ring.events.len() as u64,
        granted: tally.granted,
        refused: refused(history) as u64,
        corrupted: tally.corrupted,
        surveys: ring.surveys.len() as u64,
    }
}

/// Writes the lines of a saved ring, of which this is the book.
#[tactic(auto, using(text_lines::proofs::Writing::writes_then))]
pub(crate) fn put_ring<W: Write>(
    out: &mut W,
    ring: &SavedRing,
    book: &Book<Till>,
) -> Result<(), WriteFault>
    requires start { book.now.start ≡ ring_with ring.now.k ring.now.start.items }
    requires history { book.now.history ≡ map event_of ring.now.events.items }
    ensures { Writes (W.contents out.old) (W.contents out.new) result
        (block_lines (block_of ring.now)) }
{
    let counts = counts_of(ring, book.history());
    match put_counts_line(out, ring.index, ring.start.len() as u32, ring.k, counts) {
        Ok(()) => match put_end(out, book) {
            Ok(()) => put_seats_line(out, book.history(), &ring.surveys),
            Err(fault) => Err(fault),
        },
        Err(fault) => Err(fault),
    }
}
