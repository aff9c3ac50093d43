//! The counts of a report.

ghost use Rattle.std.specs.Prelude.{◌≡◌, ◌+◌, ◌<◌, ◌≤◌, ◌^◌, [], length};
ghost use Rattle.ring_model.specs.Surveys.{corrupted_count};
ghost use Rattle.ring_model.specs.Limits.{event_limit};
ghost use Rattle.ring_settings.specs.Limits.{ring_limit};
ghost use Rattle.ring_text.specs.Report.{refused_count, entries_of, entries_among, counts_of, surveys_in, totals_of};
ghost use Rattle.one_thread_ring.specs.Counts.{survey_count};

use one_thread_ring::{Totals, granted};
use ring_farm::{Log, RingOutcome};
use ring_model::{Entry, Event, Reply};

/// The counts of one ring.
#[derive(Clone, Copy)]
pub struct Counts {
    pub events: u64,
    /// Passes that were granted.
    pub granted: u64,
    /// Passes that found no privilege.
    pub refused: u64,
    pub corrupted: u64,
    /// Surveys in the logs of the ring's seats.
    pub surveys: u64,
}

/// Returns the sums over no ring.
pub fn no_totals() -> Totals
    ensures { result ≡ totals_of [] }
{
    Totals {
        events: 0,
        granted: 0,
        surveys: 0,
    }
}

/// Adds the counts of a ring.
pub fn add(all: &mut Totals, counts: Counts)
    requires events { all.old.events + counts.events < 2 ^ 64 }
    requires granted { all.old.granted + counts.granted < 2 ^ 64 }
    requires surveys { all.old.surveys + counts.surveys < 2 ^ 64 }
    ensures { all.new
        ≡ record {
          events = all.old.events + counts.events;
          granted = all.old.granted + counts.granted;
          surveys = all.old.surveys + counts.surveys;
        } }
{
    all.events += counts.events;
    all.granted += counts.granted;
    all.surveys += counts.surveys;
}

/// How many passes of a history found no privilege.
pub(crate) fn refused(history: &[Event]) -> usize
    ensures { result ≡ refused_count history.now }
{
    history
        .iter()
        .filter(|event| matches!(event.reply, Reply::NotPrivileged))
        .count()
}

fn corrupted(history: &[Event]) -> usize
    ensures { result ≡ corrupted_count history.now }
{
    history
        .iter()
        .filter(|event| matches!(event.reply, Reply::Corrupted { .. }))
        .count()
}

/// How many surveys a log has.
fn surveys(entries: &[Entry]) -> usize
    ensures { result ≡ survey_count entries.now }
{
    entries
        .iter()
        .filter(|entry| matches!(entry, Entry::Survey(_)))
        .count()
}

fn surveys_of(logs: &[Log]) -> u64
    requires { entries_of logs.now < 2 ^ 64 }
    ensures { result ≡ surveys_in logs.now }
{
    let mut all = 0;
    for log in logs {
        all += surveys(log.entries.as_slice()) as u64;
    }
    all
}

/// Counts a ring's events and surveys.
pub fn counts_of(ring: &RingOutcome) -> Counts
    requires { entries_of ring.now.logs.items < 2 ^ 64 }
    ensures is { result ≡ counts_of ring.now }
    ensures few { result.events ≤ event_limit }
    ensures granted { result.granted ≤ result.events }
{
    let history = ring.book.history();
    Counts {
        events: history.len() as u64,
        granted: granted(history) as u64,
        refused: refused(history) as u64,
        corrupted: corrupted(history) as u64,
        surveys: surveys_of(ring.logs.as_slice()),
    }
}

/// Counts the sums over rings.
pub fn added_up(rings: &[RingOutcome]) -> Totals
    requires most { length rings.now ≤ ring_limit }
    requires few { entries_among rings.now < 2 ^ 64 }
    ensures { result ≡ totals_of rings.now }
{
    let mut all = no_totals();
    for ring in rings {
        add(&mut all, counts_of(ring));
    }
    all
}
