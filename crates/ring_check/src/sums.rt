//! The sums of a text.

ghost use Rattle.std.specs.Prelude.{◌≡◌, ℕ, ◌+◌, ◌<◌, ◌^◌, length, map};
ghost use Rattle.std.specs.List.{flat_map};
ghost use Rattle.ring_model.specs.Surveys.{granted_count, corrupted_count};
ghost use Rattle.saved_history.specs.Content.{block_of};
ghost use Rattle.ring_check.specs.Lines.{block_lines};
ghost use Rattle.ring_check.specs.Table.{event_of};
ghost use Rattle.ring_check.specs.Legal.{summary_of};

use crate::answers::Summary;
use saved_history::{SavedEvent, SavedRing};

/// How many events of a block are granted passes, and how many are corruptions.
#[derive(Clone, Copy)]
pub struct Tally {
    pub granted: u64,
    pub corrupted: u64,
}

/// Counts the events of a block, as the sums of [`check_saved`](crate::check_saved) do.
pub fn count_events(events: &[SavedEvent]) -> Tally
    ensures granted { result.granted ≡ granted_count (map event_of events.now) }
    ensures corrupted { result.corrupted ≡ corrupted_count (map event_of events.now) }
{
    let mut granted: u64 = 0;
    let mut corrupted: u64 = 0;
    for event in events {
        match event {
            SavedEvent::Granted { .. } => granted += 1,
            SavedEvent::Refused { .. } => {}
            SavedEvent::Member { .. } => granted += 1,
            SavedEvent::Corrupted { .. } => corrupted += 1,
        }
    }
    Tally { granted, corrupted }
}

/// The sums over all blocks, whose number is given.
pub(crate) fn sums_of(rings: &[SavedRing], count: u32) -> Summary
    requires count { count ≡ length rings.now }
    requires room { length (flat_map block_lines (map block_of rings.now)) < 2 ^ 64 }
    ensures { (version : ℕ)
        → result
        ≡ summary_of
        (record { version = version; rings = map block_of rings.now; rings_said = count }) }
{
    let mut sums = Summary {
        rings: count,
        events: 0,
        granted: 0,
        corrupted: 0,
        surveys: 0,
    };
    for ring in rings {
        let tally = count_events(&ring.events);
        sums.events += ring.events.len() as u64;
        sums.granted += tally.granted;
        sums.corrupted += tally.corrupted;
        sums.surveys += ring.surveys.len() as u64;
    }
    sums
}
