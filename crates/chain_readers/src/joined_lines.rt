//! How large joined rings are.

ghost use Rattle.std.specs.Prelude.{◌≡◌, ◌+◌, ◌<◌, ◌^◌, length, map, IsTrue, MatchOption, Some, slice_get};
ghost use Rattle.std.specs.List.{sum_by, flat_map, AllByRecursion};
ghost use Rattle.saved_history.specs.Content.{Block, block_of};
ghost use Rattle.ring_check.specs.Lines.{block_lines};
ghost use Rattle.segment_files.specs.Files.{IsShort};
ghost use Rattle.segment_files.specs.Sums.{capped};

use ring_model::limits::EVENT_LIMIT;
use saved_history::SavedRing;

/// The place of the first ring that has more events than one history may have.
pub(crate) fn overfull(rings: &[SavedRing]) -> Option<u64>
    ensures { MatchOption result (AllByRecursion IsShort (map block_of rings.now))
        (λ place. (k : Block) × (slice_get (map block_of rings.now) place ≡ Some k)
        × (¬ IsShort k)) }
{
    for (i, ring) in rings.iter().enumerate() {
        if ring.events.len() > EVENT_LIMIT {
            return Some(i as u64);
        }
    }
    None
}

/// This many lines, and those of the block of a ring; the greatest number if they are more.
fn count_more(lines: u64, ring: &SavedRing) -> u64
    ensures { result ≡ capped (lines + length (block_lines (block_of ring.now))) }
{
    lines
        .saturating_add(3)
        .saturating_add(ring.events.len() as u64)
        .saturating_add(ring.surveys.len() as u64)
}

/// How many lines the blocks of the rings have; the greatest number if they are more.
fn count_lines(rings: &[SavedRing]) -> u64
    ensures { result
        ≡ capped (sum_by (λ (k : Block). length (block_lines k)) (map block_of rings.now)) }
{
    let mut lines: u64 = 0;
    for ring in rings {
        lines = count_more(lines, ring);
    }
    lines
}

/// Whether a text of the rings has no more lines than can be counted. It has: no memory holds more.
pub(crate) fn are_few_lines(rings: &[SavedRing]) -> bool
    ensures { IsTrue result
        → length (flat_map block_lines (map block_of rings.now)) + 2 < 2 ^ 64 }
{
    count_lines(rings) < u64::MAX - 1
}
