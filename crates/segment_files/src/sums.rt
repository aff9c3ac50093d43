//! What the files of a chain add up to.

ghost use Rattle.std.specs.Prelude.{◌≡◌, ◌<◌, ◌^◌, ℕ, List, length, map, vec_len};
ghost use Rattle.saved_history.specs.Content.{block_of};
ghost use Rattle.segment_files.specs.Files.{File, link_after};
ghost use Rattle.segment_files.specs.Chain.{place_in, link_in, file_in};
ghost use Rattle.segment_files.specs.Sums.{no_sums, events_before, grants_before, corruptions_in, surveys_in, sums_after};

use crate::digests::DIGEST_DIGITS;
use crate::links::SegmentLink;
use crate::places::SegmentPlace;
use crate::segments::Segment;
use ring_check::count_events;
use saved_history::SavedRing;

/// What the files of a chain add up to. A sum stops at 2^64 - 1.
#[derive(Clone, Copy, Debug, PartialEq, Eq)]
pub struct ChainSums {
    /// The number of the first file, 0 if there is none. If it is not 1, its bases were taken on trust.
    pub first: u64,
    /// How many files there are.
    pub segments: u64,
    /// How many rings the last file has.
    pub rings: u32,
    /// The events of all rings, those before the first file included.
    pub events: u64,
    /// The passes that were granted, those before the first file included.
    pub granted: u64,
    /// The corruptions in the files.
    pub corrupted: u64,
    /// The surveys in the files.
    pub surveys: u64,
    /// The digest that the last file has of the one before it.
    pub behind: [u8; DIGEST_DIGITS],
}

/// The sums of no file.
pub(crate) fn none() -> ChainSums
    ensures { result ≡ no_sums }
{
    ChainSums {
        first: 0,
        segments: 0,
        rings: 0,
        events: 0,
        granted: 0,
        corrupted: 0,
        surveys: 0,
        behind: [b'0'; DIGEST_DIGITS],
    }
}

/// How many events there are before these places.
fn events(places: &[SegmentPlace]) -> u64
    ensures { result ≡ events_before (map place_in places.now) }
{
    let mut sum: u64 = 0;
    for place in places {
        sum = sum.saturating_add(place.base.events);
    }
    sum
}

/// How many grants there are before these places.
fn grants(places: &[SegmentPlace]) -> u64
    ensures { result ≡ grants_before (map place_in places.now) }
{
    let mut sum: u64 = 0;
    for place in places {
        sum = sum.saturating_add(place.base.grants);
    }
    sum
}

/// How many corruptions there are in these rings.
fn corruptions(rings: &[SavedRing]) -> u64
    ensures { result ≡ corruptions_in (map block_of rings.now) }
{
    let mut sum: u64 = 0;
    for ring in rings {
        sum = sum.saturating_add(count_events(&ring.events).corrupted);
    }
    sum
}

/// How many surveys there are in these rings.
fn surveys(rings: &[SavedRing]) -> u64
    ensures { result ≡ surveys_in (map block_of rings.now) }
{
    let mut sum: u64 = 0;
    for ring in rings {
        sum = sum.saturating_add(ring.surveys.len() as u64);
    }
    sum
}

/// The sums with a file more, after which the next one must say this.
pub(crate) fn sums_with(sums: ChainSums, segment: &Segment, link: &SegmentLink) -> ChainSums
    requires { vec_len segment.now.saved.rings < 2 ^ 32 }
    ensures { (bytes : List ℕ) → link_in link.now ≡ link_after (file_in bytes segment.now)
        → result ≡ sums_after sums (file_in bytes segment.now) }
{
    let rings = &segment.saved.rings;
    ChainSums {
        first: if sums.segments == 0 {
            segment.head.number
        } else {
            sums.first
        },
        segments: sums.segments.saturating_add(1),
        rings: rings.len() as u32,
        events: events(&link.places),
        granted: grants(&link.places),
        corrupted: sums.corrupted.saturating_add(corruptions(rings)),
        surveys: sums.surveys.saturating_add(surveys(rings)),
        behind: segment.head.behind,
    }
}
