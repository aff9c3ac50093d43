//! Where the segments of a file's rings begin and end.

ghost use Rattle.std.specs.Prelude.{◌≡◌, ◌<◌, ◌≤◌, ◌↔◌, [], length, map, IsTrue, IfOk};
ghost use Rattle.std.specs.List.{All, AllByRecursion};
ghost use Rattle.ring_model.specs.Limits.{event_limit};
ghost use Rattle.ring_model.specs.Ring.{ring_with};
ghost use Rattle.saved_history.specs.Content.{block_of};
ghost use Rattle.ring_model.specs.Bases.{IsBase};
ghost use Rattle.segment_files.specs.Files.{segment_of, segments_of, place_of, place_after, AreBases, AreStarts, IsShort};
ghost use Rattle.segment_files.specs.Chain.{place_in};
ghost use Rattle.segment_files.specs.Replays.{IsReplayed, base_from};

use crate::replay::{Left, replay};
use ring_check::{Tally, count_events};
use ring_model::Base;
use ring_model::limits::EVENT_LIMIT;
use saved_history::SavedRing;
use std::alloc::{AllocError, Global};

/// What came before a segment, and the ring where it begins.
#[derive(Drop)]
pub struct SegmentPlace {
    pub(crate) base: Base,
    pub(crate) k: u32,
    pub(crate) values: Vec<u32>,
}

/// Whether a base is that of a place, with room after it.
fn is_left(place: &SegmentPlace, base: Base) -> bool
    ensures { IsTrue result ↔ ((base ≡ place.now.base) × IsBase base) }
{
    base == place.base && base.has_room()
}

/// Whether nothing came before these rings.
fn are_none(bases: &[Base]) -> bool
    ensures { IsTrue result ↔ AreBases [] bases.now }
{
    for base in bases {
        if *base != Base::none() {
            return false;
        }
    }
    true
}

/// Whether each of the rings has the base of its place, and the rings more have none.
pub(crate) fn are_bases(places: &[SegmentPlace], bases: &[Base]) -> bool
    ensures { IsTrue result ↔ AreBases (map place_in places.now) bases.now }
{
    if bases.len() < places.len() {
        return false;
    }
    for (i, place) in places.iter().enumerate() {
        if !is_left(place, bases[i]) {
            return false;
        }
    }
    are_none(&bases[places.len()..])
}

/// Whether a ring begins at a place.
fn begins_at(place: &SegmentPlace, ring: &SavedRing) -> bool
    ensures { IsTrue result
        ↔ (ring_with ring.now.k ring.now.start.items ≡ (place_in place.now).ring) }
{
    ring.k == place.k && ring.start == place.values
}

/// Whether each of the rings that were there begins as it was left.
pub(crate) fn are_starts(places: &[SegmentPlace], rings: &[SavedRing]) -> bool
    ensures { IsTrue result ↔ AreStarts (map place_in places.now) (map block_of rings.now) }
{
    if rings.len() < places.len() {
        return false;
    }
    for (i, place) in places.iter().enumerate() {
        if !begins_at(place, &rings[i]) {
            return false;
        }
    }
    true
}

/// Whether no ring has more events than a segment may have.
pub(crate) fn are_short(rings: &[SavedRing]) -> bool
    ensures { IsTrue result ↔ AllByRecursion IsShort (map block_of rings.now) }
{
    for ring in rings {
        if ring.events.len() > EVENT_LIMIT {
            return false;
        }
    }
    true
}

/// The places where the segments of these rings begin, as far as there are bases.
pub(crate) fn places(
    alloc: Global,
    bases: &[Base],
    rings: &[SavedRing],
) -> Result<Vec<SegmentPlace>, AllocError>
    ensures { IfOk result (λ found. map place_in found.items
        ≡ map place_of (segments_of bases.now (map block_of rings.now))) }
{
    let mut found = Vec::new(alloc);
    for (i, ring) in rings.iter().enumerate() {
        if i >= bases.len() {
            return Ok(found);
        }
        found.push(SegmentPlace {
            base: bases[i],
            k: ring.k,
            values: Vec::from_slice(alloc, &ring.start)?,
        })?;
    }
    Ok(found)
}

/// The base after a segment with this many events.
fn next_base(base: Base, events: u64, tally: Tally, left: &Left) -> Base
    requires base { IsBase base }
    requires few { events ≤ event_limit }
    requires granted { tally.granted ≤ events }
    requires calm { left.now.calm ≤ events }
    ensures { result ≡ base_from base events tally left.now }
{
    Base {
        events: base.events + events,
        grants: base.grants + tally.granted,
        amount: base.amount.saturating_add(left.amount),
        calm: if tally.corrupted == 0 {
            base.calm + left.calm
        } else {
            left.calm
        },
    }
}

/// The place after the segment of a ring with this base: the segment is replayed.
fn place_after(alloc: Global, base: Base, ring: &SavedRing) -> Result<SegmentPlace, AllocError>
    requires base { IsBase base }
    requires short { IsShort (block_of ring.now) }
    requires right { IsReplayed (block_of ring.now) }
    ensures { IfOk result (λ p. place_in p ≡ place_after (segment_of base (block_of ring.now))) }
{
    let tally = count_events(&ring.events);
    let left = replay(alloc, ring.k, &ring.start, &ring.events)?;
    let base = next_base(base, ring.events.len() as u64, tally, &left);
    Ok(SegmentPlace {
        base,
        k: ring.k,
        values: left.values,
    })
}

/// The places after the segments of these rings.
pub(crate) fn places_after(
    alloc: Global,
    bases: &[Base],
    rings: &[SavedRing],
) -> Result<Vec<SegmentPlace>, AllocError>
    requires many { length bases.now ≡ length rings.now }
    requires bases { All IsBase bases.now }
    requires short { All IsShort (map block_of rings.now) }
    requires right { All IsReplayed (map block_of rings.now) }
    ensures { IfOk result (λ found. map place_in found.items
        ≡ map place_after (segments_of bases.now (map block_of rings.now))) }
{
    let mut found = Vec::new(alloc);
    for (i, ring) in rings.iter().enumerate() {
        found.push(place_after(alloc, bases[i], ring)?)?;
    }
    Ok(found)
}
