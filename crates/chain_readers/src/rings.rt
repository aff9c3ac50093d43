//! The rings of the files so far, with those of one file more.

ghost use Rattle.std.specs.Prelude.{◌≡◌, ◌++◌, ◌≤◌, length, map, drop, vec_len, OnOk, IfOk};
ghost use Rattle.saved_history.specs.Content.{block_of};
ghost use Rattle.chain_readers.specs.Joining.{with_segment, without_events, opened, extended};

use crate::shifts::{put_events, put_surveys};
use ring_model::Base;
use saved_history::SavedRing;
use std::alloc::{AllocError, Global};

/// A ring of a file, still without events.
fn begin(alloc: Global, ring: &SavedRing) -> Result<SavedRing, AllocError>
    ensures { IfOk result (λ begun_ring. block_of begun_ring ≡ without_events (block_of ring.now)) }
{
    Ok(SavedRing {
        index: ring.index,
        n: ring.n,
        k: ring.k,
        start: Vec::from_slice(alloc, &ring.start)?,
        events: Vec::new(alloc),
        events_said: 0,
        surveys: Vec::new(alloc),
    })
}

/// Puts the rings more of a file after those that there are, still without events.
fn open_more(
    alloc: Global,
    rings: &mut Vec<SavedRing>,
    next: &[SavedRing],
) -> Result<(), AllocError>
    ensures { OnOk result (map block_of rings.new.items
        ≡ opened (map block_of rings.old.items) (map block_of next.now)) }
{
    for i in rings.len()..next.len() {
        rings.push(begin(alloc, &next[i])?)?;
    }
    Ok(())
}

/// Puts the segment of a ring, which has this base, after those that it has.
fn extend(ring: &mut SavedRing, base: &Base, next: &SavedRing) -> Result<(), AllocError>
    ensures { OnOk result (block_of ring.new
        ≡ with_segment (block_of ring.old) base.now (block_of next.now)) }
{
    put_events(&mut ring.events, base, &next.events)?;
    put_surveys(&mut ring.surveys, base, &next.events, &next.surveys)?;
    ring.events_said = ring.events.len() as u64;
    Ok(())
}

/// Puts the segments of the rings, which have these bases, after those that they have.
fn extend_all(
    rings: &mut Vec<SavedRing>,
    bases: &[Base],
    next: &[SavedRing],
) -> Result<(), AllocError>
    ensures { OnOk result (map block_of rings.new.items
        ≡ extended (map block_of rings.old.items) bases.now (map block_of next.now)) }
{
    let count = rings.len().min(bases.len()).min(next.len());
    for i in 0..count {
        extend(&mut rings[i], &bases[i], &next[i])?;
    }
    Ok(())
}

/// Puts the rings of a file, which have these bases, after those of the files before.
pub(crate) fn add_file(
    alloc: Global,
    rings: &mut Vec<SavedRing>,
    bases: &[Base],
    next: &[SavedRing],
) -> Result<(), AllocError>
    ensures { OnOk result (map block_of rings.new.items
        ≡ extended (opened (map block_of rings.old.items) (map block_of next.now)) bases.now
        (map block_of next.now)) }
{
    open_more(alloc, rings, next)?;
    extend_all(rings, bases, next)
}
