//! The rings with which locks start.

ghost use Rattle.std.specs.Prelude.{◌≡◌, ◌⊎◌, ◌<◌, length, map, slice_get, Some, All, IfOk, IfErr, OnOk};
ghost use Rattle.ring_model.specs.Bases.{IsBase};
ghost use Rattle.held_locks.specs.Kept.{IsKeptRing};
ghost use Rattle.held_locks.specs.Opened.{IsAdded, HaveNoRoom};
ghost use Rattle.folder_of_locks.specs.Lists.{listed};
ghost use Rattle.folder_of_locks.specs.Rings.{IsResumed, IsFreshRing, IsRingOf, AreBegun, IsRingFault, AreRingsRefused};

use crate::faults::StartFault;
use crate::locks::ListedLock;
use endless_ring::EndlessRing;
use fresh_rings::{SEATS, settled_ring};
use held_locks::{Locks, Refusal};
use one_thread_ring::from_saved;
use ring_model::Base;
use saved_history::SavedRing;
use std::alloc::Global;

/// The ring of a segment, where that ended.
fn resumed(alloc: Global, base: Base, saved: &SavedRing) -> Result<EndlessRing, StartFault>
    requires { IsBase base }
    ensures ok { IfOk result (λ ring. IsResumed base saved.now ring) }
    ensures kept { IfOk result (λ ring. IsKeptRing ring) }
    ensures err { IfErr result (λ e. e ≡ StartFault.OutOfMemory) }
{
    match from_saved(alloc, saved, SEATS) {
        Ok(ring) => Ok(EndlessRing::after(base, ring)),
        // a ring of a segment is only refused if memory is short
        Err(_) => Err(StartFault::OutOfMemory),
    }
}

/// A settled ring of the size of a lock, without events.
fn fresh(alloc: Global, lock: &ListedLock<'_>) -> Result<EndlessRing, StartFault>
    ensures ok { IfOk result (λ ring. IsFreshRing (listed lock.now) ring) }
    ensures kept { IfOk result (λ ring. IsKeptRing ring) }
    ensures err { IfErr result (λ e. e ≡ StartFault.OutOfMemory) }
{
    match settled_ring(alloc, lock.n, lock.k) {
        Ok(ring) => Ok(ring),
        // the sizes of a list are allowed
        Err(_) => Err(StartFault::OutOfMemory),
    }
}

/// A lock more, with this ring.
fn add_ring(
    alloc: Global,
    locks: &mut Locks,
    place: usize,
    ring: EndlessRing,
) -> Result<(), StartFault>
    requires { IsKeptRing ring }
    ensures ok { OnOk result (IsAdded locks.old locks.new ring) }
    ensures err { IfErr result (λ e. ((e ≡ StartFault.Full place) × HaveNoRoom locks.old ring)
        ⊎ (e ≡ StartFault.OutOfMemory)) }
{
    match locks.add(alloc, ring) {
        Ok(()) => Ok(()),
        Err(Refusal::Full) => Err(StartFault::Full(place)),
        Err(_) => Err(StartFault::OutOfMemory),
    }
}

/// The base at this place.
fn base_at(bases: &[Base], place: usize) -> Base
    requires { place < length bases.now }
    ensures { slice_get bases.now place ≡ Some result }
{
    bases[place]
}

/// The ring with which the lock at this place starts.
fn ring_at(
    alloc: Global,
    lock: &ListedLock<'_>,
    place: usize,
    rings: &[SavedRing],
    bases: &[Base],
) -> Result<EndlessRing, StartFault>
    requires many { length bases.now ≡ length rings.now }
    requires bases { All IsBase bases.now }
    ensures ok { IfOk result (λ ring. IsRingOf (slice_get bases.now place)
        (slice_get rings.now place) (listed lock.now) ring) }
    ensures kept { IfOk result (λ ring. IsKeptRing ring) }
    ensures err { IfErr result (λ e. IsRingFault place (slice_get rings.now place) (listed lock.now) e) }
{
    if place >= rings.len() {
        return fresh(alloc, lock);
    }
    let saved = &rings[place];
    if saved.n != lock.n || saved.k != lock.k {
        return Err(StartFault::OtherRing(place));
    }
    resumed(alloc, base_at(bases, place), saved)
}

/// The locks of a list, each with its ring of the segment, or a settled one.
pub(crate) fn locks_of(
    alloc: Global,
    list: &[ListedLock<'_>],
    rings: &[SavedRing],
    bases: &[Base],
) -> Result<Locks, StartFault>
    requires many { length bases.now ≡ length rings.now }
    requires bases { All IsBase bases.now }
    ensures ok { IfOk result (λ locks.
        AreBegun bases.now rings.now (map listed list.now) locks) }
    ensures err { IfErr result (λ e. AreRingsRefused bases.now rings.now (map listed list.now) e) }
{
    if rings.len() > list.len() {
        return Err(StartFault::OtherRing(list.len()));
    }
    let mut locks = Locks::none(alloc);
    for (place, lock) in list.iter().enumerate() {
        let ring = match ring_at(alloc, lock, place, rings, bases) {
            Ok(ring) => ring,
            Err(fault) => return Err(fault),
        };
        match add_ring(alloc, &mut locks, place, ring) {
            Ok(()) => {}
            Err(fault) => return Err(fault),
        }
    }
    Ok(locks)
}
