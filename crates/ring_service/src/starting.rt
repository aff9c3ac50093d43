//! Rings that resume where saved ones ended.

ghost use Rattle.std.specs.Prelude.{◌≡◌, ◌<◌, ℕ, IfOk, IfErr, length, slice_index_or};
ghost use Rattle.std.specs.List.{All};
ghost use Rattle.ring_model.specs.Limits.{event_limit};
ghost use Rattle.saved_history.specs.declared.saved.SavedRing.{SavedRing};
ghost use Rattle.ring_model.specs.Bases.{IsBase};
ghost use Rattle.endless_ring.specs.Endless.{IsEndless};
ghost use Rattle.ring_service.specs.declared.starting.StartError.TheVariants as start;
ghost use Rattle.ring_service.specs.Standings.{standing_of};
ghost use Rattle.ring_service.specs.Starting.{IsResumedAfter, AreResumed, AreResumedAfter, IsStartFault};

use crate::served::Served;
use endless_ring::EndlessRing;
use one_thread_ring::from_saved;
use ring_model::Base;
use ring_model::limits::{EVENT_LIMIT, SEAT_LIMIT};
use saved_history::{Saved, SavedRing};
use std::alloc::Global;

/// Why saved rings are not served.
#[derive(Clone, Copy, Debug)]
pub enum StartError {
    /// The ring of this number, the first, has more events than a ring can resume.
    Full(u64),
    OutOfMemory,
}

/// The base at this place.
fn base_at(bases: &[Base], place: usize) -> Base
    requires { place < length bases.now }
    ensures { (other : Base) → result ≡ slice_index_or bases.now place other }
{
    bases[place]
}

/// A ring that resumes where a saved one ended, after this base.
fn resume(
    alloc: Global,
    base: Base,
    number: usize,
    saved: &SavedRing,
) -> Result<EndlessRing, StartError>
    requires { IsBase base }
    ensures ok { IfOk result (λ ring. IsResumedAfter base (standing_of ring) saved.now) }
    ensures is { IfOk result (λ ring. IsEndless ring) }
    ensures full { IfErr result (λ e. (n : ℕ) → e ≡ start.Full n
        → (n ≡ number) × (event_limit < length saved.now.events.items)) }
{
    if saved.events.len() > EVENT_LIMIT {
        return Err(StartError::Full(number as u64));
    }
    match from_saved(alloc, saved, SEAT_LIMIT as u32) {
        Ok(ring) => Ok(EndlessRing::after(base, ring)),
        Err(_) => Err(StartError::OutOfMemory),
    }
}

impl Served {
    /// Makes rings that resume where saved ones ended, which are legal: each has the start, the history and the surveys of its
    /// saved ring, and as many seats as a ring can have.
    ///
    /// # Errors
    ///
    /// `Full` with the number of the first ring that has more than `EVENT_LIMIT` events, and `OutOfMemory`.
    pub fn from_saved(alloc: Global, saved: &Saved) -> Result<Served, StartError>
        ensures ok { IfOk result (λ served. AreResumed served saved.now.rings.items) }
        ensures err { IfErr result (λ e. IsStartFault saved.now.rings.items e) }
    {
        let mut served = Served::none(alloc);
        for (number, ring) in saved.rings.iter().enumerate() {
            let ring = match resume(alloc, Base::none(), number, ring) {
                Ok(ring) => ring,
                Err(error) => return Err(error),
            };
            let Ok(()) = served.add(ring) else {
                return Err(StartError::OutOfMemory);
            };
        }
        Ok(served)
    }

    /// The same, where the saved rings are segments, each after the base at its place.
    ///
    /// # Errors
    ///
    /// As for [`from_saved`](Served::from_saved).
    pub fn from_segments(alloc: Global, saved: &Saved, bases: &[Base]) -> Result<Served, StartError>
        requires many { length bases.now ≡ length saved.now.rings.items }
        requires bases { All IsBase bases.now }
        ensures ok { IfOk result
            (λ served. AreResumedAfter bases.now served saved.now.rings.items) }
        ensures err { IfErr result (λ e. IsStartFault saved.now.rings.items e) }
    {
        let mut served = Served::none(alloc);
        for (number, ring) in saved.rings.iter().enumerate() {
            let base = base_at(bases, number);
            let ring = match resume(alloc, base, number, ring) {
                Ok(ring) => ring,
                Err(error) => return Err(error),
            };
            let Ok(()) = served.add(ring) else {
                return Err(StartError::OutOfMemory);
            };
        }
        Ok(served)
    }
}
