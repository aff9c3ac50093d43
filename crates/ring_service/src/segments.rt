//! Rings that end their segments and begin the next ones.

ghost use Rattle.std.specs.Prelude.{◌≡◌, IfOk, IfErr, map};
ghost use Rattle.std.specs.List.{AllByRecursion};
ghost use Rattle.endless_ring.specs.declared.rings.NextError.TheVariants as error;
ghost use Rattle.ring_service.specs.Standings.{standing_of, AreRight};
ghost use Rattle.ring_service.specs.Segments.{AreNext, HasRoom, IsFull, bases_of};

use crate::served::Served;
use endless_ring::{EndlessRing, NextError};
use ring_model::Base;
use std::alloc::{AllocError, Global};

/// The rings with their next segments.
fn next_rings(alloc: Global, rings: &[EndlessRing]) -> Result<Served, NextError>
    requires { AreRight rings.now }
    ensures ok { IfOk result (λ next. AreNext (map standing_of rings.now) next) }
    ensures room { IfOk result (λ _. AllByRecursion HasRoom (map standing_of rings.now)) }
    ensures full { IfErr result (λ e. e ≡ error.Full → IsFull (map standing_of rings.now)) }
{
    let mut next = Served::none(alloc);
    for ring in rings {
        let ring = match ring.next(alloc) {
            Ok(ring) => ring,
            Err(error) => return Err(error),
        };
        let Ok(()) = next.add(ring) else {
            return Err(NextError::OutOfMemory);
        };
    }
    Ok(next)
}

/// The bases of these rings.
fn bases_of(alloc: Global, rings: &[EndlessRing]) -> Result<Vec<Base>, AllocError>
    ensures { IfOk result (λ bases. bases.items ≡ bases_of (map standing_of rings.now)) }
{
    let mut bases = Vec::new(alloc);
    for ring in rings {
        bases.push(*ring.base())?;
    }
    Ok(bases)
}

impl Served {
    /// What came before the segment, for each ring.
    ///
    /// # Errors
    ///
    /// Only if memory is short.
    pub fn bases(&self, alloc: Global) -> Result<Vec<Base>, AllocError>
        ensures { IfOk result (λ bases. bases.items ≡ bases_of self.now) }
    {
        bases_of(alloc, self.rings())
    }

    /// The rings with their next segments: each begins where its ring is now, and has no events. These rings stay as they
    /// are.
    ///
    /// # Errors
    ///
    /// `Full` only where no segment has room after that of some ring, and there it or `OutOfMemory`.
    pub fn next(&self, alloc: Global) -> Result<Served, NextError>
        ensures ok { IfOk result (λ next. AreNext self.now next) }
        ensures room { IfOk result (λ _. AllByRecursion HasRoom self.now) }
        ensures full { IfErr result (λ e. e ≡ error.Full → IsFull self.now) }
    {
        next_rings(alloc, self.rings())
    }
}
