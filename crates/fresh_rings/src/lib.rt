//! The rings of locks that have no history: settled ones, without events.
#![tactic(auto)]

ghost use Rattle.std.specs.Prelude.{◌≡◌, ℕ, List, IfOk};
ghost use Rattle.held_locks.specs.Kept.{IsKeptRing};
ghost use Rattle.fresh_rings.specs.Fresh.{pool_ring, IsFreshRing};

use endless_ring::EndlessRing;
use one_thread_ring::OneThreadRing;
use ring_book::Till;
use ring_model::Base;
use ring_state::Params;
use std::alloc::{AllocError, Global};

/// How many seats the ring of a lock has.
pub const SEATS: u32 = 10;

/// A settled ring of this size, without events, whatever name its lock has.
///
/// # Errors
///
/// If memory is short, or the size is none that is allowed.
pub fn settled_ring(alloc: Global, n: u32, k: u32) -> Result<EndlessRing, AllocError>
    ensures ok { IfOk result (λ ring. (name : List ℕ)
        → IsFreshRing (record { name = name; n = n; k = k }) ring) }
    ensures kept { IfOk result (λ ring. IsKeptRing ring) }
{
    let start = vec![in alloc; 0u32; n as usize]?;
    match OneThreadRing::open(alloc, n, k, &start, SEATS, Till::new()) {
        Ok(ring) => Ok(EndlessRing::after(Base::none(), ring)),
        Err(_) => Err(AllocError),
    }
}

/// A settled ring of a pool, without events.
///
/// # Errors
///
/// Only if memory is short.
pub fn fresh_ring(alloc: Global, size: Params) -> Result<EndlessRing, AllocError>
    ensures ok { IfOk result (λ ring. IsFreshRing (pool_ring size) ring) }
    ensures kept { IfOk result (λ ring. IsKeptRing ring) }
{
    match settled_ring(alloc, size.n(), size.k()) {
        Ok(ring) => Ok(ring),
        Err(error) => Err(error),
    }
}
