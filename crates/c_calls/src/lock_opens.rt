//! Locks that nobody holds.

ghost use Rattle.std.specs.Prelude.{◌≡◌, All, length, replicate, IfOk, IfErr};
ghost use Rattle.held_locks.specs.Kept.{IsKeptRing};
ghost use Rattle.c_calls.specs.Desks.{IsNewRing, IsFree, AreFreeLocks, IsLockCount, IsMachineCount, IsLocksRefused};

use crate::codes::{BAD_LOCKS, BAD_MACHINES, NO_MEMORY};
use crate::desks::LockDesk;
use endless_ring::EndlessRing;
use held_locks::{LOCK_LIMIT, Locks};
use one_thread_ring::OneThreadRing;
use ring_book::Till;
use ring_model::Base;
use ring_model::limits::MACHINE_LIMIT;
use std::alloc::{AllocError, Global};

/// A ring of this many machines for a lock, with no events.
fn fresh_ring(alloc: Global, machines: u32, start: &[u32]) -> Result<EndlessRing, AllocError>
    requires { start.now ≡ replicate machines 0 }
    ensures { IfOk result (λ e. IsKeptRing e × IsNewRing machines e) }
{
    match OneThreadRing::open(alloc, machines, machines, start, 10, Till::new()) {
        Ok(ring) => Ok(EndlessRing::after(Base::none(), ring)),
        Err(_) => Err(AllocError),
    }
}

/// This many locks, each over a ring that starts so.
fn fresh_locks(alloc: Global, count: u32, machines: u32, start: &[u32]) -> Result<Locks, AllocError>
    requires { start.now ≡ replicate machines 0 }
    ensures { IfOk result (λ ls. (length ls ≡ count) × All (IsFree machines) ls) }
{
    let mut locks = Locks::none(alloc);
    for number in 0..count {
        let ring = match fresh_ring(alloc, machines, start) {
            Ok(ring) => ring,
            Err(error) => return Err(error),
        };
        match locks.add(alloc, ring) {
            Ok(()) => {}
            Err(_) => return Err(AllocError),
        }
    }
    Ok(locks)
}

/// A desk of this many locks, each over a ring of this many machines.
fn fresh_desk(alloc: Global, count: u32, machines: u32) -> Result<LockDesk, AllocError>
    ensures { IfOk result (λ d. AreFreeLocks count machines d) }
{
    let start = match Vec::from_elem(alloc, 0u32, machines as usize) {
        Ok(start) => start,
        Err(_) => return Err(AllocError),
    };
    let locks = match fresh_locks(alloc, count, machines, start.as_slice()) {
        Ok(locks) => locks,
        Err(error) => return Err(error),
    };
    LockDesk::of(alloc, locks)
}

/// The same, or the code of why there is none.
pub fn open_desk(alloc: Global, count: u32, machines: u32) -> Result<LockDesk, u32>
    ensures ok { IfOk result (λ d. AreFreeLocks count machines d) }
    ensures counts { IfOk result (λ _. IsLockCount count × IsMachineCount machines) }
    ensures err { IfErr result (λ code. IsLocksRefused count machines code) }
{
    if count == 0 || count as usize > LOCK_LIMIT {
        return Err(BAD_LOCKS);
    }
    if machines < 2 || machines > MACHINE_LIMIT {
        return Err(BAD_MACHINES);
    }
    match fresh_desk(alloc, count, machines) {
        Ok(desk) => Ok(desk),
        Err(_) => Err(NO_MEMORY),
    }
}
