//! Locks continue in the next segments of their rings.

ghost use Rattle.std.specs.Prelude.{◌≡◌, ℕ, List, slice_get, Some, IfOk, IfErr};
ghost use Rattle.held_locks.specs.declared.parts.LockParts.{LockParts};
ghost use Rattle.held_locks.specs.Promises.{IsRightLock};
ghost use Rattle.held_locks.specs.Kept.{lock_of, IsKeptLock};
ghost use Rattle.held_locks.specs.Cuts.{IsNextOf, IsNoNext, IsNextLock, AreNext, HaveNoNext};
ghost use Rattle.held_locks.specs.Parts.{view_of, views_of};

use crate::answers::Refusal;
use crate::marks;
use crate::parts::LockParts;
use endless_ring::EndlessRing;
use std::alloc::Global;

/// The ring of a lock's next segment, with the hold that is open as its first event.
fn next_ring(lock: &LockParts, alloc: Global) -> Result<EndlessRing, Refusal>
    requires kept { IsKeptLock (view_of lock.now) }
    ensures ok { IfOk result (λ next. IsNextOf (view_of lock.now) next) }
    ensures why { IfErr result (λ e. IsNoNext (view_of lock.now) e) }
{
    let mut ring = match marks::next(&lock.ring, alloc) {
        Ok(ring) => ring,
        Err(why) => return Err(why),
    };
    match marks::reserve(&mut ring, lock.queue.len(), 1) {
        Ok(()) => {}
        Err(why) => return Err(why),
    }
    marks::carry(&mut ring, lock.holder);
    Ok(ring)
}

/// The lock in its next segment: its queue and its holder stay the same.
fn next_lock(lock: &LockParts, alloc: Global) -> Result<LockParts, Refusal>
    requires kept { IsKeptLock (view_of lock.now) }
    requires right { IsRightLock (lock_of (view_of lock.now)) }
    ensures ok { IfOk result (λ next. IsNextLock (view_of lock.now) (view_of next)) }
    ensures why { IfErr result (λ e. IsNoNext (view_of lock.now) e) }
{
    let ring = match next_ring(lock, alloc) {
        Ok(ring) => ring,
        Err(why) => return Err(why),
    };
    let Ok(queue) = lock.queue.clone() else {
        return Err(Refusal::Memory);
    };
    let holder = lock.holder;
    Ok(LockParts {
        ring,
        queue,
        holder,
    })
}

/// The locks in their next segments.
pub(crate) fn next_locks(locks: &[LockParts], alloc: Global) -> Result<Vec<LockParts>, Refusal>
    requires { (i : ℕ) (p : LockParts) → slice_get locks.now i ≡ Some p
        → IsKeptLock (view_of p) × IsRightLock (lock_of (view_of p)) }
    ensures ok { IfOk result (λ next. AreNext (views_of locks.now) (views_of next.items)) }
    ensures why { IfErr result (λ e. HaveNoNext (views_of locks.now) e) }
{
    let mut next = Vec::new(alloc);
    for lock in locks {
        let one = match next_lock(lock, alloc) {
            Ok(one) => one,
            Err(why) => return Err(why),
        };
        let Ok(()) = next.push(one) else {
            return Err(Refusal::Memory);
        };
    }
    Ok(next)
}
