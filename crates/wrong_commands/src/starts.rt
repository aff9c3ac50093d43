//! Wrong starts of a lock.

ghost use Rattle.std.specs.Prelude.{◌≡◌, ℕ, ◌+◌, ◌≤◌, Some, length, IfSome, vec_len, vec_capacity};
ghost use Rattle.held_locks.specs.Kept.{IsKeptRing};
ghost use Rattle.held_locks.specs.Opened.{open_in, IsAdded, IsNotAdded};

use endless_ring::EndlessRing;
use held_locks::laws::leavers_are_gone;
use held_locks::{Left, Locks, Refusal};
use std::alloc::Global;

/// A hold that is open in the history of a lock continues as client 0's: here it is dropped. It gives up if there is no memory.
pub fn drops_a_hold_at_a_start(
    alloc: Global,
    locks: &mut Locks,
    ring: EndlessRing,
    left: &mut Vec<Left>,
) -> Option<u32>
    requires kept { IsKeptRing ring }
    requires held { (token : ℕ) × (open_in ring ≡ Some token) }
    requires room { vec_len left.old + (length locks.old + 1) ≤ vec_capacity left.old }
    ensures wrong { IfSome result (λ _. IsAdded locks.old locks.new ring → ⊥) }
{
    match locks.add(alloc, ring) {
        Ok(()) => {}
        Err(_) => return None,
    }
    locks.leave(0, left);
    leavers_are_gone();
    Some(locks.count())
}

/// A lock is refused for lack of room or memory: here it is refused as one that does not exist. It gives up if the lock is added.
pub fn refuses_a_lock_for_another_reason(
    alloc: Global,
    locks: &mut Locks,
    ring: EndlessRing,
) -> Option<Refusal>
    requires kept { IsKeptRing ring }
    ensures wrong { IfSome result (λ why. IsNotAdded locks.old ring why → ⊥) }
{
    match locks.add(alloc, ring) {
        Ok(()) => None,
        Err(_) => Some(Refusal::Lock),
    }
}
