//! A lock more.

ghost use Rattle.std.specs.Prelude.{◌≡◌, ◌-◌, ◌<◌, ◌≤◌, ◌⊎◌, ◌++◌, ◌∷◌, [], length, IfErr, OnOk, OnErr, vec_capacity};
ghost use Rattle.held_locks.specs.Kept.{lock_limit};
ghost use Rattle.held_locks.specs.Opened.{holder_after};
ghost use Rattle.held_locks.specs.Holding.{AreHolders};
ghost use Rattle.held_locks.specs.Parts.{views_of};

use crate::answers::{Holder, Refusal};
use crate::holds::{Holds, client_of};
use crate::locks::LOCK_LIMIT;
use crate::parts::LockParts;
use endless_ring::EndlessRing;
use std::alloc::Global;
use std::collections::VecDeque;

/// The holder of a lock whose hold with this token was open at a restart.
pub(crate) fn zeroth(held: Option<u64>) -> Option<Holder>
    ensures { result ≡ holder_after held }
{
    match held {
        Some(token) => Some(Holder { client: 0, token }),
        None => None,
    }
}

/// A lock more, of a settled ring.
pub(crate) fn add_to(
    locks: &mut Vec<LockParts>,
    holds: &mut Holds,
    order: &mut Vec<usize>,
    alloc: Global,
    ring: EndlessRing,
    holder: Option<Holder>,
) -> Result<(), Refusal>
    requires holders { AreHolders (views_of locks.old.items) holds.old }
    requires room { length locks.old.items ≤ vec_capacity order.old - 1 }
    ensures holders { AreHolders (views_of locks.new.items) holds.new }
    ensures room { length locks.new.items ≤ vec_capacity order.new - 1 }
    ensures ok { OnOk result (views_of locks.new.items ≡ views_of locks.old.items
        ++ record { ring = ring; queue = []; holder = holder } ∷ []) }
    ensures few { OnOk result (length locks.old.items < lock_limit) }
    ensures err { OnErr result (locks.new.items ≡ locks.old.items) }
    ensures why { IfErr result (λ e.
        ((e ≡ Refusal.Full) × (lock_limit ≤ length locks.old.items)) ⊎ (e ≡ Refusal.Memory)) }
{
    let count = locks.len();
    if count >= LOCK_LIMIT {
        return Err(Refusal::Full);
    }
    let Ok(()) = locks.reserve(1) else {
        return Err(Refusal::Memory);
    };
    order.clear();
    let Ok(()) = order.reserve(count + 2) else {
        return Err(Refusal::Memory);
    };
    let Ok(()) = holds.add() else {
        return Err(Refusal::Memory);
    };
    let client = client_of(holder);
    holds.put(count, client);
    let queue = VecDeque::new(alloc);
    locks.push_reserved(LockParts {
        ring,
        queue,
        holder,
    });
    Ok(())
}
