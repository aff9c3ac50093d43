//! An open hold that is handed to another client, after a start.

ghost use Rattle.std.specs.Prelude.{◌≡◌, true, false};
ghost use Rattle.held_locks.specs.Parts.{view_of, views_of};
ghost use Rattle.held_locks.specs.Handed.{IsOpen, IsHanded, CannotBeHanded};
ghost use Rattle.held_locks.specs.Holding.{AreHolders};

use crate::answers::Holder;
use crate::asks::is_held_with;
use crate::holds::{Holds, follow};
use crate::parts::LockParts;

/// A hold of client 0, by its lock and its token, and the client to which it is handed.
#[derive(Clone, Copy)]
pub struct Handover {
    pub lock: u32,
    pub token: u64,
    pub client: u64,
}

/// Whether client 0 holds the lock with this token, and nobody waits for it.
fn is_open(lock: &LockParts, token: u64) -> bool
    ensures yes { result ≡ true → IsOpen (view_of lock.now) token }
    ensures no { result ≡ false → ¬ IsOpen (view_of lock.now) token }
{
    is_held_with(0, token, lock.holder) && lock.queue.is_empty()
}

/// Hands a hold over, if client 0 has it and nobody waits for its lock.
fn hand_among(locks: &mut Vec<LockParts>, handover: Handover) -> bool
    ensures yes { result ≡ true
        → IsHanded (views_of locks.old.items) (views_of locks.new.items) handover }
    ensures no { result ≡ false → CannotBeHanded (views_of locks.old.items) handover
        × (locks.new.items ≡ locks.old.items) }
{
    let place = handover.lock as usize;
    if place >= locks.len() || !is_open(&locks[place], handover.token) {
        return false;
    }
    locks[place].holder = Some(Holder {
        client: handover.client,
        token: handover.token,
    });
    true
}

/// The same, and it is noted who holds the lock then.
pub(crate) fn hand_and_follow(
    locks: &mut Vec<LockParts>,
    holds: &mut Holds,
    handover: Handover,
) -> bool
    requires { AreHolders (views_of locks.old.items) holds.old }
    ensures yes { result ≡ true
        → IsHanded (views_of locks.old.items) (views_of locks.new.items) handover }
    ensures no { result ≡ false → CannotBeHanded (views_of locks.old.items) handover
        × (locks.new.items ≡ locks.old.items) }
    ensures holders { AreHolders (views_of locks.new.items) holds.new }
{
    let handed = hand_among(locks, handover);
    follow(locks, holds, handover.lock);
    handed
}
