//! When a segment of locks is due to end.

ghost use Rattle.std.specs.Prelude.{◌≡◌, ◌<◌, length, slice_get};
ghost use Rattle.lock_journal.specs.Due.{is_short_at, has_short, has_short_left};

use held_locks::{Left, Locks};
use ring_model::limits::{EVENT_LIMIT, MACHINE_LIMIT};

/// Whether the segment of a lock has fewer places left for events than an ask may need.
fn is_short(locks: &Locks, lock: u32) -> bool
    requires { lock < length locks.now }
    ensures { result ≡ is_short_at (slice_get locks.now lock) }
{
    let events = locks.ring(lock).segment().history().len();
    let need = events + (MACHINE_LIMIT as usize + 1);
    need > EVENT_LIMIT || locks.waiters(lock) > EVENT_LIMIT - need
}

/// Whether there is a lock of this number, and its segment has fewer places left for events than an ask may need.
pub fn is_short_at(locks: &Locks, lock: u32) -> bool
    ensures { result ≡ is_short_at (slice_get locks.now lock) }
{
    lock < locks.count() && is_short(locks, lock)
}

/// Whether one of the locks is short.
pub fn has_short(locks: &Locks) -> bool
    ensures { result ≡ has_short locks.now }
{
    let count = locks.count();
    for lock in 0..count {
        if is_short(locks, lock) {
            return true;
        }
    }
    false
}

/// Whether one of the locks of these holds is short.
pub fn has_short_left(locks: &Locks, left: &[Left]) -> bool
    ensures { result ≡ has_short_left locks.now left.now }
{
    for one in left {
        if is_short_at(locks, one.lock) {
            return true;
        }
    }
    false
}
