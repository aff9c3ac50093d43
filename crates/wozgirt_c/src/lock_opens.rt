//! How locks are opened for C.

ghost use Rattle.std.specs.Prelude.{◌≡◌, ◌≢◌, true, false};
ghost use Rattle.c_calls.specs.Codes.{still_open};
ghost use Rattle.c_calls.specs.Desks.{AreFreeLocks, IsLocksRefused};

use crate::lock_handle::{LockHandle, is_closed, put};
use c_calls::codes::STILL_OPEN;
use c_calls::lock_opens::open_desk;
use std::alloc::Global;

/// Opens locks that nobody holds: 0, or why they were not, and the struct is as it was then.
#[unsafe(no_mangle)]
pub extern "C" fn wozgirt_locks_open(
    alloc: Global,
    locks: &mut LockHandle,
    count: u32,
    machines: u32,
) -> u32
    ensures held { locks.old.full ≡ true → result ≡ still_open }
    ensures ok { result ≡ 0 → (locks.new.full ≡ true) × AreFreeLocks count machines locks.new.value }
    ensures err { locks.old.full ≡ false → result ≢ 0 → IsLocksRefused count machines result }
    ensures same { result ≢ 0 → locks.new ≡ locks.old }
{
    if !is_closed(locks) {
        return STILL_OPEN;
    }
    match open_desk(alloc, count, machines) {
        Ok(opened) => put(locks, alloc, opened),
        Err(code) => code,
    }
}
