//! The calls of locks that C holds.

ghost use Rattle.std.specs.Prelude.{◌≡◌, true, false, Option};
ghost use Rattle.held_locks.specs.Locks.{Acquire, Try, Release, Cancel};
ghost use Rattle.held_locks.specs.declared.answers.Answers.{Answers};
ghost use Rattle.c_calls.specs.declared.lock_answers.Grant.{Grant};
ghost use Rattle.c_calls.specs.Codes.{closed};
ghost use Rattle.c_calls.specs.Desks.{IsAsked, IsDoneAsk, IsDeskLeft, IsNextGrant, IsLeaveReport, IsDeskCutReport};
ghost use Rattle.c_calls.specs.LockReports.{asked_code, asked_hold, IsGrantReport};

use crate::lock_handle::{LockHandle, opened, take_out};
use c_calls::codes::{CLOSED, GRANTS_LEFT};
use c_calls::desks::LockDesk;
use c_calls::lock_answers::{Grant, Hold, asked_code, asked_hold, report_grant};
use std::alloc::Global;

/// A client acquires a lock: 0 where it holds it now, 1 where it waits, else why it was refused.
#[unsafe(no_mangle)]
pub extern "C" fn wozgirt_locks_acquire(
    locks: &mut LockHandle,
    client: u64,
    lock: u32,
    order: u64,
    out: &mut Hold,
) -> u32
    ensures closed { locks.old.full ≡ false
        → (result ≡ closed) × (locks.new ≡ locks.old) × (out.new ≡ out.old) }
    ensures full { locks.new.full ≡ locks.old.full }
    ensures reported { locks.old.full ≡ true
        → (answer : Option Answers)
        × IsAsked locks.old.value locks.new.value client lock (Acquire order) answer
        × (result ≡ asked_code answer)
        × (out.new ≡ asked_hold answer out.old) }
{
    let Some(desk) = opened(locks) else {
        return CLOSED;
    };
    let answer = LockDesk::acquire(desk, client, lock, order);
    *out = asked_hold(answer, *out);
    asked_code(answer)
}

/// The same, but it does not wait: 2 where somebody holds the lock.
#[unsafe(no_mangle)]
pub extern "C" fn wozgirt_locks_try(
    locks: &mut LockHandle,
    client: u64,
    lock: u32,
    order: u64,
    out: &mut Hold,
) -> u32
    ensures closed { locks.old.full ≡ false
        → (result ≡ closed) × (locks.new ≡ locks.old) × (out.new ≡ out.old) }
    ensures full { locks.new.full ≡ locks.old.full }
    ensures reported { locks.old.full ≡ true
        → (answer : Option Answers)
        × IsAsked locks.old.value locks.new.value client lock (Try order) answer
        × (result ≡ asked_code answer)
        × (out.new ≡ asked_hold answer out.old) }
{
    let Some(desk) = opened(locks) else {
        return CLOSED;
    };
    let answer = LockDesk::try_acquire(desk, client, lock, order);
    *out = asked_hold(answer, *out);
    asked_code(answer)
}

/// A client ends its hold, which has this token.
#[unsafe(no_mangle)]
pub extern "C" fn wozgirt_locks_release(
    locks: &mut LockHandle,
    client: u64,
    lock: u32,
    token: u64,
) -> u32
    ensures closed { locks.old.full ≡ false
        → (result ≡ closed) × (locks.new ≡ locks.old) }
    ensures full { locks.new.full ≡ locks.old.full }
    ensures reported { locks.old.full ≡ true
        → (answer : Option Answers)
        × IsDoneAsk locks.old.value locks.new.value client lock (Release token) answer
        × (result ≡ asked_code answer) }
{
    let Some(desk) = opened(locks) else {
        return CLOSED;
    };
    let answer = LockDesk::release(desk, client, lock, token);
    asked_code(answer)
}

/// A client waits no more.
#[unsafe(no_mangle)]
pub extern "C" fn wozgirt_locks_cancel(locks: &mut LockHandle, client: u64, lock: u32) -> u32
    ensures closed { locks.old.full ≡ false
        → (result ≡ closed) × (locks.new ≡ locks.old) }
    ensures full { locks.new.full ≡ locks.old.full }
    ensures reported { locks.old.full ≡ true
        → (answer : Option Answers)
        × IsDoneAsk locks.old.value locks.new.value client lock Cancel answer
        × (result ≡ asked_code answer) }
{
    let Some(desk) = opened(locks) else {
        return CLOSED;
    };
    let answer = LockDesk::cancel(desk, client, lock);
    asked_code(answer)
}

/// A client leaves all locks.
#[unsafe(no_mangle)]
pub extern "C" fn wozgirt_locks_leave(locks: &mut LockHandle, client: u64) -> u32
    ensures closed { locks.old.full ≡ false
        → (result ≡ closed) × (locks.new ≡ locks.old) }
    ensures full { locks.new.full ≡ locks.old.full }
    ensures reported { locks.old.full ≡ true
        → IsLeaveReport locks.old.value locks.new.value client result }
{
    let Some(desk) = opened(locks) else {
        return CLOSED;
    };
    let has_left = LockDesk::leave(desk, client);
    if has_left { 0 } else { GRANTS_LEFT }
}

/// A grant to a client that waited, of those that the last input brought about: 0, or 3 where there is none.
#[unsafe(no_mangle)]
pub extern "C" fn wozgirt_locks_next(locks: &mut LockHandle, out: &mut Grant) -> u32
    ensures closed { locks.old.full ≡ false
        → (result ≡ closed) × (locks.new ≡ locks.old) × (out.new ≡ out.old) }
    ensures full { locks.new.full ≡ locks.old.full }
    ensures reported { locks.old.full ≡ true
        → (grant : Option Grant)
        × IsNextGrant locks.old.value locks.new.value grant
        × IsGrantReport grant result out.old out.new }
{
    let Some(desk) = opened(locks) else {
        return CLOSED;
    };
    let answer = LockDesk::next(desk);
    report_grant(answer, out)
}

/// Begins a new segment of each lock's history: holds, waits and tokens continue.
#[unsafe(no_mangle)]
pub extern "C" fn wozgirt_locks_cut(alloc: Global, locks: &mut LockHandle) -> u32
    ensures closed { locks.old.full ≡ false → (result ≡ closed) × (locks.new ≡ locks.old) }
    ensures full { locks.new.full ≡ locks.old.full }
    ensures reported { locks.old.full ≡ true
        → IsDeskCutReport locks.old.value locks.new.value result }
{
    let Some(desk) = opened(locks) else {
        return CLOSED;
    };
    LockDesk::cut(desk, alloc)
}

/// Closes the locks that C holds, and frees them; what is closed stays as it is.
#[unsafe(no_mangle)]
pub extern "C" fn wozgirt_locks_close(alloc: Global, locks: &mut LockHandle)
    ensures empty { locks.new.full ≡ false }
    ensures same { locks.old.full ≡ false → locks.new ≡ locks.old }
{
    let _desk = take_out(locks, alloc);
}
