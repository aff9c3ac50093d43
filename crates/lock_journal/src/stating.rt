//! The lines that bring a lock back: its hold, and those who wait for it.

ghost use Rattle.std.specs.Prelude.{◌≡◌, ◌++◌, ◌+◌, ◌<◌, ◌≤◌, ◌^◌, length, slice_get, Some, OnOk, IfOk};
ghost use Rattle.line_service.specs.Answering.{joined_lines};
ghost use Rattle.held_locks.specs.Kept.{LockView};
ghost use Rattle.lock_journal.specs.State.{hold_line, hold_lines, wait_line, wait_lines};

use held_locks::{Holder, Locks, Waiter};
use std::alloc::AllocError;
use text_lines::{Line, put_word};

/// Adds the line of a hold.
fn put_hold(name: &[u8], holder: Holder, text: &mut Vec<u8>) -> Result<(), AllocError>
    ensures { OnOk result (text.new.items ≡ text.old.items ++ hold_line name.now holder) }
{
    let mut line = Line::new();
    line.byte(b'\n');
    line.number(holder.client);
    line.byte(b' ');
    line.number(holder.token);
    line.byte(b' ');
    text.extend_from_slice(b"hold ")?;
    text.extend_from_slice(name)?;
    text.extend_from_slice(line.as_bytes())
}

/// Adds the line of a hold, if there is one, and says how many lines that is.
///
/// # Errors
///
/// Only out of memory.
pub fn put_hold_if(
    name: &[u8],
    holder: Option<Holder>,
    text: &mut Vec<u8>,
) -> Result<u64, AllocError>
    ensures lines { OnOk result (text.new.items
        ≡ text.old.items ++ joined_lines (hold_lines name.now holder)) }
    ensures count { IfOk result (λ n. n ≡ length (hold_lines name.now holder)) }
    ensures few { IfOk result (λ n. n ≤ 1) }
{
    match holder {
        None => Ok(0),
        Some(holder) => match put_hold(name, holder, text) {
            Ok(()) => Ok(1),
            Err(AllocError) => Err(AllocError),
        },
    }
}

/// Adds the line of a client that waits.
fn put_waiter(name: &[u8], waiter: Waiter, text: &mut Vec<u8>) -> Result<(), AllocError>
    ensures { OnOk result (text.new.items ≡ text.old.items ++ wait_line name.now waiter) }
{
    let mut front = Line::new();
    put_word(&mut front, b" acquire ");
    front.number(waiter.client);
    let mut end = Line::new();
    end.byte(b'\n');
    end.number(waiter.label);
    end.byte(b' ');
    text.extend_from_slice(front.as_bytes())?;
    text.extend_from_slice(name)?;
    text.extend_from_slice(end.as_bytes())
}

/// Adds the lines of those who wait for a lock of this name, in their order.
fn put_line(locks: &Locks, name: &[u8], lock: u32, text: &mut Vec<u8>) -> Result<(), AllocError>
    requires { lock < length locks.now }
    ensures { (v : LockView) → slice_get locks.now lock ≡ Some v
        → OnOk result (text.new.items
        ≡ text.old.items ++ joined_lines (wait_lines name.now v.queue)) }
{
    let waiting = locks.waiters(lock);
    for place in 0..waiting {
        match put_waiter(name, locks.waiter(lock, place), text) {
            Ok(()) => {}
            Err(AllocError) => return Err(AllocError),
        }
    }
    Ok(())
}

/// The sum of `count` lines and `more`. A number of lines that no memory holds is reported as out of memory.
fn sum_of(count: u64, more: usize) -> Result<u64, AllocError>
    requires { count < 2 ^ 63 }
    ensures sum { IfOk result (λ n. n ≡ count + more) }
    ensures few { IfOk result (λ n. n < 2 ^ 63) }
{
    if more as u64 > i64::MAX as u64 - count {
        return Err(AllocError);
    }
    Ok(count + more as u64)
}

/// Adds the lines of those who wait for a lock, after `count` lines, and says how many there are with these.
///
/// # Errors
///
/// Only out of memory.
pub fn put_counted(
    locks: &Locks,
    name: &[u8],
    lock: u32,
    count: u64,
    text: &mut Vec<u8>,
) -> Result<u64, AllocError>
    requires lock { lock < length locks.now }
    requires count { count < 2 ^ 63 }
    ensures lines { (v : LockView) → slice_get locks.now lock ≡ Some v
        → OnOk result (text.new.items
        ≡ text.old.items ++ joined_lines (wait_lines name.now v.queue)) }
    ensures count { (v : LockView) → slice_get locks.now lock ≡ Some v
        → IfOk result (λ n. n ≡ count + length (wait_lines name.now v.queue)) }
    ensures few { IfOk result (λ n. n < 2 ^ 63) }
{
    match put_line(locks, name, lock, text) {
        Ok(()) => sum_of(count, locks.waiters(lock)),
        Err(AllocError) => Err(AllocError),
    }
}
