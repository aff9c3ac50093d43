//! The lines that bring locks back.

ghost use Rattle.std.specs.Prelude.{◌≡◌, ◌++◌, ◌+◌, ◌<◌, ◌^◌, length, OnOk, IfOk};
ghost use Rattle.line_service.specs.Answering.{joined_lines};
ghost use Rattle.lock_journal.specs.State.{holds_from, waits_from, lines_of};

use crate::service::LockService;
use held_locks::Locks;
use line_replica::HasState;
use lock_journal::{put_counted, put_hold_if};
use lock_protocol::LockNames;
use std::alloc::AllocError;

/// Adds the lines of all holds, lock by lock, and says how many they are.
fn put_holds(names: &LockNames, locks: &Locks, text: &mut Vec<u8>) -> Result<u64, AllocError>
    ensures lines { OnOk result (text.new.items
        ≡ text.old.items ++ joined_lines (holds_from names.now 0 locks.now)) }
    ensures count { IfOk result (λ n. n ≡ length (holds_from names.now 0 locks.now)) }
    ensures few { IfOk result (λ n. n < 2 ^ 63) }
{
    let locks_count = locks.count();
    let mut count: u64 = 0;
    for lock in 0..locks_count {
        match put_hold_if(names.name(lock), locks.holder(lock), text) {
            Ok(more) => count += more,
            Err(AllocError) => return Err(AllocError),
        }
    }
    Ok(count)
}

/// Adds the lines of those who wait, lock by lock, after `before` lines, and says how many there are with these.
fn put_waits(
    names: &LockNames,
    locks: &Locks,
    before: u64,
    text: &mut Vec<u8>,
) -> Result<u64, AllocError>
    requires { before < 2 ^ 63 }
    ensures lines { OnOk result (text.new.items
        ≡ text.old.items ++ joined_lines (waits_from names.now 0 locks.now)) }
    ensures count { IfOk result (λ n. n ≡ before + length (waits_from names.now 0 locks.now)) }
    ensures few { IfOk result (λ n. n < 2 ^ 63) }
{
    let locks_count = locks.count();
    let mut count = before;
    for lock in 0..locks_count {
        match put_counted(locks, names.name(lock), lock, count, text) {
            Ok(with) => count = with,
            Err(AllocError) => return Err(AllocError),
        }
    }
    Ok(count)
}

/// Adds the lines that bring the locks back.
fn put_locks(names: &LockNames, locks: &Locks, text: &mut Vec<u8>) -> Result<u64, AllocError>
    ensures lines { OnOk result (text.new.items
        ≡ text.old.items ++ joined_lines (lines_of names.now locks.now)) }
    ensures count { IfOk result (λ n. n ≡ length (lines_of names.now locks.now)) }
    ensures few { IfOk result (λ n. n < 2 ^ 63) }
{
    match put_holds(names, locks, text) {
        Ok(holds) => put_waits(names, locks, holds, text),
        Err(AllocError) => Err(AllocError),
    }
}

impl HasState for LockService {
    ghost use Rattle.lock_service.specs.State.{state_lines};

    ghost state_lines = { state_lines };

    fn put_state(&self, text: &mut Vec<u8>) -> Result<u64, AllocError> {
        put_locks(self.segment.names(), self.segment.locks(), text)
    }
}
