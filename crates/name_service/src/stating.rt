//! The lines that bring locks by any name back.

ghost use Rattle.std.specs.Prelude.{◌≡◌, ◌++◌, ◌+◌, ◌<◌, ◌≤◌, ◌^◌, length, slice_get, Option, Some, OnOk, IfOk, option_map};
ghost use Rattle.line_service.specs.Answering.{joined_lines};
ghost use Rattle.held_locks.specs.declared.answers.Holder.{Holder};
ghost use Rattle.held_locks.specs.Kept.{LockView};
ghost use Rattle.lock_names.specs.Names.{Bound, token_in, told_holder};
ghost use Rattle.lock_names.specs.Kept.{IsKeptNamed};
ghost use Rattle.lock_names.specs.Table.{bound_of};
ghost use Rattle.name_service.specs.State.{hold_of_ring, waits_of_ring, name_holds, name_waits, name_lines};

use crate::service::NameService;
use held_locks::Holder;
use line_replica::HasState;
use lock_journal::{put_counted, put_hold_if};
use lock_names::{Binding, Names};
use std::alloc::AllocError;

/// The holder of a ring that is bound so, with the token of the name.
fn told_holder(binding: &Binding, holder: Holder) -> Holder
    requires { token_in (bound_of binding.now) holder.token < 2 ^ 64 }
    ensures { result ≡ told_holder (bound_of binding.now) holder }
{
    Holder {
        client: holder.client,
        token: binding.floor + holder.token.saturating_sub(binding.before),
    }
}

/// The same, if there is one.
fn told_if(binding: &Binding, holder: Option<Holder>) -> Option<Holder>
    requires { (h : Holder) → holder ≡ Some h → token_in (bound_of binding.now) h.token < 2 ^ 64 }
    ensures { result ≡ option_map (told_holder (bound_of binding.now)) holder }
{
    match holder {
        Some(holder) => Some(told_holder(binding, holder)),
        None => None,
    }
}

/// Adds the line of the hold of a ring, if a client holds it, and says how many lines that is.
fn put_hold(names: &Names, ring: u32, text: &mut Vec<u8>) -> Result<u64, AllocError>
    requires kept { IsKeptNamed names.now }
    requires ring { ring < length names.now.locks }
    ensures lines { (o : Option Bound) (v : LockView) → slice_get names.now.names ring ≡ Some o
        → slice_get names.now.locks ring ≡ Some v → OnOk result (text.new.items
        ≡ text.old.items ++ joined_lines (hold_of_ring o v)) }
    ensures count { (o : Option Bound) (v : LockView) → slice_get names.now.names ring ≡ Some o
        → slice_get names.now.locks ring ≡ Some v
        → IfOk result (λ n. n ≡ length (hold_of_ring o v)) }
    ensures few { IfOk result (λ n. n ≤ 1) }
{
    match names.binding(ring) {
        Some(binding) => {
            let holder = told_if(binding, names.locks().holder(ring));
            put_hold_if(binding.name.as_bytes(), holder, text)
        }
        None => Ok(0),
    }
}

/// Adds the lines of all holds, ring by ring, and says how many they are.
fn put_holds(names: &Names, text: &mut Vec<u8>) -> Result<u64, AllocError>
    requires { IsKeptNamed names.now }
    ensures lines { OnOk result (text.new.items
        ≡ text.old.items ++ joined_lines (name_holds names.now.names names.now.locks)) }
    ensures count { IfOk result (λ n. n ≡ length (name_holds names.now.names names.now.locks)) }
    ensures few { IfOk result (λ n. n < 2 ^ 63) }
{
    let mut count: u64 = 0;
    for ring in 0..names.count() {
        match put_hold(names, ring, text) {
            Ok(more) => count += more,
            Err(AllocError) => return Err(AllocError),
        }
    }
    Ok(count)
}

/// Adds the lines of those who wait for a ring, after `count` lines, and says how many there are with these.
fn put_waiting(names: &Names, ring: u32, count: u64, text: &mut Vec<u8>) -> Result<u64, AllocError>
    requires ring { ring < length names.now.locks }
    requires count { count < 2 ^ 63 }
    ensures lines { (o : Option Bound) (v : LockView) → slice_get names.now.names ring ≡ Some o
        → slice_get names.now.locks ring ≡ Some v → OnOk result (text.new.items
        ≡ text.old.items ++ joined_lines (waits_of_ring o v)) }
    ensures count { (o : Option Bound) (v : LockView) → slice_get names.now.names ring ≡ Some o
        → slice_get names.now.locks ring ≡ Some v
        → IfOk result (λ n. n ≡ count + length (waits_of_ring o v)) }
    ensures few { IfOk result (λ n. n < 2 ^ 63) }
{
    match names.binding(ring) {
        Some(binding) => put_counted(names.locks(), binding.name.as_bytes(), ring, count, text),
        None => Ok(count),
    }
}

/// Adds the lines of those who wait, ring by ring, after `before` lines, and says how many there are with these.
fn put_waits(names: &Names, before: u64, text: &mut Vec<u8>) -> Result<u64, AllocError>
    requires kept { IsKeptNamed names.now }
    requires before { before < 2 ^ 63 }
    ensures lines { OnOk result (text.new.items
        ≡ text.old.items ++ joined_lines (name_waits names.now.names names.now.locks)) }
    ensures count { IfOk result
        (λ n. n ≡ before + length (name_waits names.now.names names.now.locks)) }
    ensures few { IfOk result (λ n. n < 2 ^ 63) }
{
    let mut count = before;
    for ring in 0..names.count() {
        match put_waiting(names, ring, count, text) {
            Ok(with) => count = with,
            Err(AllocError) => return Err(AllocError),
        }
    }
    Ok(count)
}

/// Adds the lines that bring the locks back.
fn put_lines(names: &Names, text: &mut Vec<u8>) -> Result<u64, AllocError>
    ensures lines { OnOk result (text.new.items
        ≡ text.old.items ++ joined_lines (name_lines names.now)) }
    ensures count { IfOk result (λ n. n ≡ length (name_lines names.now)) }
    ensures few { IfOk result (λ n. n < 2 ^ 63) }
{
    names.are_kept(); // says: the token of each hold has 64 bits
    match put_holds(names, text) {
        Ok(holds) => put_waits(names, holds, text),
        Err(AllocError) => Err(AllocError),
    }
}

impl HasState for NameService {
    ghost use Rattle.name_service.specs.State.{name_state_lines};

    ghost state_lines = { name_state_lines };

    fn put_state(&self, text: &mut Vec<u8>) -> Result<u64, AllocError> {
        put_lines(self.segment.names(), text)
    }
}
