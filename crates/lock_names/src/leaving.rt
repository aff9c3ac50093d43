//! A client leaves all names.

ghost use Rattle.std.specs.Prelude.{◌≡◌, ℕ, ◌+◌, ◌^◌, ◌<◌, ◌≤◌, length, map, slice_get, Some, vec_capacity};
ghost use Rattle.held_locks.specs.declared.answers.Holder.{Holder};
ghost use Rattle.held_locks.specs.declared.answers.Left.{Left};
ghost use Rattle.lock_names.specs.Names.{Bound, token_in};
ghost use Rattle.lock_names.specs.Kept.{seen, IsKeptNamed};
ghost use Rattle.lock_names.specs.Leaves.{grant_count, grants_in, told_left, name_left, names_left, IsTellableLeft, IsLeftByName};

use crate::asks::{Rings, told_holder};
use crate::table::Table;
use held_locks::{Holder, Left};

/// How many grants this is.
fn grant_count(granted: Option<Holder>) -> u64
    ensures { result ≡ grant_count granted }
{
    match granted {
        Some(_) => 1,
        None => 0,
    }
}

/// What a leave did to the lock of a ring, with the token of the ring's name.
fn told_left(table: &Table, left: Left) -> Left
    requires { IsTellableLeft table.now left }
    ensures { result ≡ told_left table.now left }
{
    let counts = table.counts(left.lock);
    let granted = match left.granted {
        Some(holder) => Some(told_holder(counts, holder)),
        None => None,
    };
    Left {
        lock: left.lock,
        ended: left.ended,
        granted,
    }
}

/// The ring loses its name, if it is one of the pool and nobody is granted its lock.
fn forget_left(table: &mut Table, fixed: u32, left: Left)
    requires { left.lock < length table.old }
    ensures { table.new ≡ name_left fixed table.old left }
{
    if left.lock < fixed || left.granted.is_some() {
        return;
    }
    table.forget(left.lock);
}

/// What a leave did gets the tokens of the names, and names are forgotten that nobody holds: how many grants there are.
fn settle_left(table: &mut Table, fixed: u32, left: &mut Vec<Left>) -> u64
    requires apart { (i j : ℕ) (l m : Left) → slice_get left.old.items i ≡ Some l
        → slice_get left.old.items j ≡ Some m → l.lock ≡ m.lock → i ≡ j }
    requires tellable { (i : ℕ) (l : Left) → slice_get left.old.items i ≡ Some l
        → IsTellableLeft table.old l }
    ensures told { left.new.items ≡ map (told_left table.old) left.old.items }
    ensures names { table.new ≡ names_left fixed table.old left.old.items }
    ensures grants { result ≡ grants_in left.old.items }
    ensures capacity { vec_capacity left.new ≡ vec_capacity left.old }
{
    let mut grants = 0;
    for i in 0..left.len() {
        let one = left[i];
        left[i] = told_left(table, one);
        forget_left(table, fixed, one);
        grants += grant_count(one.granted);
    }
    grants
}

/// A client leaves all names. What it held replaces what is there.
pub(crate) fn leave_among(rings: &mut Rings, table: &mut Table, client: u64, left: &mut Vec<Left>)
    requires kept { IsKeptNamed (seen rings.old table.old) }
    requires room { length rings.old.locks ≤ vec_capacity left.old }
    ensures left { IsLeftByName (seen rings.old table.old) (seen rings.new table.new) client
        left.new.items }
    ensures kept { IsKeptNamed (seen rings.new table.new) }
    ensures capacity { vec_capacity left.new ≡ vec_capacity left.old }
{
    left.clear();
    rings.locks.leave(client, left);
    rings.top += settle_left(table, rings.fixed, left);
}
