//! Locks that get back the names that they had.

ghost use Rattle.std.specs.Prelude.{◌≡◌, ◌≢◌, ℕ, ◌+◌, ◌<◌, ◌≤◌, ◌++◌, ◌⊎◌, List, length, map, slice_get, true, false, Option, Some, None, IfOk, IfErr, OnOk, string_bytes};
ghost use Rattle.held_locks.specs.Queues.{Lock};
ghost use Rattle.held_locks.specs.Kept.{lock_of, locks_of, LockView};
ghost use Rattle.lock_names.specs.Names.{Bound, total, found};
ghost use Rattle.lock_names.specs.Promises.{IsRightBound, IsRightName};
ghost use Rattle.name_bindings.specs.Bindings.{fixed_names, AreNamedOnce};
ghost use Rattle.lock_names.specs.Table.{bound_of, bounds_of};
ghost use Rattle.lock_names.specs.Restored.{IsWrongBound, IsWrongName, HasWrongName};
ghost use Rattle.lock_names.specs.declared.restoring.NotRestored.{NotRestored};

use crate::starting::{NotBegun, add_names};
use crate::table::{Binding, Table, copy_ring};
use held_locks::{Holder, Locks};
use std::alloc::Global;

/// Why locks cannot get their names back.
#[derive(Clone, Copy, Debug, PartialEq, Eq)]
pub enum NotRestored {
    /// There are not as many locks as names of fixed ones and rings of the pool.
    Locks,
    /// There were [`TOP_LIMIT`](crate::TOP_LIMIT) grants already.
    Full,
    /// The locks had more grants than are counted.
    Top,
    /// Two rings have one name.
    Twice,
    /// A client holds a ring of the pool that has no name.
    Unnamed,
    /// A ring of the pool has a name, and no client holds it.
    Free,
    /// A ring has had fewer grants than when its name was bound.
    Before,
    /// A name has had a token above the number of all grants.
    Token,
    /// The hold of a ring is none of its grants since its name was bound.
    Hold,
    /// There is no memory for the names.
    Memory,
}

/// Whether the locks had no more than this number of grants.
pub(crate) fn are_counted(locks: &Locks, top: u64) -> bool
    ensures yes { result ≡ true → total (locks_of locks.now) ≤ top }
    ensures no { result ≡ false → top < total (locks_of locks.now) }
{
    let mut room = top;
    for lock in 0..locks.count() {
        let more = locks.ring(lock).grants();
        if more > room {
            return false;
        }
        room -= more;
    }
    true
}

/// Why the name of a ring cannot be added.
fn not_added(why: NotBegun) -> NotRestored
    ensures twice { why ≡ NotBegun.Twice → result ≡ NotRestored.Twice }
    ensures memory { why ≡ NotBegun.Memory → result ≡ NotRestored.Memory }
{
    match why {
        NotBegun::Twice => NotRestored::Twice,
        _ => NotRestored::Memory,
    }
}

/// Whether a ring has the name of a binding, if there is one.
fn is_taken(table: &Table, binding: &Option<Binding>) -> bool
    ensures yes { result ≡ true → (b : Binding) × (binding.now ≡ Some b)
        × (found (string_bytes b.name) table.now ≢ None) }
    ensures no { result ≡ false → (b : Binding) → binding.now ≡ Some b
        → found (string_bytes b.name) table.now ≡ None }
{
    match binding {
        Some(binding) => table.find(binding.name.as_str()).is_some(),
        None => false,
    }
}

/// The rings of the pool, with their names.
fn add_pool_names(
    table: &mut Table,
    alloc: Global,
    pool: &[Option<Binding>],
) -> Result<(), NotRestored>
    requires few { length table.old + length pool.now ≤ 1000000 }
    ensures ok { OnOk result (table.new ≡ table.old ++ bounds_of pool.now) }
    ensures why { IfErr result (λ e. ((e ≡ NotRestored.Twice)
        × ¬ AreNamedOnce (table.old ++ bounds_of pool.now)) ⊎ (e ≡ NotRestored.Memory)) }
{
    for binding in pool {
        if is_taken(table, binding) {
            return Err(NotRestored::Twice);
        }
        let Ok(()) = copy_ring(table, alloc, binding) else {
            return Err(NotRestored::Memory);
        };
    }
    Ok(())
}

/// The names of fixed locks, and those of the pool.
pub(crate) fn restored_table(
    alloc: Global,
    fixed: &[String],
    pool: &[Option<Binding>],
) -> Result<Table, NotRestored>
    requires few { length fixed.now + length pool.now ≤ 1000000 }
    ensures ok { IfOk result (λ table. table
        ≡ fixed_names (map string_bytes fixed.now) ++ bounds_of pool.now) }
    ensures once { OnOk result
        (AreNamedOnce (fixed_names (map string_bytes fixed.now) ++ bounds_of pool.now)) }
    ensures why { IfErr result (λ e. ((e ≡ NotRestored.Twice)
        × ¬ AreNamedOnce (fixed_names (map string_bytes fixed.now) ++ bounds_of pool.now))
        ⊎ (e ≡ NotRestored.Memory)) }
{
    let mut table = Table::none(alloc);
    match add_names(&mut table, alloc, fixed) {
        Ok(()) => {}
        Err(why) => return Err(not_added(why)),
    }
    match add_pool_names(&mut table, alloc, pool) {
        Ok(()) => {}
        Err(why) => return Err(why),
    }
    table.are_apart();
    Ok(table)
}

/// A ring with this number of grants and this holder is bound right; or why not.
fn check_binding(
    binding: &Binding,
    grants: u64,
    holder: Option<Holder>,
    top: u64,
) -> Result<(), NotRestored>
    ensures ok { (l : Lock) → l.ring.grants ≡ grants → l.holder ≡ holder
        → OnOk result (IsRightBound top l (bound_of binding.now)) }
    ensures why { (l : Lock) → l.ring.grants ≡ grants → l.holder ≡ holder
        → IfErr result (λ e. IsWrongBound top l (bound_of binding.now) e) }
{
    if grants < binding.before {
        return Err(NotRestored::Before);
    }
    let since = grants.saturating_sub(binding.before);
    if top < binding.floor || top - binding.floor < since {
        return Err(NotRestored::Token);
    }
    match holder {
        Some(holder) => {
            if holder.token <= binding.before || grants < holder.token {
                return Err(NotRestored::Hold);
            }
            Ok(())
        }
        None => Ok(()),
    }
}

/// A ring is named right; or why not.
fn check_name(
    locks: &Locks,
    table: &Table,
    fixed: u32,
    top: u64,
    ring: u32,
) -> Result<(), NotRestored>
    requires lock { ring < length locks.now }
    requires fixed { slice_get table.now ring ≡ Some None → fixed ≤ ring }
    ensures ok { (v : LockView) (o : Option Bound) → slice_get locks.now ring ≡ Some v
        → slice_get table.now ring ≡ Some o
        → OnOk result (IsRightName fixed top ring (lock_of v) o) }
    ensures why { (v : LockView) (o : Option Bound) → slice_get locks.now ring ≡ Some v
        → slice_get table.now ring ≡ Some o
        → IfErr result (λ e. IsWrongName fixed top ring (lock_of v) o e) }
{
    let holder = locks.holder(ring);
    let Some(binding) = table.binding(ring) else {
        return if holder.is_some() {
            Err(NotRestored::Unnamed)
        } else {
            Ok(())
        };
    };
    if fixed <= ring && holder.is_none() {
        return Err(NotRestored::Free);
    }
    match check_binding(binding, locks.ring(ring).grants(), holder, top) {
        Ok(()) => Ok(()),
        Err(why) => Err(why),
    }
}

/// Each ring is named right; or why not.
pub(crate) fn check_names(
    locks: &Locks,
    table: &Table,
    fixed: u32,
    top: u64,
) -> Result<(), NotRestored>
    requires many { length table.now ≡ length locks.now }
    requires fixed { (i : ℕ) → slice_get table.now i ≡ Some None → fixed ≤ i }
    ensures ok { (i : ℕ) (l : Lock) (o : Option Bound) → slice_get (locks_of locks.now) i ≡ Some l
        → slice_get table.now i ≡ Some o → OnOk result (IsRightName fixed top i l o) }
    ensures why { IfErr result (λ e. HasWrongName (record {
      locks = locks_of locks.now;
      names = table.now;
      fixed = fixed;
      top = top;
    }) e) }
{
    for ring in 0..locks.count() {
        match check_name(locks, table, fixed, top, ring) {
            Ok(()) => {}
            Err(why) => return Err(why),
        }
    }
    Ok(())
}
