//! Locks that begin to have names.

ghost use Rattle.std.specs.Prelude.{◌≡◌, ℕ, ◌+◌, ◌-◌, ◌<◌, ◌≤◌, ◌++◌, ◌⊎◌, [], List, length, map, IfOk, IfErr, OnOk, string_bytes};
ghost use Rattle.held_locks.specs.Kept.{locks_of};
ghost use Rattle.lock_names.specs.Names.{total};
ghost use Rattle.lock_names.specs.Promises.{NoneHeld};
ghost use Rattle.name_bindings.specs.Bindings.{AreDistinct, fixed_names, frees};
ghost use Rattle.lock_names.specs.Begun.{CannotBegin};
ghost use Rattle.lock_names.specs.Kept.{top_limit};
ghost use Rattle.lock_names.specs.declared.starting.NotBegun.{NotBegun};

use crate::names::TOP_LIMIT;
use crate::table::{Counts, Table};
use held_locks::Locks;
use std::alloc::Global;

/// Why locks cannot begin to have names.
#[derive(Clone, Copy, Debug, PartialEq, Eq)]
pub enum NotBegun {
    /// There are fewer locks than names.
    Locks,
    /// A name is twice in the list.
    Twice,
    /// A client holds a lock.
    Held,
    /// There were [`TOP_LIMIT`] grants already.
    Full,
    /// There is no memory for the names.
    Memory,
}

/// How many grants there were of all locks, of which no client may hold one.
pub(crate) fn grants_of(locks: &Locks) -> Result<u64, NotBegun>
    ensures ok { IfOk result (λ n. n ≡ total (locks_of locks.now)) }
    ensures few { IfOk result (λ n. n < top_limit) }
    ensures free { OnOk result (NoneHeld (locks_of locks.now)) }
    ensures why { (ns : List (List ℕ)) → IfErr result (λ e. CannotBegin locks.now ns e) }
{
    let mut sum = 0;
    for lock in 0..locks.count() {
        if locks.holder(lock).is_some() {
            return Err(NotBegun::Held);
        }
        let more = locks.ring(lock).grants();
        let room = TOP_LIMIT - sum;
        if more >= room {
            return Err(NotBegun::Full);
        }
        sum += more;
    }
    Ok(sum)
}

/// The names of fixed locks.
pub(crate) fn add_names(table: &mut Table, alloc: Global, names: &[String]) -> Result<(), NotBegun>
    requires none { table.old ≡ [] }
    requires few { length names.now ≤ 1000000 }
    ensures ok { OnOk result (table.new ≡ fixed_names (map string_bytes names.now)) }
    ensures why { IfErr result (λ e. ((e ≡ NotBegun.Twice)
        × ¬ AreDistinct (map string_bytes names.now)) ⊎ (e ≡ NotBegun.Memory)) }
{
    for name in names {
        if table.find(name.as_str()).is_some() {
            return Err(NotBegun::Twice);
        }
        let counts = Counts {
            before: 0,
            floor: 0,
        };
        let Ok(()) = table.add_named(alloc, name.as_str(), counts) else {
            return Err(NotBegun::Memory);
        };
    }
    Ok(())
}

/// Free rings, until there is this number of rings.
fn add_pool(table: &mut Table, count: usize) -> Result<(), NotBegun>
    requires few { count ≤ 1000000 }
    requires more { length table.old ≤ count }
    ensures ok { OnOk result (table.new ≡ table.old ++ frees (count - length table.old)) }
    ensures why { IfErr result (λ e. e ≡ NotBegun.Memory) }
{
    while table.count() < count {
        let Ok(()) = table.add_free() else {
            return Err(NotBegun::Memory);
        };
    }
    Ok(())
}

/// The names of fixed locks, and free rings up to this number.
pub(crate) fn begun_table(alloc: Global, names: &[String], count: usize) -> Result<Table, NotBegun>
    requires few { count ≤ 1000000 }
    requires more { length names.now ≤ count }
    ensures ok { IfOk result (λ table. table
        ≡ fixed_names (map string_bytes names.now) ++ frees (count - length names.now)) }
    ensures apart { OnOk result (AreDistinct (map string_bytes names.now)) }
    ensures why { IfErr result (λ e. ((e ≡ NotBegun.Twice)
        × ¬ AreDistinct (map string_bytes names.now)) ⊎ (e ≡ NotBegun.Memory)) }
{
    let mut table = Table::none(alloc);
    match add_names(&mut table, alloc, names) {
        Ok(()) => {}
        Err(why) => return Err(why),
    }
    match add_pool(&mut table, count) {
        Ok(()) => {}
        Err(why) => return Err(why),
    }
    table.are_apart();
    Ok(table)
}
