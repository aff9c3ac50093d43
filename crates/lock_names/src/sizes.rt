//! How many rings a pool should have.

ghost use Rattle.std.specs.Prelude.{◌≡◌, ℕ, ◌+◌, ◌≤◌, length, slice_get, Some, None};
ghost use Rattle.lock_names.specs.Sizes.{IsWanted, AreUsedUntil};

use crate::table::Table;

/// How many rings a pool has at least.
pub const LEAST_POOL: u64 = 1024;

/// How many rings a pool should have if this number of them is in use: the least power of two, from [`LEAST_POOL`] on, of which
/// a quarter is left.
pub fn wanted_pool(used: u32) -> u64
    ensures { IsWanted used result }
{
    let mut size = LEAST_POOL;
    while 3 * size < 4 * used as u64 {
        size *= 2;
    }
    size
}

/// How many rings of the pool there are up to the last one that has a name.
pub(crate) fn used_among(table: &Table, fixed: u32) -> u32
    requires few { length table.now ≤ 1000000 }
    requires fixed { fixed ≤ length table.now }
    requires named { (i : ℕ) → slice_get table.now i ≡ Some None → fixed ≤ i }
    ensures { AreUsedUntil table.now (fixed + result) }
{
    let mut end = table.count() as u32;
    while end > fixed {
        if table.binding(end - 1).is_some() {
            return end - fixed;
        }
        end -= 1;
    }
    0
}
