//! A ring more in the pool.

ghost use Rattle.std.specs.Prelude.{◌≡◌, IfErr, OnOk};
ghost use Rattle.held_locks.specs.Kept.{IsKeptRing};
ghost use Rattle.lock_names.specs.Kept.{seen, IsKeptNamed};
ghost use Rattle.lock_names.specs.Grown.{IsGrown, CannotGrow};
ghost use Rattle.held_locks.specs.declared.answers.Refusal.{Refusal};
ghost use Rattle.lock_names.specs.declared.growing.NotGrown.{NotGrown};

use crate::asks::Rings;
use crate::names::TOP_LIMIT;
use crate::table::Table;
use endless_ring::EndlessRing;
use held_locks::Refusal;
use std::alloc::Global;

/// Why a ring cannot be added.
#[derive(Clone, Copy, Debug, PartialEq, Eq)]
pub enum NotGrown {
    /// A hold is open in its history.
    Held,
    /// There are as many locks as may be, the ring's segment has no room for its repair, or there were
    /// [`TOP_LIMIT`](crate::TOP_LIMIT) grants.
    Full,
    /// There is no memory for it.
    Memory,
}

/// Why a lock could not be added.
fn not_added(why: Refusal) -> NotGrown
    ensures full { why ≡ Refusal.Full → result ≡ NotGrown.Full }
    ensures memory { why ≡ Refusal.Memory → result ≡ NotGrown.Memory }
{
    match why {
        Refusal::Full => NotGrown::Full,
        _ => NotGrown::Memory,
    }
}

/// Adds a ring to the pool. If it cannot, the locks are of no use.
pub(crate) fn add_ring(
    rings: &mut Rings,
    table: &mut Table,
    alloc: Global,
    ring: EndlessRing,
) -> Result<(), NotGrown>
    requires kept { IsKeptNamed (seen rings.old table.old) }
    requires ring { IsKeptRing ring }
    ensures ok { OnOk result (IsGrown (seen rings.old table.old) (seen rings.new table.new) ring) }
    ensures kept { OnOk result (IsKeptNamed (seen rings.new table.new)) }
    ensures why { IfErr result (λ e. CannotGrow (seen rings.old table.old) ring e) }
{
    let last = rings.locks.count();
    match rings.locks.add(alloc, ring) {
        Ok(()) => {}
        Err(why) => return Err(not_added(why)),
    }
    rings.locks.are_kept();
    if rings.locks.holder(last).is_some() {
        return Err(NotGrown::Held);
    }
    let more = rings.locks.ring(last).grants();
    let room = TOP_LIMIT.saturating_sub(rings.top);
    if more >= room {
        return Err(NotGrown::Full);
    }
    let Ok(()) = table.add_free() else {
        return Err(NotGrown::Memory);
    };
    rings.top += more;
    Ok(())
}
