//! What locks C holds, lent to one call.
ghost use types.Logic.{sem};
ghost use denote.Follow.{follows, follows_if};
ghost use Rattle.std.specs.Prelude.{◌≡◌, true, false, IfSome, IfNone};
ghost use Rattle.core.specs.Option.{ghost_name_of};
ghost use Rattle.c_calls.specs.contracts.desks.LockDesk as desk;
ghost use Rattle.wozgirt_c.specs.Lent.{with_locks};
ghost use Rattle.wozgirt_c.specs.contracts.lock_handle.LockHandle as handle;

use super::{LockHandle, is_closed};
use c_calls::desks::LockDesk;

/// What a handle that is full has, lent; the handle follows it.
fn lend(locks: &mut LockHandle) -> &mut LockDesk
    requires { locks.old.full ≡ true }
    ensures* writes_back { sem 𝓛 (follows handle.the_row desk.the_row locks.entry.ghost_name
        result.ghost_name (with_locks locks.old)) }
    ensures value { result.now ≡ locks.old.value }
{
    unsafe { &mut *(locks.at as *mut LockDesk) }
}

/// The locks that C holds, lent; none where they are closed.
pub(crate) fn opened(locks: &mut LockHandle) -> Option<&mut LockDesk>
    ensures* writes_back { sem 𝓛 (follows_if handle.the_row desk.the_row locks.entry.ghost_name
        (ghost_name_of result) (with_locks locks.old) locks.old) }
    ensures some { IfSome result (λ d. (locks.old.full ≡ true) × (d.now ≡ locks.old.value)) }
    ensures none { IfNone result (locks.old.full ≡ false) }
{
    if is_closed(locks) {
        return None;
    }
    Some(lend(locks))
}
