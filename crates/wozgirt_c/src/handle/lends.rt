//! What C holds, lent to one call.
ghost use types.Logic.{sem};
ghost use denote.Follow.{follows, follows_if};
ghost use Rattle.std.specs.Prelude.{◌≡◌, true, false, IfSome, IfNone};
ghost use Rattle.core.specs.Option.{ghost_name_of};
ghost use Rattle.c_calls.specs.contracts.kept.Kept as kept;
ghost use Rattle.wozgirt_c.specs.Lent.{with_ring};
ghost use Rattle.wozgirt_c.specs.contracts.handle.Handle as handle;

use super::{Handle, is_closed};
use c_calls::kept::Kept;

/// What a handle that is full has, lent; the handle follows it.
fn lend(ring: &mut Handle) -> &mut Kept
    requires { ring.old.full ≡ true }
    ensures* writes_back { sem 𝓛 (follows handle.the_row kept.the_row ring.entry.ghost_name
        result.ghost_name (with_ring ring.old)) }
    ensures value { result.now ≡ ring.old.value }
{
    unsafe { &mut *(ring.at as *mut Kept) }
}

/// What C holds, lent; none where it is closed.
pub(crate) fn opened(ring: &mut Handle) -> Option<&mut Kept>
    ensures* writes_back { sem 𝓛 (follows_if handle.the_row kept.the_row ring.entry.ghost_name
        (ghost_name_of result) (with_ring ring.old) ring.old) }
    ensures some { IfSome result (λ k. (ring.old.full ≡ true) × (k.now ≡ ring.old.value)) }
    ensures none { IfNone result (ring.old.full ≡ false) }
{
    if is_closed(ring) {
        return None;
    }
    Some(lend(ring))
}
