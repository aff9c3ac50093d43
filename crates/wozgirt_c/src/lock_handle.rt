//! The handle of locks that C holds, as that of a ring (`handle.rt`).
ghost use Rattle.std.specs.Prelude.{◌≡◌, ◌≢◌, Bool, true, false, not, IfSome, IfNone};
ghost use Rattle.std_alloc.specs.Box.Ownership.{box_owns};
ghost use Rattle.wozgirt_c.specs.Held.{held};
ghost use Rattle.std.specs.contracts.impls.GlobalAllocator.TheImpl.{ghosts};
ghost use Rattle.c_calls.specs.Codes.{no_memory};
ghost use Rattle.c_calls.specs.contracts.desks.LockDesk as desk;
ghost use Rattle.c_calls.specs.declared.desks.LockDesk.{LockDesk};

mod lends;

use crate::loose::{Loose, boxed, send};
use c_calls::codes::NO_MEMORY;
use c_calls::desks::LockDesk;
use core::mem::{replace, replace_with};
pub(crate) use lends::opened;
use std::alloc::Global;
use std::marker::Model;
use std::ptr::null_mut;

/// What C holds: where it is full the box at `at`, whose value is `value`; else nothing, and `at` is null.
#[repr(C)]
#[derive(Drop)]
pub struct LockHandle {
    at: *mut u8,
    alloc: Global,
    pub ghost full: { Bool },
    pub ghost value: { LockDesk } by { desk.the_row.coded },
}

impl Model for LockHandle {
    ghost also_owns = { λ h. held h.at h.full
        (box_owns (ghosts.dealloc_token h.alloc) desk.the_row h.at h.value) };
}

// C may give a handle to another thread, one call at a time.
unsafe impl Send for LockHandle {}

/// A handle may go to another thread: without a proof of that, this is not a program.
pub(crate) fn lock_handles_are_sent(handle: &LockHandle) {
    send(handle);
}

/// Whether what C holds is closed.
pub(crate) fn is_closed(locks: &mut LockHandle) -> bool
    ensures same { locks.new ≡ locks.old }
    ensures is { result ≡ not locks.old.full }
{
    locks.at.is_null()
}

/// A handle that has the box.
fn hold(loose: Loose<LockDesk, Global>) -> LockHandle
    requires { loose.full ≡ true }
    ensures { (result.full ≡ true) × (result.value ≡ loose.value) }
{
    let Loose { at, alloc } = loose;
    LockHandle {
        at: at as *mut u8,
        alloc,
    }
}

/// A handle that has nothing, and the box that this one has.
fn take(handle: LockHandle, alloc: Global) -> (LockHandle, Loose<LockDesk, Global>)
    requires { handle.full ≡ true }
    ensures { (result.0.full ≡ false)
        × (result.1.full ≡ true)
        × (result.1.value ≡ handle.value) }
{
    let LockHandle { at, alloc: own } = handle;
    (
        LockHandle {
            at: null_mut(),
            alloc,
        },
        Loose {
            at: at as *mut LockDesk,
            alloc: own,
        },
    )
}

/// Takes out the locks that C holds, whose handle is closed then; none where it is closed already.
pub(crate) fn take_out(locks: &mut LockHandle, alloc: Global) -> Option<Box<LockDesk>>
    ensures some { IfSome result (λ b. (locks.old.full ≡ true) × (b.value ≡ locks.old.value)) }
    ensures none { IfNone result ((locks.old.full ≡ false) × (locks.new ≡ locks.old)) }
    ensures closed { locks.new.full ≡ false }
{
    if is_closed(locks) {
        return None;
    }
    Some(replace_with(locks, alloc, take).into_box())
}

/// Puts locks into a handle that is closed: 0, or the code of that there is no memory for them.
pub(crate) fn put(locks: &mut LockHandle, alloc: Global, desk: LockDesk) -> u32
    requires { locks.old.full ≡ false }
    ensures ok { result ≡ 0 → (locks.new.full ≡ true) × (locks.new.value ≡ desk) }
    ensures err { result ≢ 0 → (result ≡ no_memory) × (locks.new ≡ locks.old) }
{
    let Some(desk) = boxed(alloc, desk) else {
        return NO_MEMORY;
    };
    replace(locks, hold(Loose::of(desk)));
    0
}
