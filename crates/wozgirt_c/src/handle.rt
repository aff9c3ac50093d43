//! The handle that C holds: a pointer whose type says nothing.
ghost use Rattle.std.specs.Prelude.{◌≡◌, ◌≢◌, Bool, true, false, not, IfSome, IfNone};
ghost use Rattle.std_alloc.specs.Box.Ownership.{box_owns};
ghost use Rattle.wozgirt_c.specs.Held.{held};
ghost use Rattle.std.specs.contracts.impls.GlobalAllocator.TheImpl.{ghosts};
ghost use Rattle.c_calls.specs.Codes.{no_memory};
ghost use Rattle.c_calls.specs.contracts.kept.Kept as kept;
ghost use Rattle.c_calls.specs.declared.kept.Kept.{Kept};

mod lends;

use crate::loose::{Loose, boxed, send};
use c_calls::codes::NO_MEMORY;
use c_calls::kept::Kept;
use core::mem::{replace, replace_with};
pub(crate) use lends::opened;
use std::alloc::Global;
use std::marker::Model;
use std::ptr::null_mut;

/// What C holds: where it is full the box at `at`, whose value is `value`; else nothing, and `at` is null.
#[repr(C)]
#[derive(Drop)]
pub struct Handle {
    at: *mut u8,
    alloc: Global,
    pub ghost full: { Bool },
    pub ghost value: { Kept } by { kept.the_row.coded },
}

impl Model for Handle {
    ghost also_owns = { λ h. held h.at h.full
        (box_owns (ghosts.dealloc_token h.alloc) kept.the_row h.at h.value) };
}

// C may give a handle to another thread, one call at a time.
unsafe impl Send for Handle {}

/// A handle may go to another thread: without a proof of that, this is not a program.
pub(crate) fn handles_are_sent(handle: &Handle) {
    send(handle);
}

/// Whether what C holds is closed.
pub(crate) fn is_closed(ring: &mut Handle) -> bool
    ensures same { ring.new ≡ ring.old }
    ensures is { result ≡ not ring.old.full }
{
    ring.at.is_null()
}

/// A handle that has the box.
fn hold(loose: Loose<Kept, Global>) -> Handle
    requires { loose.full ≡ true }
    ensures { (result.full ≡ true) × (result.value ≡ loose.value) }
{
    let Loose { at, alloc } = loose;
    Handle {
        at: at as *mut u8,
        alloc,
    }
}

/// A handle that has nothing, and the box that this one has.
fn take(handle: Handle, alloc: Global) -> (Handle, Loose<Kept, Global>)
    requires { handle.full ≡ true }
    ensures { (result.0.full ≡ false)
        × (result.1.full ≡ true)
        × (result.1.value ≡ handle.value) }
{
    let Handle { at, alloc: own } = handle;
    (
        Handle {
            at: null_mut(),
            alloc,
        },
        Loose {
            at: at as *mut Kept,
            alloc: own,
        },
    )
}

/// Takes out what C holds, whose handle is closed then; none where it is closed already.
pub(crate) fn take_out(ring: &mut Handle, alloc: Global) -> Option<Box<Kept>>
    ensures some { IfSome result (λ b. (ring.old.full ≡ true) × (b.value ≡ ring.old.value)) }
    ensures none { IfNone result ((ring.old.full ≡ false) × (ring.new ≡ ring.old)) }
    ensures closed { ring.new.full ≡ false }
{
    if is_closed(ring) {
        return None;
    }
    Some(replace_with(ring, alloc, take).into_box())
}

/// Puts a ring into a handle that is closed: 0, or the code of that there is no memory for it.
pub(crate) fn put(ring: &mut Handle, alloc: Global, kept: Kept) -> u32
    requires { ring.old.full ≡ false }
    ensures ok { result ≡ 0 → (ring.new.full ≡ true) × (ring.new.value ≡ kept) }
    ensures err { result ≢ 0 → (result ≡ no_memory) × (ring.new ≡ ring.old) }
{
    let Some(kept) = boxed(alloc, kept) else {
        return NO_MEMORY;
    };
    replace(ring, hold(Loose::of(kept)));
    0
}
