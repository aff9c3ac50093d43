//! A box as its pointer, or no box.
ghost use Rattle.std.specs.Prelude.{◌≡◌, Bool, true, IfSome};
ghost use Rattle.std_alloc.specs.Box.Ownership.{box_owns};
ghost use Rattle.wozgirt_c.specs.Held.{loosed};

use std::alloc::Allocator;
use std::marker::Model;

/// Where it is open it owns the box at `at`, whose value is `value`. To let it go frees nothing.
#[derive(Drop)]
pub struct Loose<T, A: Allocator> {
    pub at: *mut T,
    pub alloc: A,
    pub ghost full: { Bool },
    pub ghost value: { T },
}

impl<T, A: Allocator> Model for Loose<T, A> {
    ghost also_owns = { λ l. loosed l.full (box_owns (A.dealloc_token l.alloc) T.row l.at l.value) };
}

impl<T: Drop, A: Allocator> Loose<T, A> {
    pub fn of(value: Box<T, A>) -> Loose<T, A>
        ensures { (result.full ≡ true) × (result.value ≡ value.value) }
    {
        let (at, alloc) = Box::into_raw_with_allocator(value);
        Loose { at, alloc }
    }

    pub fn into_box(self) -> Box<T, A>
        requires { self.full ≡ true }
        ensures { result.value ≡ self.value }
    {
        let Loose { at, alloc } = self;
        unsafe { Box::from_raw(alloc, at) }
    }
}

/// A box of its own for the value, if there is memory for it.
pub(crate) fn boxed<T: Drop, A: Allocator>(alloc: A, value: T) -> Option<Box<T, A>>
    ensures { IfSome result (λ b. b.value ≡ value) }
{
    match Box::new(alloc, value) {
        Ok(made) => Some(made),
        Err(_) => None,
    }
}

/// Takes what another thread may have.
pub(crate) fn send<T: Send>(_value: &T) {}
