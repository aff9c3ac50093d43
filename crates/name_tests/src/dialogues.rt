//! Locks with names, and what is asked of them.

ghost use Rattle.ring_model.specs.Bases.{IsBase};
ghost use Rattle.held_locks.specs.Kept.{IsKeptRing};

use endless_ring::EndlessRing;
use held_locks::{Locks, OneAsk};
use lock_names::{Names, NotBegun};
use one_thread_ring::OneThreadRing;
use ring_book::Till;
use ring_model::Base;
use std::alloc::Global;
use std::process::Abort;

/// A settled ring of ten seats, after this base.
pub(crate) fn opened(rt: &impl Abort, alloc: Global, base: Base) -> EndlessRing
    requires { IsBase base }
    ensures { IsKeptRing result }
{
    match OneThreadRing::open(alloc, 3, 3, &[0, 0, 0], 10, Till::new()) {
        Ok(ring) => EndlessRing::after(base, ring),
        Err(_) => panic!(rt; "the ring is opened"),
    }
}

pub(crate) fn some_locks(rt: &impl Abort, alloc: Global, count: u32) -> Locks {
    let mut locks = Locks::none(alloc);
    for _ in 0..count {
        assert!(rt; locks.add(alloc, opened(rt, alloc, Base::none())).is_ok());
    }
    locks
}

pub(crate) fn three_locks(rt: &impl Abort, alloc: Global) -> Locks {
    some_locks(rt, alloc, 3)
}

pub(crate) fn text(rt: &impl Abort, alloc: Global, name: &str) -> String {
    match String::from_str(alloc, name) {
        Ok(name) => name,
        Err(_) => panic!(rt; "there is memory"),
    }
}

pub(crate) fn texts(rt: &impl Abort, alloc: Global, fixed: &[&str]) -> Vec<String> {
    let mut names = Vec::new(alloc);
    for name in fixed {
        assert!(rt; names.push(text(rt, alloc, *name)).is_ok());
    }
    names
}

/// Names of such locks, of which the first ones are fixed.
pub(crate) fn begun(
    rt: &impl Abort,
    alloc: Global,
    locks: Locks,
    fixed: &[&str],
) -> Result<Names, NotBegun> {
    Names::begin(alloc, locks, &texts(rt, alloc, fixed))
}

pub(crate) fn acquire(label: u64) -> OneAsk {
    OneAsk::Acquire { label }
}

pub(crate) fn release(token: u64) -> OneAsk {
    OneAsk::Release { token }
}
