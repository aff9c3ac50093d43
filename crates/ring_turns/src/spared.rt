//! A resource over which a machine can be passed on: one order does no work.
ghost use Rattle.std.specs.Prelude.{◌≡◌};
ghost use Rattle.ring_turns.specs.Spared.{on_order};

use ring_book::Resource;
use std::marker::Model;

/// The order by which a machine whose client wants nothing is passed on. A turn that is taken with it does no work
/// either.
pub const PASS_ON: u64 = u64::MAX;

/// A resource that does no work on the order `PASS_ON`, which it answers with 0, and its own work on each other.
/// Contracts see the content of the resource.
#[derive(Drop)]
pub struct Spared<R: Resource + Drop> {
    inner: R,
}

impl<R: Resource + Drop> Model for Spared<R> {
    ghost Value = { R };

    ghost view = { λ s. s.inner };
}

impl<R: Resource + Drop> Spared<R> {
    /// The resource, spared.
    pub fn new(inner: R) -> Spared<R>
        ensures { result ≡ inner }
    {
        Spared { inner }
    }

    /// The resource.
    pub fn inner(&self) -> &R
        ensures { result.now ≡ self.now }
    {
        &self.inner
    }

    /// The resource, taken out.
    pub fn into_inner(self) -> R
        ensures { result ≡ self }
    {
        let Spared { inner } = self;
        inner
    }
}

impl<R: Resource + Drop> Resource for Spared<R> {
    ghost use Rattle.ring_turns.specs.Spared.{spared};

    ghost first = { R.first };

    ghost works = { spared R.works };

    fn work(&mut self, machine: u32, order: u64) -> u64 {
        if order == PASS_ON {
            0
        } else {
            self.inner.work(machine, order)
        }
    }
}
