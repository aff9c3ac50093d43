//! Rings that lines drive: readers, writers and files that fail. The answers to a dialogue, and its journal, are rows
//! of `tests/rows`.

mod chained;
mod files;
mod journals;
mod streams;

use endless_ring::EndlessRing;
use one_thread_ring::OneThreadRing;
use ring_book::Till;
use ring_model::Base;
use ring_service::{Permits, Served};
use std::alloc::Global;
use std::process::Abort;

/// Lines may call the rings, and nothing else.
const NOTHING: Permits<'static> = Permits {
    faults: false,
    saves: None,
    history: None,
    strict: false,
};

/// A ring of three machines with three values, and one seat.
fn served(rt: &impl Abort, alloc: Global) -> Served {
    let mut served = Served::none(alloc);
    let Ok(ring) = OneThreadRing::open(alloc, 3, 3, &[0, 2, 0], 1, Till::new()) else {
        panic!(rt; "the ring is opened");
    };
    let ring = EndlessRing::after(Base::none(), ring);
    assert!(rt; served.add(ring).is_ok());
    served
}
