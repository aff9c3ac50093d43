//! The ring of a block and its calm, from event to event.

use history_steps::{calm_step, gauge_of, step_on};
use ring_model::limits::MACHINE_LIMIT;
use saved_history::{Saved, read_saved};
use std::alloc::Global;
use std::process::Abort;

/// A pass, a refused pass, a fault, and the two members of a group.
const EVENTS: &str = "ringfarm 2\nring 0 4 4\nstart 0 2 1 0\n\
    p 0 1 0 g 1 0\np 0 1 0 n\nc 0 3 2 0\nm 0 3 0 1 2 0\nm 0 2 0 0 3 0\nend 5\ndone 1\n";

fn saved_of(rt: &impl Abort, alloc: Global) -> Saved {
    let Ok(saved) = read_saved(alloc, EVENTS.as_bytes()) else {
        panic!(rt; "no saved text");
    };
    saved
}

#[test]
fn a_ring_goes_from_event_to_event(rt: HostRuntime) {
    let saved = saved_of(&rt, rt.alloc());
    let Some(ring) = saved.rings.first() else {
        panic!(rt; "no ring");
    };
    if ring.k == 0 || ring.n > MACHINE_LIMIT {
        panic!(rt; "no size of a ring");
    }
    let Ok(mut gauge) = gauge_of(rt.alloc(), ring) else {
        panic!(rt; "no memory");
    };
    assert!(rt; gauge.values() == [0, 2, 1, 0].as_slice());
    step_on(ring, 0, &mut gauge);
    assert!(rt; gauge.values() == [0, 0, 1, 0].as_slice());
    step_on(ring, 1, &mut gauge);
    assert!(rt; gauge.values() == [0, 0, 1, 0].as_slice());
    step_on(ring, 2, &mut gauge);
    assert!(rt; gauge.values() == [0, 0, 1, 2].as_slice());
    step_on(ring, 3, &mut gauge);
    assert!(rt; gauge.values() == [0, 0, 1, 1].as_slice());
    step_on(ring, 4, &mut gauge);
    assert!(rt; gauge.values() == [0, 0, 0, 1].as_slice());
    // after the last event nothing changes
    step_on(ring, 5, &mut gauge);
    assert!(rt; gauge.values() == [0, 0, 0, 1].as_slice());
}

#[test]
fn the_calm_counts_grants_since_the_last_fault(rt: HostRuntime) {
    let saved = saved_of(&rt, rt.alloc());
    let Some(ring) = saved.rings.first() else {
        panic!(rt; "no ring");
    };
    let first = calm_step(ring, 0, 0);
    let refused = calm_step(ring, 1, first);
    let fault = calm_step(ring, 2, refused);
    let member = calm_step(ring, 3, fault);
    let group = calm_step(ring, 4, member);
    let behind = calm_step(ring, 5, group);
    assert!(rt; (first, refused, fault) == (1, 1, 0));
    assert!(rt; (member, group, behind) == (1, 2, 2));
}
