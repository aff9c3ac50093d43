//! How the workers of a farm come to its gate, each on a thread of its own.

use super::gates::{Arrival, BothRings, Crossed, Tally, Together, new_tally};
use super::{CROSSING, IDLE, SCRIPTED, outcome, ran, refusal};
use ring_farm::FarmError;
use std::sync::atomic::{AtomicU64, Ordering};

/// Two rings, and two workers that go to and fro between them.
const INTERLEAVED: &str =
    r#"{"rings":[{"n":2,"k":2,"start":[0,0]},{"n":3,"k":3,"start":[0,0,0]}],"workers":[{"script":[["pass",0,0,1],["pass",1,2,1],["survey",0],["pass",1,0,1],["survey",1]]},{"script":[["survey",1],["pass",0,1,1],["pass",1,1,1],["survey",0],["pass",0,0,1],["pass",0,1,2]]}]}"#;

/// One call by each of ten workers, as a tally has it.
const ONE_EACH: u64 = 18_300_341_342_965_825;

/// The counts of a tally: the calls on each of two rings, and those with a wrong number.
fn counts(gate: &Tally) -> (u64, u64, u64) {
    (
        gate.first.load(Ordering::SeqCst),
        gate.second.load(Ordering::SeqCst),
        gate.wrong.load(Ordering::SeqCst),
    )
}

/// The arrival that a gate is shut at.
fn at(ring: u32, worker: u32, call: u32) -> Option<Arrival> {
    Some(Arrival { ring, worker, call })
}

// Worker w's calls are in a word's six bits from 6w on: 64 for each call of worker 1.
#[test]
fn each_call_has_its_ring_its_worker_and_its_number(rt: HostRuntime) {
    let alloc = rt.alloc();
    let shut = Some(FarmError::GateShut);
    for (text, shut_at, first, second, want) in [
        // The plan's four actions, and once more.
        (SCRIPTED, None, 5, 0, None),
        (SCRIPTED, at(0, 0, 4), 5, 0, shut),
        // Ten plans with nothing to do: each worker comes once.
        (IDLE, None, ONE_EACH, 0, None),
        (IDLE, at(0, 9, 0), ONE_EACH, 0, shut),
        (INTERLEAVED, None, 3 + 5 * 64, 4 + 3 * 64, None),
        // A worker that is shut out stops only there: not on the other ring, and no other worker.
        (INTERLEAVED, at(1, 0, 1), 3 + 5 * 64, 2 + 3 * 64, shut),
        (INTERLEAVED, at(0, 1, 4), 3 + 5 * 64, 4 + 3 * 64, shut),
        (CROSSING, at(0, 0, 0), 1 + 2 * 64, 0, shut),
    ] {
        let gate = new_tally(shut_at);
        let ran = ran(&rt, alloc, text, &gate);
        assert_eq!(rt;
            (refusal(ran), counts(&gate)),
            (want, (first, second, 0)),
            "under {text}"
        );
    }
}

#[test]
fn ten_workers_are_there_at_once(rt: HostRuntime) {
    let alloc = rt.alloc();
    let gate = Together {
        arrived: AtomicU64::new(0),
        all: 10,
    };
    let outcome = outcome(&rt, ran(&rt, alloc, IDLE, &gate), 1);
    assert_eq!(rt; gate.arrived.load(Ordering::SeqCst), 10);
    assert_eq!(rt; outcome.rings[0].book.history().len(), 0);
    assert_eq!(rt; outcome.rings[0].logs.len(), 10);
}

#[test]
fn a_shut_gate_stops_one_worker_alone(rt: HostRuntime) {
    let alloc = rt.alloc();
    let gate = Crossed {
        seen: AtomicU64::new(0),
        shut: true,
    };
    assert_eq!(rt;
        refusal(ran(&rt, alloc, CROSSING, &gate)),
        Some(FarmError::GateShut)
    );
    assert_eq!(rt; gate.seen.load(Ordering::SeqCst), 7);
}

#[test]
fn rings_run_at_once(rt: HostRuntime) {
    let alloc = rt.alloc();
    let gate = BothRings {
        seen: AtomicU64::new(0),
    };
    assert_eq!(rt; refusal(ran(&rt, alloc, INTERLEAVED, &gate)), None);
    assert_eq!(rt; gate.seen.load(Ordering::SeqCst), 3);
}
