//! Which refusal a farm answers.

use super::gates::{Closed, ShutFor};
use super::{CROSSING, ran, refusal, settings_of};
use ring_farm::{FarmError, run_farm, run_rings};
use ring_settings::{SettingsError, read_settings};
use std::sync::atomic::{AtomicU64, Ordering};

/// Two rings, and more calls of each than a history holds.
const FULL: &str =
    r#"{"rings":[{"n":2,"k":2,"start":[0,0]},{"n":2,"k":2,"start":[0,0]}],"workers":[{"seed":1,"actions":1000000},{"seed":2,"actions":1000000},{"seed":3,"actions":1000000},{"seed":4,"actions":1000000},{"seed":5,"actions":1000000},{"seed":6,"actions":1000000},{"seed":7,"actions":1000000},{"seed":8,"actions":1000000},{"seed":9,"actions":1000000}],"injector":{"seed":10,"actions":1000000}}"#;

/// A worker with nothing to do on either of two rings.
const TWO_RINGS: &str =
    r#"{"rings":[{"n":2,"k":2,"start":[0,0]},{"n":2,"k":2,"start":[0,0]}],"workers":[{"script":[]}]}"#;

/// A worker with nothing to do, and after it five that make more calls than a history holds.
const IDLE_FIRST: &str =
    r#"{"rings":[{"n":2,"k":2,"start":[0,0]}],"workers":[{"script":[]},{"seed":1,"actions":1000000},{"seed":2,"actions":1000000},{"seed":3,"actions":1000000},{"seed":4,"actions":1000000},{"seed":5,"actions":1000000}]}"#;

/// The same with the idle one last.
const IDLE_LAST: &str =
    r#"{"rings":[{"n":2,"k":2,"start":[0,0]}],"workers":[{"seed":1,"actions":1000000},{"seed":2,"actions":1000000},{"seed":3,"actions":1000000},{"seed":4,"actions":1000000},{"seed":5,"actions":1000000},{"script":[]}]}"#;

#[test]
fn the_refusal_of_the_least_ring_and_seat_is_answered(rt: HostRuntime) {
    let alloc = rt.alloc();
    for (text, ring, worker, want) in [
        (FULL, 1, 0, FarmError::HistoryFull),
        (FULL, 0, 0, FarmError::GateShut),
        (IDLE_FIRST, 0, 0, FarmError::GateShut),
        (IDLE_LAST, 0, 5, FarmError::HistoryFull),
    ] {
        let ran = ran(&rt, alloc, text, &ShutFor { ring, worker });
        assert_eq!(rt;
            refusal(ran),
            Some(want),
            "under {text}, shut on ring {ring}"
        );
    }
}

#[test]
fn each_ring_has_its_own_refusal(rt: HostRuntime) {
    let alloc = rt.alloc();
    let shut = Some(FarmError::GateShut);
    let full = Some(FarmError::HistoryFull);
    for (text, ring, wants) in [
        (FULL, 0, [shut, full]),
        (FULL, 1, [full, shut]),
        (TWO_RINGS, 0, [shut, None]),
        (TWO_RINGS, 1, [None, shut]),
    ] {
        let settings = settings_of(&rt, alloc, text);
        let Ok(results) = run_rings(&rt, alloc, &settings, &ShutFor { ring, worker: 0 }) else {
            panic!(rt; "there is memory");
        };
        assert_eq!(rt; results.len(), 2);
        for (result, want) in results.iter().zip(wants) {
            assert_eq!(rt;
                result.as_ref().err().copied(),
                want,
                "under {text}, shut on ring {ring}"
            );
        }
    }
}

// Says more where any one request for memory is refused, as `trials/refused_memory.sh` has it: then one of two threads may
// not have been started, and that is reported instead of the refusal that the other's seat met.
#[test]
fn lack_of_memory_for_a_thread_is_told_before_a_seats_refusal(rt: HostRuntime) {
    let alloc = rt.alloc();
    let settings = match read_settings(alloc, CROSSING.as_bytes()) {
        Ok(settings) => settings,
        Err(error) => {
            assert_eq!(rt; error, SettingsError::OutOfMemory);
            return;
        }
    };
    let gate = Closed {
        came: AtomicU64::new(0),
    };
    let fault = refusal(run_farm(&rt, alloc, &settings, &gate));
    match gate.came.load(Ordering::SeqCst) {
        0 => assert_eq!(rt; fault, Some(FarmError::OutOfMemory)),
        1 => assert_eq!(rt; fault, Some(FarmError::Spawn)),
        // the list of the rings' results may still have found no memory
        _ => assert!(rt; matches!(fault, Some(FarmError::GateShut | FarmError::OutOfMemory))),
    }
}
