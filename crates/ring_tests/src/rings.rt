//! Rings for the tests of several crates.

use ring_state::{Params, RingState};
use std::alloc::Global;
use std::process::Abort;

/// A state of as many machines as values; where there was no memory for it, it is asked for a second time.
pub fn state_of(rt: &impl Abort, alloc: Global, k: u32, values: &[u32]) -> RingState {
    assert!(rt; values.len() <= 1024);
    let size = Params::new(values.len() as u32, k).expect(rt, "a size within the limits");
    match RingState::from_values(alloc, &size, values) {
        Ok(state) => state,
        Err(_) => RingState::from_values(alloc, &size, values).expect(rt, "values of this size"),
    }
}

/// Whether the state has just these values.
pub fn has_values(state: &RingState, wanted: &[u32]) -> bool {
    if state.params().n() as usize != wanted.len() {
        return false;
    }
    for (machine, value) in wanted.iter().enumerate() {
        if state.get(machine as u32) != *value {
            return false;
        }
    }
    true
}

/// A request for this many bytes, and one for a byte more, enclose calls that take no memory: `trials/refused_memory.sh`
/// refuses each request from the one to the other.
const MARK: usize = 1_234_567;

pub fn memory_ends(alloc: Global) {
    let _ = "x".repeat(alloc, MARK);
}

pub fn memory_is_back(alloc: Global) {
    let _ = "x".repeat(alloc, MARK + 1);
}
