//! Repairs in which drawn groups move at once, as another program has them (`models/drawn_repairs.py`).

use drawn_groups::repair_in_groups;
use ring_repairs::generator;
use ring_state::{Params, RingState};
use std::alloc::Global;
use std::process::Abort;

/// A state, and how many passes its repairs take by the first streams of seed 7.
#[derive(Drop)]
struct Row {
    k: u32,
    values: &'static [u32],
    passes: [u64; 8],
}

const ROWS: [Row; 4] = [
    Row {
        k: 3,
        values: &[0, 1, 0],
        passes: [1, 1, 1, 1, 1, 1, 1, 1],
    },
    Row {
        k: 4,
        values: &[0, 2, 1, 0],
        passes: [3, 2, 7, 5, 4, 3, 4, 4],
    },
    Row {
        k: 11,
        values: &[3, 1, 4, 1, 5, 9, 2, 6],
        passes: [15, 11, 11, 13, 19, 11, 16, 10],
    },
    Row {
        k: 4,
        values: &[1, 1, 0, 0],
        passes: [0, 0, 0, 0, 0, 0, 0, 0],
    },
];

fn ring_of(rt: &impl Abort, alloc: Global, k: u32, values: &[u32]) -> RingState {
    let machines = u32::try_from(values.len()).expect(rt, "few machines");
    let size = Params::new(machines, k).expect(rt, "a size");
    let Ok(ring) = RingState::from_values(alloc, &size, values) else {
        panic!(rt; "the values are below K");
    };
    ring
}

#[test]
fn members_of_groups_pass_until_the_ring_is_settled(rt: HostRuntime) {
    for (place, row) in ROWS.iter().enumerate() {
        for trial in 0..8 {
            let mut ring = ring_of(&rt, rt.alloc(), row.k, row.values);
            let mut words = generator(7, trial as u64);
            let passes = repair_in_groups(1_000, &mut words, &mut ring);
            assert!(rt; passes == row.passes[trial], "row {place}, trial {trial}");
            assert!(rt; ring.privileged() == 1);
        }
    }
}

/// Forty machines take two words for each drawing.
#[test]
fn members_of_large_groups(rt: HostRuntime) {
    let mut values = [0u32; 40];
    for machine in 0..40 {
        values[machine] = machine as u32 * 7 % 40;
    }
    for (trial, wanted) in [253, 244, 237, 244].iter().enumerate() {
        let mut ring = ring_of(&rt, rt.alloc(), 40, &values);
        let mut words = generator(9, trial as u64);
        assert!(rt; repair_in_groups(10_000, &mut words, &mut ring) == *wanted);
    }
}
