//! Worked values, found by hand from the rule.

use ring_model::plain::{
    bound, first_privileged, first_value_is_prefix, follow, is_absent, is_ring, is_settled, lead,
    move_machine, privileged_count, rest, weight,
};

#[test]
fn steps_and_copies(rt: HostRuntime) {
    for (before, machine, after) in [
        ([0, 2, 0], 0, [1, 2, 0]),
        ([1, 2, 0], 1, [1, 1, 0]),
        ([1, 1, 0], 2, [1, 1, 1]),
        ([2, 2, 2], 0, [0, 2, 2]),
    ] {
        let mut ring: [u32; 3] = before;
        assert!(rt; machine < 3);
        move_machine(3, &mut ring, machine);
        assert!(rt; ring == after, "machine {machine}");
    }
}

/// A ring with as many values as machines, and what is expected of it.
#[derive(Clone, Copy)]
struct Expected<'a> {
    ring: &'a [u32],
    count: usize,
    first: usize,
    prefix: bool,
    weight: u64,
    lead: u64,
    rest: u64,
}

macro_rules! expected {
    ($ring:expr, $count:expr, $first:expr, $prefix:expr, $weight:expr, $lead:expr, $rest:expr) => {
        Expected {
            ring: $ring,
            count: $count,
            first: $first,
            prefix: $prefix,
            weight: $weight,
            lead: $lead,
            rest: $rest,
        }
    };
}

const RINGS: [Expected<'static>; 8] = [
    expected!(&[0, 2, 0], 3, 0, false, 3, 1, 6),
    expected!(&[1, 2, 0], 2, 1, true, 3, 0, 3),
    expected!(&[1, 1, 0], 1, 2, true, 1, 0, 0),
    expected!(&[0, 2, 1, 0], 4, 0, false, 6, 3, 18),
    expected!(&[1, 2, 1, 0], 3, 1, false, 6, 2, 14),
    expected!(&[1, 1, 1, 0], 1, 3, true, 1, 0, 0),
    expected!(&[3, 3, 1, 0], 2, 2, true, 3, 0, 3),
    expected!(&[1, 0, 1, 1], 3, 0, false, 5, 1, 9),
];

/// Whether the privileges are as expected.
fn has_expected_privileges(expected: &Expected) -> bool {
    privileged_count(expected.ring) == expected.count
        && first_privileged(expected.ring) == expected.first
        && is_settled(expected.ring) == (expected.count == 1)
        && first_value_is_prefix(expected.ring) == expected.prefix
}

#[test]
fn answers_for_small_rings(rt: HostRuntime) {
    for (place, expected) in RINGS.iter().enumerate() {
        let ring = expected.ring;
        assert!(rt; ring.len() >= 1 && ring.len() <= 4);
        let k = ring.len() as u32;
        let is_weighed = weight(ring) == expected.weight
            && lead(k, ring) == expected.lead
            && rest(k, ring) == expected.rest;
        assert!(rt;
            is_weighed && is_ring(k, ring) && has_expected_privileges(expected),
            "ring {place}"
        );
    }
}

#[test]
fn follows_choices(rt: HostRuntime) {
    let mut ring = [0, 2, 0];
    assert!(rt; follow(3, &mut ring, &[0, 0, 2]) == 2);
    assert!(rt; ring == [1, 2, 2]);

    let mut two = [0, 0];
    assert!(rt; follow(2, &mut two, &[0, 1, 0, 1]) == 4);
    assert!(rt; two == [0, 0]);
}

#[test]
fn knows_rings_and_their_values(rt: HostRuntime) {
    assert!(rt; is_ring(2, &[1, 0]));
    assert!(rt; !is_ring(2, &[1]));
    assert!(rt; !is_ring(2, &[1, 0, 1]));
    assert!(rt; !is_ring(3, &[0, 3, 1]));
    assert!(rt; !is_ring(0, &[]));
    assert!(rt; first_value_is_prefix(&[2, 2, 2]));
    assert!(rt; is_absent(&[3, 2, 1, 0], 3));
    assert!(rt; !is_absent(&[3, 3, 1, 0], 3));
    // No ring: each of its two values is held, and the steps come round without an answer.
    assert!(rt; lead(2, &[0, 1, 0]) == 3);
}

#[test]
fn bounds_the_rest(rt: HostRuntime) {
    for (n, wanted) in [
        (0, 0),
        (1, 0),
        (2, 3),
        (3, 9),
        (4, 18),
        (1_024, 1_571_328),
        (65_536, 6_442_352_640),
    ] {
        assert!(rt; bound(n) == wanted, "at {n}");
    }
}

#[test]
fn answers_for_the_largest_ring(rt: HostRuntime) {
    let mut ring = [0u32; 1024];
    for machine in 0..1024 {
        ring[machine] = machine as u32;
    }
    assert!(rt; is_ring(1024, &ring));
    // Each machine but machine 0 differs from its left neighbour: 1,023 + 1,022 + .. + 1.
    assert!(rt; privileged_count(&ring) == 1_023 && first_privileged(&ring) == 1);
    assert!(rt; (weight(&ring), lead(1024, &ring), rest(1024, &ring)) == (523_776, 0, 523_776));
}
