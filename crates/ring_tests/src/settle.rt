use crate::rings::{has_values, memory_ends, memory_is_back, state_of};
use ring_settle::{bound, follow, is_settled, lead, rest};

#[test]
fn bounds(rt: HostRuntime) {
    for (n, most) in [
        (2, 3),
        (3, 9),
        (4, 18),
        (5, 30),
        (256, 97_920),
        (1_024, 1_571_328),
        (65_536, 6_442_352_640),
    ] {
        assert!(rt; n >= 2 && n <= 65_536);
        assert!(rt; bound(n) == most, "of {n} machines");
    }
}

/// States with as many values as machines, with their lead and their rest.
const STATES: [(&[u32], u32, u64); 10] = [
    (&[0, 2, 0], 1, 6),
    (&[1, 2, 0], 0, 3),
    (&[1, 1, 0], 0, 0),
    (&[0, 0, 0], 0, 0),
    (&[0, 2, 1, 0], 3, 18),
    (&[1, 2, 1, 0], 2, 14),
    (&[3, 3, 1, 0], 0, 3),
    (&[3, 2, 1, 0], 0, 6),
    (&[1, 0, 1, 1], 1, 9),
    (&[1, 1, 1, 0], 0, 0),
];

#[test]
fn leads_and_rests(rt: HostRuntime) {
    for (place, (values, lead_now, rest_now)) in STATES.iter().enumerate() {
        assert!(rt; values.len() <= 4);
        let state = state_of(&rt, rt.alloc(), values.len() as u32, values);
        assert!(rt;
            lead(&state) == *lead_now && rest(&state) == *rest_now,
            "state {place}"
        );
        assert!(rt; is_settled(&state) == (*rest_now == 0), "state {place}");
    }
}

// Each machine but machine 0 differs from its left neighbour: 1,023 + 1,022 + .. + 1.
#[test]
fn the_largest_ring_of_different_values(rt: HostRuntime) {
    let mut values = [0u32; 1024];
    for i in 0..1024usize {
        values[i] = i as u32;
    }
    let state = state_of(&rt, rt.alloc(), 1024, &values);
    assert!(rt; state.privileged() == 1_023 && state.first() == 1 && state.weight() == 523_776);
    assert!(rt; lead(&state) == 0 && rest(&state) == 523_776 && !is_settled(&state));
}

// Passes too where each request for memory between the marks is refused, as `trials/refused_memory.sh` has it.
#[test]
fn following_takes_no_memory(rt: HostRuntime) {
    let mut state = state_of(&rt, rt.alloc(), 3, &[0, 2, 0]);
    assert!(rt; state.params().n() == 3);
    memory_ends(rt.alloc());
    let granted = follow(&mut state, &[0, 0, 2]);
    memory_is_back(rt.alloc());
    assert!(rt; granted == 2 && has_values(&state, &[1, 2, 2]));
    assert!(rt; state.params().n() == 3);
    assert!(rt; follow(&mut state, &[]) == 0 && has_values(&state, &[1, 2, 2]));
}
