use crate::rings::has_values;
use ring_state::{Params, ParamsError, RingState, StateError};
use std::alloc::Global;
use std::process::Abort;
use std::test::Fail;

#[test]
fn sizes_are_accepted_or_refused_in_order(rt: HostRuntime) -> Result<(), Fail> {
    for (n, k, error) in [
        (4, 3, ParamsError::FewValues),
        (1, 0, ParamsError::TooFew),
        (1_025, 2_000, ParamsError::TooMany),
        (1_024, 65_537, ParamsError::ManyValues),
    ] {
        assert!(rt; Params::new(n, k) == Err(error), "{n} and {k}");
    }
    for (n, k) in [(2, 2), (257, 300), (256, 257), (1_024, 65_536)] {
        let size = Params::new(n, k)?;
        assert!(rt; size.n() == n && size.k() == k, "{n} and {k}");
    }
    Ok(())
}

/// A state of three machines with three values.
fn state_of(alloc: Global, values: &[u32]) -> Result<RingState, StateError> {
    let Ok(size) = Params::new(3, 3) else {
        return Err(StateError::Length);
    };
    RingState::from_values(alloc, &size, values)
}

#[test]
fn values_are_taken_or_refused_in_order(rt: HostRuntime) {
    let alloc = rt.alloc();
    assert!(rt; matches!(&state_of(alloc, &[0, 2]), Err(StateError::Length)));
    assert!(rt; matches!(&state_of(alloc, &[0, 3, 7]), Err(StateError::Value(1))));
    assert!(rt; matches!(&state_of(alloc, &[0, 0, 0, 9]), Err(StateError::Length)));
}

// Passes too where any one request for memory is refused, as `trials/refused_memory.sh` has it.
#[test]
fn a_refused_request_for_memory_is_told(rt: HostRuntime) {
    let alloc = rt.alloc();
    let mut state = match state_of(alloc, &[0, 2, 0]) {
        Ok(state) => state,
        Err(error) => {
            assert!(rt; matches!(error, StateError::OutOfMemory));
            state_of(alloc, &[0, 2, 0]).expect(&rt, "memory the second time")
        }
    };
    let copy = match state.try_copy(alloc) {
        Ok(copy) => copy,
        Err(_) => state.try_copy(alloc).expect(&rt, "memory the second time"),
    };
    assert!(rt; has_values(&state, &[0, 2, 0]) && has_values(&copy, &[0, 2, 0]));
    assert!(rt; state.params() == copy.params());
    // The copy is apart.
    assert!(rt; state.is_privileged(0));
    state.move_machine(0);
    assert!(rt; has_values(&state, &[1, 2, 0]) && has_values(&copy, &[0, 2, 0]));
}

/// Three machines have these values; those whose bit is set are privileged, this many, with this as the first of them.
fn is_at(rt: &impl Abort, state: &RingState, values: &[u32], bits: u64, count: u32, first: u32) {
    assert!(rt; has_values(state, values));
    assert!(rt; state.privileged() == count && state.first() == first);
    let mut wanted = [0; 16];
    wanted[0] = bits;
    let mut mask = [7; 16];
    state.mask(&mut mask);
    assert!(rt; mask == wanted && state.params().n() == 3);
    for machine in 0..3u32 {
        assert!(rt; state.is_privileged(machine) == (bits >> machine & 1 == 1));
    }
}

#[test]
fn machines_move_by_the_rule(rt: HostRuntime) -> Result<(), Fail> {
    let mut state = state_of(rt.alloc(), &[0, 2, 0])?;
    is_at(&rt, &state, &[0, 2, 0], 0b111, 3, 0);
    assert!(rt; state.params().n() == 3 && state.params().k() == 3 && state.is_privileged(0));
    state.move_machine(0);
    is_at(&rt, &state, &[1, 2, 0], 0b110, 2, 1);
    assert!(rt; state.params().n() == 3 && state.is_privileged(2));
    state.move_machine(2);
    is_at(&rt, &state, &[1, 2, 2], 0b010, 1, 1);
    assert!(rt; state.params().n() == 3 && state.params().k() == 3);
    assert!(rt; state.write(2, 1) == 2);
    is_at(&rt, &state, &[1, 2, 1], 0b111, 3, 0);
    Ok(())
}

// The ring (0, 2, 0): the weight is 2 + 1, and machine 2 holds the value of machine 0 after machine 1, which does not. In
// (1, 2, 2) only machine 1 is privileged.
#[test]
fn readers_see_the_whole_ring(rt: HostRuntime) -> Result<(), Fail> {
    for (values, weight, prefix, held) in [
        ([0, 2, 0], 3, false, [true, false, true]),
        ([1, 2, 2], 2, true, [false, false, true]),
    ] {
        let state = state_of(rt.alloc(), &values)?;
        assert!(rt; state.weight() == weight && state.first_value_is_prefix() == prefix);
        assert!(rt; state.params().k() == 3);
        for value in 0..3u32 {
            assert!(rt; state.holds_past_first(value) == held[value as usize]);
        }
    }
    Ok(())
}

// 33 machines, all 0 but a 1 at machine 31: machines 0, 31 and 32 are privileged. One byte each does for 256 values.
#[test]
fn readers_see_past_a_block(rt: HostRuntime) -> Result<(), Fail> {
    let mut values = [0u32; 33];
    values[31] = 1;
    for k in [256, 257] {
        let size = Params::new(33, k)?;
        let state = RingState::from_values(rt.alloc(), &size, &values)?;
        let mut wanted = [0; 16];
        wanted[0] = 0x1_8000_0001;
        let mut mask = [7; 16];
        state.mask(&mut mask);
        assert!(rt; mask == wanted);
        assert!(rt; state.privileged() == 3 && state.first() == 0 && state.weight() == 3);
        assert!(rt; !state.first_value_is_prefix());
    }
    Ok(())
}

// The low bytes of 256 and 0 are equal, and so are those of 65,535 and 255.
#[test]
fn two_bytes_hold_the_larger_values(rt: HostRuntime) -> Result<(), Fail> {
    let alloc = rt.alloc();
    let size = Params::new(3, 65_536)?;
    let refused = RingState::from_values(alloc, &size, &[0, 65_535, 65_536]);
    assert!(rt; matches!(&refused, Err(StateError::Value(2))));
    let mut state = RingState::from_values(alloc, &size, &[65_535, 256, 65_535])?;
    assert!(rt; state.params().n() == 3 && state.params().k() == 65_536);
    assert!(rt;
        state.holds_past_first(256) && !state.holds_past_first(0) && !state.holds_past_first(255)
    );
    assert!(rt; state.is_privileged(0) && state.is_privileged(1));
    state.move_machine(0);
    assert!(rt; has_values(&state, &[0, 256, 65_535]));
    assert!(rt; state.params().n() == 3 && state.params().k() == 65_536);
    assert!(rt; state.write(2, 257) == 65_535);
    let copy = state.try_copy(alloc)?;
    assert!(rt; has_values(&copy, &[0, 256, 257]) && copy.params() == size);
    Ok(())
}

#[test]
fn a_state_is_copied_over_another(rt: HostRuntime) -> Result<(), Fail> {
    let alloc = rt.alloc();
    for k in [256, 257] {
        let size = Params::new(3, k)?;
        let mut state = RingState::from_values(alloc, &size, &[1, 2, 3])?;
        let other = RingState::from_values(alloc, &size, &[255, 0, 254])?;
        let (own, wanted) = (state.params(), other.params());
        assert!(rt; own.n() == wanted.n() && own.k() == wanted.k());
        state.copy_from(&other);
        assert!(rt; has_values(&state, &[255, 0, 254]), "of {k} values");
        assert!(rt; has_values(&other, &[255, 0, 254]), "of {k} values");
    }
    Ok(())
}
