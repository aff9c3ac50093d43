//! The rows of a ring whose machines are chosen one after the other. The row is that of another program, `models/steps.py`; `step` of
//! `tests/rows` has more of them.

use ring_state::{Params, RingState};
use std::alloc::Global;
use step_states::write_rows;

const ROW: &str = "event 0 kind start states 0,2,0 privileged 3 at 0,1,2 rest 6 calm 0\n";

/// The rows of a ring of three machines, of which none is chosen.
fn rows_of(alloc: Global, start: &[u32; 3]) -> Option<Vec<u8>> {
    let params = Params::new(3, 3).ok()?;
    let ring = RingState::from_values(alloc, &params, start).ok()?;
    let mut text = Vec::new(alloc);
    write_rows(alloc, &mut text, ring, &[]).ok()?;
    Some(text)
}

#[test]
fn a_row_before_the_first_choice(rt: HostRuntime) {
    let Some(text) = rows_of(rt.alloc(), &[0, 2, 0]) else {
        panic!(rt; "no rows");
    };
    assert!(rt; text.as_slice() == ROW.as_bytes());
}
