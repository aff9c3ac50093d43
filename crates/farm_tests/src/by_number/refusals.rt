//! Each refusal of a call, and that it leaves no event.

use super::scenes::opened;
use one_thread_ring::{CallError, OneThreadRing, OpenError, ResumeError, from_saved};
use ring_book::Till;
use ring_state::ParamsError;
use saved_history::read_saved;
use std::process::Abort;

#[test]
fn each_number_is_looked_at(rt: HostRuntime) {
    let mut ring = opened(&rt, rt.alloc(), 4, &[0, 2, 2, 0]);
    assert!(rt; ring.pass(1, 9, 0).err() == Some(CallError::NoSeat));
    assert!(rt; ring.pass(0, 4, 0).err() == Some(CallError::NoMachine));
    assert!(rt; ring.corrupt(1, 0, 0).err() == Some(CallError::NoSeat));
    assert!(rt; ring.corrupt(0, 4, 4).err() == Some(CallError::NoMachine));
    assert!(rt; ring.corrupt(0, 0, 4).err() == Some(CallError::NoValue));
    assert!(rt; ring.survey(1).err() == Some(CallError::NoSeat));
    assert!(rt; ring.log(rt.alloc(), 1).err() == Some(CallError::NoSeat));
    assert!(rt; ring.pass_group(1, &[0], 0).err() == Some(CallError::NoSeat));
    assert!(rt; ring.pass_group(0, &[], 0).err() == Some(CallError::NotRising));
    assert!(rt; ring.pass_group(0, &[1, 0], 0).err() == Some(CallError::NotRising));
    assert!(rt; ring.pass_group(0, &[3, 4], 0).err() == Some(CallError::NotRising));
    assert!(rt; ring.pass_group(0, &[0, 1, 2, 3], 0).err() == Some(CallError::WholeRing));
    assert!(rt; ring.pass_group(0, &[0, 2, 3], 0).err() == Some(CallError::NotPrivileged(2)));
    assert!(rt; ring.history_length() == 0);
}

#[test]
fn each_ring_that_cannot_be_is_refused(rt: HostRuntime) {
    for (n, seats, start, want) in [
        (1, 0, &[0, 0], OpenError::Seats),
        (1, 11, &[0, 0], OpenError::Seats),
        (1, 1, &[0, 0], OpenError::Size(ParamsError::TooFew)),
        (3, 1, &[0, 3], OpenError::Length),
        (2, 1, &[0, 3], OpenError::Value(1)),
    ] {
        let ring = OneThreadRing::open(rt.alloc(), n, 3, start, seats, Till::new());
        assert!(rt; ring.err() == Some(want));
    }
}

#[test]
fn a_text_that_is_not_legal_is_not_gone_on_with(rt: HostRuntime) {
    let Ok(saved) = read_saved(
        rt.alloc(),
        b"ringfarm 2\nring 0 3 3\nstart 0 2 0\np 1 0 5 g 2 5\nend 1\ndone 1\n",
    ) else {
        panic!(rt; "the text is read");
    };
    assert!(rt; !saved.rings.is_empty());
    assert!(rt; from_saved(rt.alloc(), &saved.rings[0], 2).err() == Some(ResumeError::Differs));
    assert!(rt;
        from_saved(rt.alloc(), &saved.rings[0], 1).err()
            == Some(ResumeError::Call(CallError::NoSeat))
    );
    assert!(rt;
        from_saved(rt.alloc(), &saved.rings[0], 0).err()
            == Some(ResumeError::Open(OpenError::Seats))
    );
}

#[test]
fn surveys_that_are_not_the_rings_are_not_gone_on_with(rt: HostRuntime) {
    for text in [
        &b"ringfarm 2\nring 0 3 3\nstart 0 2 0\np 0 0 5 g 1 5\nend 1\ns 0 1 2 1 1 2\ndone 1\n"[..],
        &b"ringfarm 2\nring 0 3 3\nstart 0 2 0\np 0 0 5 g 1 5\nend 1\ns 0 2 2 1 1 3\ndone 1\n"[..],
    ] {
        let Ok(saved) = read_saved(rt.alloc(), text) else {
            panic!(rt; "the text is read");
        };
        assert!(rt; !saved.rings.is_empty());
        assert!(rt; from_saved(rt.alloc(), &saved.rings[0], 1).err() == Some(ResumeError::Differs));
    }
}
