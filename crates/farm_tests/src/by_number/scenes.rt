//! Calls one after another, and the text that is saved of them.
use crate::events::granted;
use one_thread_ring::{OneThreadRing, from_saved};
use ring_book::{Idle, Till};
use ring_farm::RingOutcome;
use ring_model::{Entry, Event, Op, Receipt, Reply, Survey};
use saved_history::read_saved;
use std::alloc::Global;
use std::process::Abort;

/// A ring over a till with one seat, and of as many values as machines.
pub(super) fn opened(
    rt: &impl Abort,
    alloc: Global,
    size: u32,
    start: &[u32],
) -> OneThreadRing<Till> {
    match OneThreadRing::open(alloc, size, size, start, 1, Till::new()) {
        Ok(ring) => ring,
        Err(_) => panic!(rt; "the ring is opened"),
    }
}

/// The text of the ring is this one, and what a writer is given of it.
fn saves(rt: &impl Abort, alloc: Global, ring: &OneThreadRing<Till>, text: &[u8]) {
    match ring.text(alloc) {
        Ok(whole) => assert!(rt; whole.as_slice() == text),
        Err(_) => panic!(rt; "there is memory"),
    }
    let mut out = Vec::new(alloc);
    assert!(rt; ring.save(&mut out).is_ok());
    assert!(rt; out.as_slice() == text);
}

/// The outcome of the ring when it is closed.
fn closed(rt: &impl Abort, alloc: Global, ring: OneThreadRing<Till>) -> RingOutcome {
    match ring.close(alloc) {
        Ok(run) => run,
        Err(_) => panic!(rt; "the ring is closed"),
    }
}

/// The log of the client of a seat.
fn log_of(rt: &impl Abort, alloc: Global, ring: &OneThreadRing<Till>, seat: u32) -> Vec<Entry> {
    match ring.log(alloc, seat) {
        Ok(log) => log,
        Err(_) => panic!(rt; "the log is there"),
    }
}

/// A ring that resumes where the first of this text ended.
fn gone_on(rt: &impl Abort, alloc: Global, text: &[u8], seats: u32) -> OneThreadRing<Till> {
    let Ok(saved) = read_saved(alloc, text) else {
        panic!(rt; "the text is read");
    };
    assert!(rt; !saved.rings.is_empty());
    match from_saved(alloc, &saved.rings[0], seats) {
        Ok(ring) => ring,
        Err(_) => panic!(rt; "the saved ring is gone on with"),
    }
}

/// The receipt of a pass with order 1 that was refused.
fn refused(position: u64, seat: u32, machine: u32) -> Entry {
    Entry::Receipt(Receipt {
        position,
        event: Event {
            seat,
            op: Op::Pass { machine, order: 1 },
            reply: Reply::NotPrivileged,
        },
    })
}

/// The survey of a place of the saved ring below.
fn surveyed(position: u64, privileged: u32, first: u32, calm: u64, rest: u64) -> Entry {
    Entry::Survey(Survey {
        position,
        privileged,
        first,
        calm,
        rest,
    })
}

#[test]
fn a_log_has_each_survey_at_its_place(rt: HostRuntime) {
    let text =
        b"ringfarm 2\nring 0 3 3\nstart 0 2 0\np 1 0 5 g 1 5\np 0 0 1 n\np 1 2 4 g 2 9\nend 3\ns 0 1 2 1 1 3\ns 0 3 1 1 2 0\ns 1 0 3 0 0 6\ns 1 3 1 1 2 0\ndone 1\n";
    let mut ring = gone_on(&rt, rt.alloc(), text, 2);
    saves(&rt, rt.alloc(), &ring, text);
    assert!(rt; ring.pass(0, 0, 1).map(|r| r.position) == Ok(3));
    let told = [
        surveyed(1, 2, 1, 1, 3),
        refused(1, 0, 0),
        surveyed(3, 1, 1, 2, 0),
        refused(3, 0, 0),
    ];
    assert!(rt; log_of(&rt, rt.alloc(), &ring, 0).as_slice() == told.as_slice());
    assert!(rt; log_of(&rt, rt.alloc(), &ring, 1).len() == 4);
    let run = closed(&rt, rt.alloc(), ring);
    assert!(rt; run.book.history().len() == 4 && run.logs.len() == 2);
    assert!(rt; run.logs[0].seat == 0 && run.logs[0].entries.as_slice() == told.as_slice());
    assert!(rt; run.logs[1].seat == 1 && run.logs[1].entries.len() == 4);
}

// A pass that cannot be refused is recorded, and only in the log of its seat.
#[test]
fn a_grant_is_in_the_log_of_its_seat(rt: HostRuntime) {
    let alloc = rt.alloc();
    let Ok(mut ring) = OneThreadRing::open(alloc, 3, 3, &[0, 2, 0], 2, Till::new()) else {
        panic!(rt; "the ring is opened");
    };
    assert!(rt; ring.machines() == 3);
    assert!(rt; ring.is_privileged(2));
    let Ok(()) = ring.reserve(1) else {
        panic!(rt; "there is memory");
    };
    let receipt = ring.grant(1, 2, 4);
    let wanted = Receipt {
        position: 0,
        event: granted(1, 2, 4, 1, 4),
    };
    assert!(rt; receipt == wanted);
    assert!(rt; ring.history().len() == 1);
    assert!(rt; log_of(&rt, alloc, &ring, 0).is_empty());
    assert!(rt; log_of(&rt, alloc, &ring, 1).as_slice() == [Entry::Receipt(wanted)].as_slice());
}

#[test]
fn an_idle_ring_answers_0(rt: HostRuntime) {
    let Ok(mut ring) = OneThreadRing::open(rt.alloc(), 2, 2, &[0, 0], 10, Idle) else {
        panic!(rt; "the ring is opened");
    };
    let Ok(receipt) = ring.pass(9, 0, 7) else {
        panic!(rt; "the pass is recorded");
    };
    assert!(rt;
        receipt.event.op
            == Op::Pass {
                machine: 0,
                order: 7
            }
    );
    assert!(rt;
        receipt.event.reply
            == Reply::Granted {
                number: 1,
                result: 0
            }
    );
}
