//! Logs of a client beside a book's history.

use super::{Scene, Step, book_of, play};
use ring_book::{Book, Event, GroupReceipt, Op, Reply, Resource, Survey, Till};
use ring_logs::{ClientLog, logs_fit};
use ring_model::{Entry, Receipt};
use std::alloc::Global;
use std::process::Abort;

/// The receipt of a call by client 0 that is at this position, and was granted so, or was not.
macro_rules! told {
    ($position:expr, $op:expr, $reply:expr) => {
        Entry::Receipt(Receipt {
            position: $position,
            event: Event {
                seat: 0,
                op: $op,
                reply: $reply,
            },
        })
    };
}

macro_rules! pass {
    ($machine:expr, $order:expr) => {
        Op::Pass {
            machine: $machine,
            order: $order,
        }
    };
}

macro_rules! member {
    ($machine:expr, $left:expr) => {
        Op::Member {
            machine: $machine,
            order: 2,
            left: $left,
        }
    };
}

macro_rules! granted {
    ($number:expr, $amount:expr) => {
        Reply::Granted {
            number: $number,
            result: $amount,
        }
    };
}

macro_rules! seen {
    ($position:expr, $privileged:expr, $first:expr, $calm:expr, $rest:expr) => {
        Entry::Survey(Survey {
            position: $position,
            privileged: $privileged,
            first: $first,
            calm: $calm,
            rest: $rest,
        })
    };
}

const PASSES: Scene<'static> = Scene {
    k: 3,
    start: &[0, 2, 0],
    filled: 0,
    steps: &[
        Step::Granted(0, 0, 5, 1, 5),
        Step::NotPrivileged(1, 0, 1),
        Step::Granted(2, 2, 4, 2, 9),
    ],
};

const FIRST: Entry = told!(0, pass!(0, 5), granted!(1, 5));

const SECOND: Entry = told!(1, pass!(0, 1), Reply::NotPrivileged);

const THIRD: Entry = told!(2, pass!(2, 4), granted!(2, 9));

const MOVED: Entry = told!(1, pass!(2, 4), granted!(2, 9));

const RIGHT: Entry = seen!(3, 1, 1, 2, 0);

const WRONG: Entry = seen!(3, 1, 1, 3, 0);

const LATER: Entry = seen!(4, 1, 1, 2, 0);

/// Logs, and whether they fit.
const LOGS: [(&[Entry], bool); 9] = [
    (&[FIRST, SECOND, THIRD], true),
    (&[FIRST, SECOND, THIRD, RIGHT, RIGHT], true),
    (&[FIRST, SECOND], false),
    (&[FIRST, THIRD, SECOND], false),
    (&[FIRST, MOVED, THIRD], false),
    (&[FIRST, SECOND, THIRD, THIRD], false),
    (&[FIRST, SECOND, RIGHT, THIRD], false),
    (&[FIRST, SECOND, THIRD, WRONG], false),
    (&[FIRST, SECOND, THIRD, LATER], false),
];

const BLOCK: Scene<'static> = Scene {
    k: 4,
    start: &[0, 2, 1, 0],
    filled: 0,
    steps: &[Step::Group(&[0, 1, 3], 2, Ok(GroupReceipt { first: 0, count: 3 }))],
};

const ONE: Entry = told!(0, member!(1, 2), granted!(1, 2));

const TWO: Entry = told!(1, member!(0, 1), granted!(2, 4));

const THREE: Entry = told!(2, member!(3, 0), granted!(3, 6));

/// No survey fits inside the block, though it is right there.
const BLOCK_LOGS: [(&[Entry], bool); 2] = [
    (&[ONE, TWO, THREE, seen!(3, 3, 0, 3, 9)], true),
    (&[ONE, TWO, seen!(2, 3, 1, 2, 10), THREE], false),
];

/// Whether this log of client 0, and that of a client with an empty log, fit the book's history. It is asked a
/// second time where there was no memory.
fn fits<R: Resource + Drop>(
    rt: &impl Abort,
    alloc: Global,
    book: &Book<R>,
    entries: &[Entry],
) -> bool {
    let first = ClientLog { number: 0, entries };
    let second = ClientLog {
        number: 1,
        entries: &[],
    };
    let logs = [second, first];
    match logs_fit(alloc, book, &logs) {
        Ok(fit) => fit,
        Err(_) => logs_fit(alloc, book, &logs).expect(rt, "memory the second time"),
    }
}

#[test]
fn a_log_fits_where_it_has_its_calls_and_right_surveys(rt: HostRuntime) {
    let tables: [(Scene, &[(&[Entry], bool)]); 2] = [(PASSES, &LOGS), (BLOCK, &BLOCK_LOGS)];
    for (scene, logs) in tables {
        let mut book = book_of(&rt, rt.alloc(), scene.k, scene.start, Till::new());
        play(&rt, &mut book, scene.steps);
        for (place, (log, fit)) in logs.iter().enumerate() {
            assert!(rt; fits(&rt, rt.alloc(), &book, log) == *fit, "log {place}");
        }
    }
}
