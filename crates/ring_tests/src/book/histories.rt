//! Books that are made of a history, and events that no book has.

use crate::rings::{has_values, state_of};
use ring_book::{Book, Event, HistoryError, Op, Reply, Survey, Till};
use std::alloc::Global;
use std::process::Abort;

/// A member of seat 0's group with order 2.
macro_rules! member {
    ($machine:expr, $left:expr, $number:expr, $amount:expr) => {
        Event {
            seat: 0,
            op: Op::Member {
                machine: $machine,
                order: 2,
                left: $left,
            },
            reply: Reply::Granted {
                number: $number,
                result: $amount,
            },
        }
    };
}

/// A pass of machine 2 with order 2.
macro_rules! pass {
    ($seat:expr, $reply:expr) => {
        Event {
            seat: $seat,
            op: Op::Pass {
                machine: 2,
                order: 2,
            },
            reply: $reply,
        }
    };
}

/// A fault of seat 9: a value is written into machine 0.
macro_rules! fault {
    ($value:expr, $old:expr) => {
        Event {
            seat: 9,
            op: Op::Corrupt {
                machine: 0,
                value: $value,
            },
            reply: Reply::Corrupted { old: $old },
        }
    };
}

const SECOND: Reply = Reply::Granted {
    number: 2,
    result: 4,
};

/// From 0, 2, 1, 0 with four values: machines 1, 0 and 3 move at once.
const GROUP: [Event; 3] = [
    member!(1, 2, 1, 2),
    member!(0, 1, 2, 4),
    member!(3, 0, 3, 6),
];

/// Returns a book over a till that is made of these events, with a second try.
fn goes_on(rt: &impl Abort, alloc: Global, events: &[Event]) -> Result<Book<Till>, HistoryError> {
    let start = state_of(rt, alloc, 4, &[0, 2, 1, 0]);
    match Book::from_history(alloc, start, Till::new(), events) {
        Err(HistoryError::OutOfMemory) => {
            let start = state_of(rt, alloc, 4, &[0, 2, 1, 0]);
            Book::from_history(alloc, start, Till::new(), events)
        }
        made => made,
    }
}

#[test]
fn a_book_goes_on_with_a_history(rt: HostRuntime) {
    let Ok(book) = goes_on(&rt, rt.alloc(), &GROUP) else {
        panic!(rt; "the events are a history");
    };
    assert!(rt; book.history().len() == 3 && book.history().ends_with(&GROUP));
    assert!(rt; has_values(book.start(), &[0, 2, 1, 0]) && has_values(book.state(), &[1, 0, 1, 1]));
    let wanted = Survey {
        position: 3,
        privileged: 3,
        first: 0,
        calm: 3,
        rest: 9,
    };
    assert!(rt; book.survey() == wanted);
    assert!(rt; book.calls_of(0) == 3 && book.grants().total() == 3);
    assert!(rt; goes_on(&rt, rt.alloc(), &[]).is_ok());
    assert!(rt; goes_on(&rt, rt.alloc(), &[fault!(3, 0), fault!(3, 3)]).is_ok());
}

#[test]
fn events_that_no_book_has_are_refused(rt: HostRuntime) {
    for (events, want) in [
        // Another number, another answer of the till, another old value.
        (&[member!(1, 2, 2, 2)][..], HistoryError::WrongEvent(0)),
        (
            &[GROUP[0], member!(0, 1, 2, 5)][..],
            HistoryError::WrongEvent(1),
        ),
        (
            &[fault!(3, 0), fault!(1, 0)][..],
            HistoryError::WrongEvent(1),
        ),
        // Machine 2 is privileged, and there is no seat 10, no machine's value 4.
        (
            &[pass!(0, Reply::NotPrivileged)][..],
            HistoryError::WrongEvent(0),
        ),
        (
            &[fault!(3, 0), pass!(10, SECOND)][..],
            HistoryError::WrongEvent(1),
        ),
        (&[fault!(4, 0)][..], HistoryError::WrongEvent(0)),
        // A group that ends too early, and one that lacks a member.
        (&[GROUP[0], GROUP[1]][..], HistoryError::BrokenGroup),
        (
            &[GROUP[0], member!(3, 0, 2, 4)][..],
            HistoryError::BrokenGroup,
        ),
    ] {
        assert!(rt; goes_on(&rt, rt.alloc(), events).err() == Some(want));
    }
}
