//! Passes, corruptions, grants and settling of small rings.

use super::{Scene, Step, book_of, play, play_all};
use ring_book::{Event, Idle, Op, Reply};

/// A granted pass by a seat with order 0.
macro_rules! granted {
    ($seat:expr, $machine:expr, $number:expr) => {
        Event {
            seat: $seat,
            op: Op::Pass {
                machine: $machine,
                order: 0,
            },
            reply: Reply::Granted {
                number: $number,
                result: 0,
            },
        }
    };
}

const MOST: u64 = u64::MAX;

const PASSES: [Scene<'static>; 6] = [
    // Passes move the ring, and are recorded.
    Scene {
        k: 3,
        start: &[0, 2, 0],
        filled: 0,
        steps: &[
            Step::Granted(0, 0, 0, 1, 0),
            Step::Values(&[1, 2, 0]),
            Step::NotPrivileged(1, 0, 0),
            Step::Values(&[1, 2, 0]),
            Step::Granted(2, 2, 0, 2, 0),
            Step::Values(&[1, 2, 2]),
            Step::Ends(&[
                granted!(0, 0, 1),
                Event {
                    seat: 0,
                    op: Op::Pass {
                        machine: 0,
                        order: 0,
                    },
                    reply: Reply::NotPrivileged,
                },
                granted!(0, 2, 2),
            ]),
            Step::Counts([0, 3, 0], 2, 3),
        ],
    },
    // So are the passes that cannot be refused.
    Scene {
        k: 3,
        start: &[0, 2, 0],
        filled: 0,
        steps: &[
            Step::SurelyGranted(0, 0, 5, 1, 5),
            Step::Values(&[1, 2, 0]),
            Step::NotPrivileged(1, 0, 1),
            Step::SurelyGranted(2, 2, 4, 2, 9),
            Step::Values(&[1, 2, 2]),
            Step::Survey(3, 1, 1, 2, 0),
            Step::Grants([1, 0, 1], [0, 0, 0]),
            Step::Counts([0, 3, 0], 2, 3),
        ],
    },
    // Corruptions are recorded, and end the calm.
    Scene {
        k: 3,
        start: &[0, 0, 0],
        filled: 0,
        steps: &[
            Step::Corrupted(0, 1, 2, 0),
            Step::Values(&[0, 2, 0]),
            Step::Survey(1, 3, 0, 0, 6),
            Step::Corrupted(1, 1, 2, 2),
            Step::Values(&[0, 2, 0]),
            Step::Survey(2, 3, 0, 0, 6),
            Step::Granted(2, 0, 0, 1, 0),
            Step::Survey(3, 2, 1, 1, 3),
            Step::Counts([2, 1, 0], 1, 3),
        ],
    },
    // A till stays at the largest amount.
    Scene {
        k: 2,
        start: &[0, 0],
        filled: 0,
        steps: &[
            Step::Granted(0, 0, MOST, 1, MOST),
            Step::Granted(1, 1, 1, 2, MOST),
            Step::Counts([0, 2, 0], 2, 2),
        ],
    },
    // Grants of a settled ring go round until a corruption.
    Scene {
        k: 3,
        start: &[0, 0, 0],
        filled: 0,
        steps: &[
            Step::Granted(0, 0, 0, 1, 0),
            Step::Granted(1, 1, 0, 2, 0),
            Step::Granted(2, 2, 0, 3, 0),
            Step::Granted(3, 0, 0, 4, 0),
            Step::Granted(4, 1, 0, 5, 0),
            Step::Values(&[2, 2, 1]),
            Step::Survey(5, 1, 2, 5, 0),
            Step::Grants([2, 2, 1], [2, 2, 1]),
            Step::Corrupted(5, 2, 2, 1),
            Step::Values(&[2, 2, 2]),
            Step::Survey(6, 1, 0, 0, 0),
            Step::Grants([2, 2, 1], [0, 0, 0]),
        ],
    },
    // Grants before the ring has settled are not settled ones.
    Scene {
        k: 3,
        start: &[0, 2, 0],
        filled: 0,
        steps: &[
            Step::Granted(0, 0, 5, 1, 5),
            Step::NotPrivileged(1, 0, 1),
            Step::Granted(2, 2, 4, 2, 9),
            Step::Grants([1, 0, 1], [0, 0, 0]),
            Step::Survey(3, 1, 1, 2, 0),
        ],
    },
];

#[test]
fn passes_and_corruptions_are_recorded(rt: HostRuntime) {
    play_all(&rt, rt.alloc(), &PASSES);
}

const SETTLING: [Scene<'static>; 5] = [
    Scene {
        k: 3,
        start: &[0, 2, 0],
        filled: 0,
        steps: &[
            Step::Survey(0, 3, 0, 0, 6),
            Step::Settle(Ok(2)),
            Step::Values(&[1, 1, 0]),
            Step::Survey(2, 1, 2, 2, 0),
            Step::Ends(&[granted!(3, 0, 1), granted!(3, 1, 2)]),
        ],
    },
    // A settled ring is not settled again.
    Scene {
        k: 4,
        start: &[0, 2, 1, 0],
        filled: 0,
        steps: &[
            Step::Survey(0, 4, 0, 0, 18),
            Step::Settle(Ok(2)),
            Step::Values(&[1, 1, 1, 0]),
            Step::Survey(2, 1, 3, 2, 0),
            Step::Settle(Ok(0)),
            Step::Survey(2, 1, 3, 2, 0),
        ],
    },
    // Each machine but the last passes: no more are ever needed.
    Scene {
        k: 5,
        start: &[0, 2, 2, 2, 0],
        filled: 0,
        steps: &[
            Step::Survey(0, 3, 0, 0, 10),
            Step::Settle(Ok(4)),
            Step::Values(&[1, 1, 1, 1, 0]),
            Step::Survey(4, 1, 4, 4, 0),
        ],
    },
    // Machine 2 passes only if some machine to its right is privileged.
    Scene {
        k: 4,
        start: &[1, 0, 1, 1],
        filled: 0,
        steps: &[
            Step::Survey(0, 3, 0, 0, 9),
            Step::Settle(Ok(2)),
            Step::Values(&[2, 2, 1, 1]),
            Step::Survey(2, 1, 2, 2, 0),
        ],
    },
    // A ring that starts settled goes round.
    Scene {
        k: 3,
        start: &[2, 0, 0],
        filled: 0,
        steps: &[
            Step::Survey(0, 1, 1, 0, 0),
            Step::Granted(0, 1, 0, 1, 0),
            Step::Values(&[2, 2, 0]),
            Step::Granted(1, 2, 0, 2, 0),
            Step::Values(&[2, 2, 2]),
            Step::Granted(2, 0, 0, 3, 0),
            Step::Values(&[0, 2, 2]),
            Step::Granted(3, 1, 0, 4, 0),
            Step::Values(&[0, 0, 2]),
            Step::Grants([1, 2, 1], [1, 2, 1]),
        ],
    },
];

#[test]
fn rings_settle(rt: HostRuntime) {
    play_all(&rt, rt.alloc(), &SETTLING);
}

// Over a resource that does nothing; and room that was reserved serves a pass and a corruption.
#[test]
fn an_idle_resource_answers_0(rt: HostRuntime) {
    let mut book = book_of(&rt, rt.alloc(), 3, &[0, 0, 0], Idle);
    let steps = [
        Step::Reserve(2, Ok(())),
        Step::Survey(0, 1, 0, 0, 0),
        Step::Granted(0, 0, 7, 1, 0),
        Step::Corrupted(1, 2, 1, 0),
    ];
    play(&rt, &mut book, &steps);
    assert!(rt; *book.resource() == Idle);
}
