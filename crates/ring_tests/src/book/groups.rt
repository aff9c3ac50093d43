//! Groups that pass at once. The largest of the widest ring is a row of `tests/rows` (`widest_group`).

use super::{Scene, Step, play_all};
use ring_book::{Event, GroupError, GroupReceipt, Op, Reply};

/// A member of seat 0's group with order 2, with this many more after it.
macro_rules! member {
    ($machine:expr, $left:expr, $number:expr, $amount:expr) => {
        Event {
            seat: 0,
            op: Op::Member {
                machine: $machine,
                order: 2,
                left: $left,
            },
            reply: Reply::Granted {
                number: $number,
                result: $amount,
            },
        }
    };
}

const ALL: Step<'static> = Step::Group(&[0, 1, 2, 3], 2, Err(GroupError::WholeRing));

const BUT_TWO: Step<'static> = Step::Group(&[0, 1, 3], 2, Ok(GroupReceipt { first: 0, count: 3 }));

const GROUPS: [Scene<'static>; 4] = [
    Scene {
        k: 4,
        start: &[0, 2, 1, 0],
        filled: 0,
        steps: &[
            ALL,
            BUT_TWO,
            Step::Ends(&[
                member!(1, 2, 1, 2),
                member!(0, 1, 2, 4),
                member!(3, 0, 3, 6),
            ]),
            Step::Values(&[1, 0, 1, 1]),
            Step::Survey(3, 3, 0, 3, 9),
            Step::Counts([0, 3, 0], 3, 3),
            ALL,
            Step::Group(&[2, 3], 2, Err(GroupError::NotPrivileged(3))),
            Step::Values(&[1, 0, 1, 1]),
        ],
    },
    // The least machine that is not privileged is named.
    Scene {
        k: 4,
        start: &[1, 1, 1, 0],
        filled: 0,
        steps: &[
            Step::Group(&[0, 1, 2], 2, Err(GroupError::NotPrivileged(0))),
            Step::Group(&[1, 2, 3], 2, Err(GroupError::NotPrivileged(1))),
            Step::Group(&[2, 3], 2, Err(GroupError::NotPrivileged(2))),
            ALL,
            Step::Counts([0, 0, 0], 0, 0),
        ],
    },
    // A group, a pass and a corruption, after which 1, 1, 0, 1 are there, and a group that leaves out machine 1.
    Scene {
        k: 4,
        start: &[0, 2, 1, 0],
        filled: 0,
        steps: &[
            BUT_TWO,
            Step::NotPrivileged(3, 3, 9),
            Step::Granted(4, 2, 5, 4, 11),
            Step::Corrupted(5, 1, 1, 0),
            Step::Survey(6, 3, 0, 0, 7),
            Step::Group(&[0, 2, 3], 1, Ok(GroupReceipt { first: 6, count: 3 })),
            Step::Values(&[2, 1, 1, 0]),
            Step::Survey(9, 2, 1, 3, 4),
            Step::Counts([1, 8, 0], 7, 9),
        ],
    },
    // A group needs a place in the history for each of its machines.
    Scene {
        k: 4,
        start: &[0, 2, 1, 0],
        filled: 3_999_998,
        steps: &[
            Step::Survey(3_999_998, 4, 0, 0, 18),
            Step::Group(&[0, 1, 3], 2, Err(GroupError::HistoryFull)),
            ALL,
            Step::Counts([3_999_998, 0, 0], 0, 3_999_998),
            Step::Group(
                &[1, 3],
                2,
                Ok(GroupReceipt {
                    first: 3_999_998,
                    count: 2,
                }),
            ),
            Step::Counts([3_999_998, 2, 0], 2, 4_000_000),
            Step::Ends(&[member!(3, 1, 1, 2), member!(1, 0, 2, 4)]),
            Step::Values(&[0, 0, 1, 1]),
        ],
    },
];

#[test]
fn groups_pass_at_once(rt: HostRuntime) {
    play_all(&rt, rt.alloc(), &GROUPS);
}
