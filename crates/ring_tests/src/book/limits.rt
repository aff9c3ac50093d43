//! Histories that are full.

use super::{Scene, Step, play_all};
use ring_book::{BookError, Op};

const FULL: BookError = BookError::HistoryFull;

const LIMITS: [Scene<'static>; 2] = [
    // Calls are refused, and looks are still answered.
    Scene {
        k: 2,
        start: &[0, 0],
        filled: 3_999_999,
        steps: &[
            Step::Reserve(2, Err(FULL)),
            Step::Reserve(1, Ok(())),
            Step::Reserve(0, Ok(())),
            Step::NotPrivileged(3_999_999, 1, 0),
            Step::Refused(Op::Pass {
                machine: 0,
                order: 0,
            }),
            Step::Refused(Op::Corrupt {
                machine: 0,
                value: 1,
            }),
            Step::Reserve(1, Err(FULL)),
            Step::Reserve(0, Ok(())),
            Step::Survey(4_000_000, 1, 0, 0, 0),
            Step::Settle(Ok(0)),
            Step::Counts([3_999_999, 1, 0], 0, 4_000_000),
        ],
    },
    // Settling stops.
    Scene {
        k: 4,
        start: &[0, 2, 1, 0],
        filled: 3_999_999,
        steps: &[
            Step::Survey(3_999_999, 4, 0, 0, 18),
            Step::Settle(Err(FULL)),
            Step::Survey(4_000_000, 3, 1, 1, 14),
            Step::Settle(Err(FULL)),
            Step::Survey(4_000_000, 3, 1, 1, 14),
        ],
    },
];

#[test]
fn a_full_history_takes_no_call(rt: HostRuntime) {
    play_all(&rt, rt.alloc(), &LIMITS);
}
