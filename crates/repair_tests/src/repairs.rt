use ring_repairs::{Daemon, Histogram, Repairs, Start, Study};
use ring_state::Params;
use std::alloc::Global;
use std::process::Abort;

/// A study, and what its trials come to: least, mean in hundredths, the quantiles 50, 90, 99 and 99.9 of 100, greatest.
#[derive(Drop)]
struct Row {
    n: u32,
    k: u32,
    start: Start,
    daemon: Daemon,
    seed: u64,
    trials: u64,
    numbers: [u64; 7],
}

const ROWS: [Row; 17] = [
    Row {
        n: 5,
        k: 5,
        start: Start::Any,
        daemon: Daemon::Random,
        seed: 1,
        trials: 200,
        numbers: [0, 311, 3, 5, 7, 8, 8],
    },
    Row {
        n: 5,
        k: 5,
        start: Start::Any,
        daemon: Daemon::First,
        seed: 1,
        trials: 200,
        numbers: [0, 242, 2, 3, 4, 4, 4],
    },
    Row {
        n: 5,
        k: 5,
        start: Start::Any,
        daemon: Daemon::Last,
        seed: 1,
        trials: 200,
        numbers: [0, 431, 5, 6, 6, 6, 6],
    },
    Row {
        n: 8,
        k: 11,
        start: Start::Faults(3),
        daemon: Daemon::Random,
        seed: 7,
        trials: 200,
        numbers: [1, 697, 6, 12, 17, 22, 22],
    },
    Row {
        n: 4,
        k: 300,
        start: Start::Any,
        daemon: Daemon::Random,
        seed: 9,
        trials: 100,
        numbers: [2, 245, 2, 3, 4, 4, 4],
    },
    Row {
        n: 16,
        k: 16,
        start: Start::Any,
        daemon: Daemon::Random,
        seed: 3,
        trials: 300,
        numbers: [17, 3807, 37, 49, 59, 67, 67],
    },
    Row {
        n: 8,
        k: 8,
        start: Start::Faults(8),
        daemon: Daemon::Last,
        seed: u64::MAX,
        trials: 200,
        numbers: [6, 1766, 18, 21, 21, 21, 21],
    },
    Row {
        n: 6,
        k: 6,
        start: Start::Faults(0),
        daemon: Daemon::Random,
        seed: 5,
        trials: 50,
        numbers: [0, 0, 0, 0, 0, 0, 0],
    },
    Row {
        n: 2,
        k: 2,
        start: Start::Any,
        daemon: Daemon::Random,
        seed: 5,
        trials: 50,
        numbers: [0, 0, 0, 0, 0, 0, 0],
    },
    Row {
        n: 4,
        k: 4,
        start: Start::All,
        daemon: Daemon::Slow,
        seed: 0,
        trials: 1,
        numbers: [0, 457, 4, 11, 13, 13, 13],
    },
    Row {
        n: 3,
        k: 4,
        start: Start::All,
        daemon: Daemon::Turn,
        seed: 0,
        trials: 1,
        numbers: [0, 68, 1, 2, 2, 2, 2],
    },
    Row {
        n: 3,
        k: 3,
        start: Start::All,
        daemon: Daemon::Random,
        seed: 2,
        trials: 20,
        numbers: [0, 48, 0, 1, 2, 2, 2],
    },
    Row {
        n: 8,
        k: 11,
        start: Start::Any,
        daemon: Daemon::Turn,
        seed: 7,
        trials: 100,
        numbers: [3, 544, 6, 6, 7, 7, 7],
    },
    Row {
        n: 6,
        k: 300,
        start: Start::Any,
        daemon: Daemon::Slow,
        seed: 7,
        trials: 50,
        numbers: [13, 1312, 13, 13, 19, 19, 19],
    },
    Row {
        n: 9,
        k: 9,
        start: Start::Faults(4),
        daemon: Daemon::Slow,
        seed: 1,
        trials: 50,
        numbers: [0, 2684, 27, 39, 55, 55, 55],
    },
    Row {
        n: 5,
        k: 5,
        start: Start::Any,
        daemon: Daemon::Groups,
        seed: 1,
        trials: 200,
        numbers: [0, 433, 4, 7, 12, 14, 14],
    },
    Row {
        n: 40,
        k: 40,
        start: Start::Faults(3),
        daemon: Daemon::Groups,
        seed: 7,
        trials: 50,
        numbers: [3, 4794, 40, 102, 154, 154, 154],
    },
];

/// The trials of a row, of which none is done.
fn repairs_of(rt: &impl Abort, alloc: Global, row: &Row) -> Repairs {
    let size = Params::new(row.n, row.k).expect(rt, "a size within the limits");
    let study = Study::new(size, row.start, row.daemon, row.trials, row.seed).expect(rt, "a study");
    Repairs::new(alloc, study).expect(rt, "memory")
}

fn has_numbers(histogram: &Histogram, wanted: &[u64; 7]) -> bool {
    histogram.least() == Some(wanted[0])
        && histogram.mean_hundredths() == Some(wanted[1])
        && histogram.quantile(50, 100) == Some(wanted[2])
        && histogram.quantile(90, 100) == Some(wanted[3])
        && histogram.quantile(99, 100) == Some(wanted[4])
        && histogram.quantile(999, 1000) == Some(wanted[5])
        && histogram.greatest() == Some(wanted[6])
}

#[test]
fn numbers_of_trials(rt: HostRuntime) {
    for (place, row) in ROWS.iter().enumerate() {
        let mut repairs = repairs_of(&rt, rt.alloc(), row);
        repairs.advance(u64::MAX);
        let all = repairs.study().count();
        assert!(rt;
            repairs.done() == all && repairs.study().trials() == row.trials,
            "row {place}"
        );
        assert!(rt; repairs.passes().total() == all, "row {place}");
        assert!(rt; has_numbers(repairs.passes(), &row.numbers), "row {place}");
    }
}

/// How many of 40 trials of four machines with four values took each number of passes, up to that of the longest repair.
const COUNTS: [(Daemon, [u64; 14]); 3] = [
    (Daemon::First, [8, 14, 14, 4, 0, 0, 0, 0, 0, 0, 0, 0, 0, 0]),
    (Daemon::Last, [8, 13, 6, 13, 0, 0, 0, 0, 0, 0, 0, 0, 0, 0]),
    (Daemon::Random, [8, 15, 12, 3, 2, 0, 0, 0, 0, 0, 0, 0, 0, 0]),
];

#[test]
fn every_trial_is_counted_once_whatever_the_blocks(rt: HostRuntime) {
    for (daemon, counts) in COUNTS.iter() {
        for block in [1, 7, 40] {
            let row = Row {
                n: 4,
                k: 4,
                start: Start::Any,
                daemon: *daemon,
                seed: 11,
                trials: 40,
                numbers: [0; 7],
            };
            let mut repairs = repairs_of(&rt, rt.alloc(), &row);
            for _ in 0..40 {
                repairs.advance(block);
            }
            assert!(rt; repairs.done() == 40 && repairs.study().trials() == 40);
            assert!(rt;
                repairs.passes().counts() == counts.as_slice(),
                "blocks of {block}"
            );
        }
    }
}

#[test]
fn nothing_is_counted_at_first(rt: HostRuntime) {
    let repairs = repairs_of(&rt, rt.alloc(), &ROWS[0]);
    let passes = repairs.passes();
    assert!(rt; repairs.done() == 0 && passes.total() == 0 && passes.counts().len() == 25);
    assert!(rt; passes.least().is_none() && passes.greatest().is_none());
    assert!(rt; passes.mean_hundredths().is_none() && passes.quantile(50, 100).is_none());
}
