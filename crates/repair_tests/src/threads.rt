//! Threads count what one thread does.

use repair_threads::{THREAD_LIMIT, ThreadCount, advance_on};
use ring_repairs::{Daemon, Repairs, Start, Study};
use ring_state::Params;
use std::alloc::Global;
use std::process::Abort;

/// 40 trials of four machines with four values.
fn forty(rt: &impl Abort, alloc: Global) -> Repairs {
    let size = Params::new(4, 4).expect(rt, "a size within the limits");
    let study = Study::new(size, Start::Any, Daemon::Random, 40, 11).expect(rt, "a study");
    Repairs::new(alloc, study).expect(rt, "memory")
}

/// How many of them take each number of passes, up to that of the longest repair.
const COUNTS: [u64; 14] = [8, 15, 12, 3, 2, 0, 0, 0, 0, 0, 0, 0, 0, 0];

#[test]
fn any_number_of_threads_counts_each_trial_once(rt: HostRuntime) {
    for count in [1, 2, 3, 7, 40, THREAD_LIMIT] {
        let threads = ThreadCount::new(count).expect(&rt, "at most 64");
        for block in [1, 13, 40] {
            let mut repairs = forty(&rt, rt.alloc());
            for _ in 0..40 {
                assert!(rt; advance_on(&rt, rt.alloc(), &mut repairs, threads, block).is_ok());
            }
            assert!(rt; repairs.done() == 40);
            assert!(rt;
                repairs.passes().counts() == COUNTS.as_slice(),
                "{count} threads, blocks of {block}"
            );
        }
    }
}

#[test]
fn there_are_from_one_to_64_threads(rt: HostRuntime) {
    for (count, is_one) in [
        (0u32, false),
        (1, true),
        (64, true),
        (65, false),
        (u32::MAX, false),
    ] {
        match ThreadCount::new(count) {
            Some(threads) => assert!(rt; is_one && threads.get() == count),
            None => assert!(rt; !is_one),
        }
    }
}
