//! Gates that watch how the workers of a farm come.

use ring_farm::Gate;
use std::sync::atomic::{AtomicU64, Ordering};
use std::thread;

/// How many turns a gate waits at most: for many seconds, whatever else runs.
const MOST_TURNS: u64 = 30_000_000;

/// Waits until the word has this bit, or as long as a gate waits.
fn waits_for(word: &AtomicU64, bit: u64) -> bool {
    for _ in 0..MOST_TURNS {
        if word.load(Ordering::SeqCst) & bit != 0 {
            return true;
        }
        thread::yield_now();
    }
    false
}

/// Holds the first arrival of worker 1 until that of worker 0 was called, and that of worker 0 until worker 1
/// came back; or shuts at the first arrival of worker 0.
#[derive(Drop)]
pub(crate) struct Crossed {
    pub(crate) seen: AtomicU64,
    pub(crate) shut: bool,
}

/// A crossed gate that is not shut.
pub(crate) fn waiting() -> Crossed {
    Crossed {
        seen: AtomicU64::new(0),
        shut: false,
    }
}

impl Gate for Crossed {
    fn arrive(&self, _ring: u32, worker: u32, call: u32) -> bool {
        match (worker, call) {
            (0, 0) => {
                self.seen.fetch_or(1, Ordering::SeqCst);
                if self.shut {
                    return false;
                }
                waits_for(&self.seen, 2)
            }
            (1, 0) => {
                self.seen.fetch_or(4, Ordering::SeqCst);
                waits_for(&self.seen, 1)
            }
            (1, 1) => {
                self.seen.fetch_or(2, Ordering::SeqCst);
                true
            }
            _ => true,
        }
    }
}

/// Holds each first arrival until all were called.
#[derive(Drop)]
pub(crate) struct Together {
    pub(crate) arrived: AtomicU64,
    pub(crate) all: u64,
}

impl Gate for Together {
    fn arrive(&self, _ring: u32, _worker: u32, call: u32) -> bool {
        if call > 0 {
            return false;
        }
        self.arrived.fetch_add(1, Ordering::SeqCst);
        for _ in 0..MOST_TURNS {
            if self.arrived.load(Ordering::SeqCst) == self.all {
                return true;
            }
            thread::yield_now();
        }
        false
    }
}

/// Holds the first arrivals at each of two rings until the other ring has one too.
#[derive(Drop)]
pub(crate) struct BothRings {
    pub(crate) seen: AtomicU64,
}

impl Gate for BothRings {
    fn arrive(&self, ring: u32, _worker: u32, call: u32) -> bool {
        if call > 0 {
            return true;
        }
        let (own, other) = if ring == 0 { (1, 2) } else { (2, 1) };
        self.seen.fetch_or(own, Ordering::SeqCst);
        waits_for(&self.seen, other)
    }
}

/// One arrival of a worker: the ring, the worker and the call's number.
#[derive(Clone, Copy, PartialEq, Eq)]
pub(crate) struct Arrival {
    pub(crate) ring: u32,
    pub(crate) worker: u32,
    pub(crate) call: u32,
}

/// Counts the calls of each of ten workers on each of two rings, and those whose number is not that of the worker's
/// calls before; shut at one arrival, or at none.
#[derive(Drop)]
pub(crate) struct Tally {
    pub(crate) first: AtomicU64,
    pub(crate) second: AtomicU64,
    pub(crate) wrong: AtomicU64,
    pub(crate) shut: Option<Arrival>,
}

/// A tally with no call yet.
pub(crate) fn new_tally(shut: Option<Arrival>) -> Tally {
    Tally {
        first: AtomicU64::new(0),
        second: AtomicU64::new(0),
        wrong: AtomicU64::new(0),
        shut,
    }
}

/// Six bits of a word for each worker, from the low end on.
const WORKERS: [u64; 10] = [
    1,
    64,
    4_096,
    262_144,
    16_777_216,
    1_073_741_824,
    68_719_476_736,
    4_398_046_511_104,
    281_474_976_710_656,
    18_014_398_509_481_984,
];

/// Counts a call of this worker, and answers whether it has the number of the worker's calls before.
fn is_next(calls: &AtomicU64, worker: u32, call: u32) -> bool {
    if worker > 9 {
        return false;
    }
    let one = WORKERS[worker as usize];
    calls.fetch_add(one, Ordering::SeqCst) / one % 64 == u64::from(call)
}

impl Gate for Tally {
    fn arrive(&self, ring: u32, worker: u32, call: u32) -> bool {
        let right = match ring {
            0 => is_next(&self.first, worker, call),
            1 => is_next(&self.second, worker, call),
            _ => false,
        };
        if !right {
            self.wrong.fetch_add(1, Ordering::SeqCst);
        }
        self.shut != Some(Arrival { ring, worker, call })
    }
}

/// Shut for one worker on one ring.
#[derive(Clone, Copy)]
pub(crate) struct ShutFor {
    pub(crate) ring: u32,
    pub(crate) worker: u32,
}

impl Gate for ShutFor {
    fn arrive(&self, ring: u32, worker: u32, _call: u32) -> bool {
        ring != self.ring || worker != self.worker
    }
}

/// Lets no worker on, and counts those that came.
#[derive(Drop)]
pub(crate) struct Closed {
    pub(crate) came: AtomicU64,
}

impl Gate for Closed {
    fn arrive(&self, _ring: u32, _worker: u32, _call: u32) -> bool {
        self.came.fetch_add(1, Ordering::SeqCst);
        false
    }
}
