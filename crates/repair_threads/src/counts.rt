//! How many threads there may be.
ghost use Rattle.std.specs.Prelude.{◌≡◌, ◌<◌, ◌⊎◌, MatchOption};
ghost use Rattle.repair_threads.specs.Shares.{thread_limit, AreThreads};

use std::marker::Model;

/// The most threads that may be asked for.
pub const THREAD_LIMIT: u32 = 64;

/// A number of threads, from 1 to [`THREAD_LIMIT`].
#[derive(Clone, Copy)]
pub struct ThreadCount {
    count: u32,
}

impl Model for ThreadCount {
    ghost use Rattle.std.specs.Prelude.{ℕ};
    ghost use Rattle.repair_threads.specs.Shares.{AreThreads};

    ghost Value = { ℕ };

    ghost view = { λ t. t.count };

    ghost invariant = { λ t. AreThreads t.count };

    ghost inverse = { λ count. record { count = count } };
}

impl ThreadCount {
    /// That number, if there may be as many.
    pub fn new(count: u32) -> Option<ThreadCount>
        ensures { MatchOption result ((count ≡ 0) ⊎ (thread_limit < count))
            (λ threads. (threads ≡ count) × AreThreads count) }
    {
        if count == 0 || count > THREAD_LIMIT {
            return None;
        }
        Some(ThreadCount { count })
    }

    /// The number.
    pub fn get(&self) -> u32
        ensures is { result ≡ self.now }
        ensures within { AreThreads self.now }
    {
        self.count
    }
}
