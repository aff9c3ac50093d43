//! How soon a ring is settled. Each law is the contract of a function that does nothing; the statements
//! are in `specs/RepairLaws.antt` and `specs/Progress.antt`.

ghost use Rattle.ring_model.specs.Progress.{FewRoundsSettle};
ghost use Rattle.ring_model.specs.RepairLaws.{FirstPassesCount, PassesLeftMeans, FirstPassesSettle, FirstPassesAreSharp, FewRoundsAreSharp, LongRunSettles, LongRunsAreSharp, LongCalmSettles};

/// Where the first privileged machine passes each time, every pass is granted, and the ring is settled after exactly as many
/// as the state says (`passes_left`), never more than n - 1. For each n of at least 3 and each K some ring needs n - 1.
pub fn first_passes()
    ensures count { FirstPassesCount }
    ensures means { PassesLeftMeans }
    ensures settle { FirstPassesSettle }
    ensures sharp { FirstPassesAreSharp }
{}

/// 2n - 3 complete rounds of a run, in which every machine is asked at least once, settle every ring of n
/// machines. For each n of at least 4 and each K some ring is not settled by some run of one round less.
pub fn few_rounds()
    ensures settle { FewRoundsSettle }
    ensures sharp { FewRoundsAreSharp }
{}

/// A run with (n - 2)(3n + 1)/2 granted passes settles every ring of n machines. For each n of at least 4 and each K
/// some ring is not settled by some run of one granted pass less.
pub fn long_runs()
    ensures settle { LongRunSettles }
    ensures sharp { LongRunsAreSharp }
{}

/// At every place of a legal history exactly one machine is privileged if the calm is at least (n - 2)(3n + 1)/2.
pub fn long_calm<C>()
    ensures { LongCalmSettles C }
{}
