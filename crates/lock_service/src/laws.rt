//! The laws of a service of locks with a journal. Each law is the contract of a function that does nothing; the statements are in
//! `specs/Begun.antt`, `specs/Remarked.antt` and `specs/Equal.antt`. And the laws of the lines that bring the state of a service
//! back: their statements are in `specs/WaitersBack.antt` and `specs/StateBack.antt`.

ghost use Rattle.lock_service.specs.Begun.{ServedLinesAreAnswered};
ghost use Rattle.lock_service.specs.Equal.{EqualLinesGiveEqualAnswers, EqualSegmentsEndEqually};
ghost use Rattle.lock_service.specs.Remarked.{LocksOfReplicasComeBack, RemarksBringBack};
ghost use Rattle.lock_service.specs.StateBack.{HoldsAreFirst, StateComesBack};
ghost use Rattle.lock_service.specs.WaitersBack.{HavingStateStays, WaitersComeBack};

/// Lines that the service answers are answered so, whether its segment is kept on or not, and no file changes.
pub fn served_lines_are_answered()
    ensures { ServedLinesAreAnswered }
{}

/// Of the journal of a replica the locks inside come back as `locks_come_back` of `lock_journal` says, without the remarks in it.
pub fn locks_of_replicas_come_back()
    ensures { LocksOfReplicasComeBack }
{}

/// A replica with no key, before the first place, that is given the lines of the remarks in the journal of a segment has the keys
/// after the last line, and the digest at the last place, as long as answers begin with lines that can be kept.
pub fn remarks_bring_back()
    ensures { RemarksBringBack }
{}

/// On strict terms equal lines give equal answers: two services in the same state, whatever memory each has, answer the same lines
/// with the same text and the same notes, and are in the same state again. So are those of their next segments, which begin with
/// the same text.
pub fn equal_lines_give_equal_answers()
    ensures answers { EqualLinesGiveEqualAnswers }
    ensures segments { EqualSegmentsEndEqually }
{}

/// Locks with the holds of others, for which nobody waits, that are given the lines of those who wait for the others, lock by
/// lock and in their order, have the same clients waiting with the same labels, and the same holds. Each of them gets the answer
/// that it waits. What is asked of the others for it, numbers of 64 bits above all, stays so, whatever is asked of them.
pub fn waiters_come_back()
    ensures stays { HavingStateStays }
    ensures back { WaitersComeBack }
{}

/// The lines of the state of locks inside a replica are those of their holds, and then others. On strict terms a replica of locks
/// with these holds, for which nobody waits, with no key and before the first place, that is given these others has the same
/// clients waiting, the same holds, the same keys, and the digest at the last place.
pub fn state_comes_back()
    ensures first { HoldsAreFirst }
    ensures back { StateComesBack }
{}
