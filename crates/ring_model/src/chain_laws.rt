//! The laws of chains of segments. Each law is the contract of a function that does nothing; the statements
//! are in `specs/ChainLaws.antt`.

ghost use Rattle.ring_model.specs.ChainLaws.{ChainsAreHistories, SegmentsContinue, RemaindersAreChains, RepliesAreRight, NumbersRise, SurveysAreRight, SurveysFromStart, CalmIsAtLeast, LogsFit, LogsFromStart, TalliesAreRight, NextBasesAreRight, BasesHaveRoom};
ghost use Rattle.ring_model.specs.WorkedChains.{WorkedChain, WorkedSurveys};
ghost use Rattle.ring_model.specs.WrongChains.{AreHistoriesBy, without_grants, with_wrapped_amounts, LateChainsAreHistories, GapsAreHistories, OwnCalmIsRight};

/// The history of a chain is one of the one-thread ring, legal and whole, from where the first segment begins; and what
/// remains of a chain if its oldest segments were deleted is a chain.
pub fn histories()
    ensures histories { ChainsAreHistories }
    ensures remainders { RemaindersAreChains }
{}

/// Each segment continues those before it: its base counts their events and grants and has their amount and their
/// calm, and it begins with the ring with which they end.
pub fn places()
    ensures { SegmentsContinue }
{}

/// The reply of a segment's ring, shifted, is that of the one-thread ring after all segments.
pub fn replies()
    ensures { RepliesAreRight }
{}

/// Over all segments of a chain the numbers of the grants rise by one, without a gap.
pub fn grant_numbers()
    ensures { NumbersRise }
{}

/// A survey that is right in its segment, shifted, is right in the history of the chain; the calm there
/// is at least that in the segment.
pub fn surveys()
    ensures right { SurveysAreRight }
    ensures start { SurveysFromStart }
    ensures calm { CalmIsAtLeast }
{}

/// A client's logs that fit the segments of a chain, shifted, fit its history.
pub fn logs()
    ensures fit { LogsFit }
    ensures start { LogsFromStart }
{}

/// The tally of a segment has its grants, the amount in its till, and whether it is quiet; so with the survey of its end
/// it gives the base of the next segment.
pub fn tallies()
    ensures right { TalliesAreRight }
    ensures next { NextBasesAreRight }
    ensures room { BasesHaveRoom }
{}

/// A history worked by hand, as the history of two segments.
pub fn worked_chain()
    ensures chain { WorkedChain }
    ensures surveys { WorkedSurveys }
{}

/// Five laws that do not hold: with a base that forgets the grants; with an amount that wraps; with segments that begin
/// one call late; with a gap in the chain; and with surveys that have their segment's calm.
pub fn other_chains_fail()
    ensures numbers { ¬ AreHistoriesBy without_grants }
    ensures amounts { ¬ AreHistoriesBy with_wrapped_amounts }
    ensures late { ¬ LateChainsAreHistories }
    ensures gaps { ¬ GapsAreHistories }
    ensures calm { ¬ OwnCalmIsRight }
{}
