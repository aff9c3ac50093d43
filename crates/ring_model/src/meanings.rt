//! The meaning of the definitions by tests and recursions, in words that need no program. Each is the contract
//! of a function that does nothing; the statements are in `specs/Laws.antt`, `specs/OtherLead.antt`,
//! `specs/Suffixes.antt` and `specs/Worked.antt`.

ghost use Rattle.ring_model.specs.Laws.{FrontMeans, LeadMeans};
ghost use Rattle.ring_model.specs.OtherLead.{OtherDescent, OtherRestRises};
ghost use Rattle.ring_model.specs.Suffixes.{CalmMeans, SettledRunMeans};
ghost use Rattle.ring_model.specs.Worked.{WorkedPlaces, WorkedGrants, WorkedLogs};

/// The test on neighbours says that the machines that hold the value of machine 0 are exactly 0 to p, for some p.
pub fn prefix_meaning()
    ensures { FrontMeans }
{}

/// Where they are not such a prefix, the lead is the least number of steps, from 1, to a value that no other
/// machine has, and it is at most n - 1.
pub fn lead_meaning()
    ensures { LeadMeans }
{}

/// A lead that is 0 only where no other machine holds the value of machine 0 would not do: by it the copy
/// from (3, 2, 1, 0) to (3, 3, 1, 0), with four values, raises the rest from 6 to 15.
pub fn other_lead_fails()
    ensures rises { OtherRestRises }
    ensures fails { ¬ OtherDescent }
{}

/// The calm of a history is the number of granted passes in its longest suffix without a corruption.
pub fn calm_meaning()
    ensures { CalmMeans }
{}

/// The settled run of a history is its longest suffix without a corruption before each of whose events the ring is settled.
pub fn settled_run_meaning<C>()
    ensures { SettledRunMeans C }
{}

/// A history worked by hand: its states, its surveys and its grants, a log that fits it and logs that do not.
pub fn worked_history()
    ensures places { WorkedPlaces }
    ensures grants { WorkedGrants }
    ensures logs { WorkedLogs }
{}
