//! Laws of the definitions that state what `check_saved` promises: functions with an empty body, whose contract is the law.

ghost use Rattle.ring_check.specs.Legal.{AtMostOneIsRight, UpgradeIsLegal};
ghost use Rattle.ring_check.specs.Lines.{LinesAreFew, LinesOfMemoryAreFew};
ghost use Rattle.ring_check.specs.Meaning.{LegalMeans, MembersMean};

/// A text is legal by the table of the refusals exactly where its blocks describe legal histories of one-thread rings,
/// and of surveys of them.
pub fn legal_as_defined()
    ensures { LegalMeans }
{}

/// The table tests whether an event may come after a history: it lets an event come exactly if `MayCome` of `ring_model`
/// says that it may. So a reader of that definition need not read the test.
#[tactic(auto, using(crate::proofs::OpenRuns::members_mean))]
pub fn members_as_defined()
    ensures { MembersMean }
{}

/// At most one answer of the checker is right, memory aside: so it answers `Ok` exactly where the text is legal,
/// and a bad line exactly where that line is the first bad one.
pub fn answers_are_apart()
    ensures { AtMostOneIsRight }
{}

/// Where a text is legal its upgrade is legal too, with the same sums: the latest version allows whatever an earlier one does.
pub fn upgrade_is_legal()
    ensures { UpgradeIsLegal }
{}

/// A text has no more lines than bytes. So a value that was read from bytes in memory has fewer than 2 to the power 64 lines, as
/// [`check_saved`](crate::check_saved) asks.
pub fn lines_are_few()
    ensures few { LinesAreFew }
    ensures read { LinesOfMemoryAreFew }
{}
