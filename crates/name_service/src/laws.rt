//! The laws of locks by any name whose lines are answered with a journal. Each law is the contract of a function that does
//! nothing; the statements are in `specs/RightNames.antt`, `specs/RingLines.antt`, `specs/NameLines.antt`,
//! `specs/NamesBack.antt`, `specs/NamesKept.antt`, `specs/NameReplicas.antt`, `specs/NamedRuns.antt`,
//! `specs/NamesOfRuns.antt`, `specs/Life.antt`, `specs/NameEqual.antt` and `specs/FixedNames.antt`.

ghost use Rattle.name_service.specs.FixedNames.{FixedNamesAreLocks};
ghost use Rattle.name_service.specs.Life.{EmptyPartsGrow, NameLinesAreHeard, PartsAreNamedLife};
ghost use Rattle.name_service.specs.NameEqual.{EqualNameLinesGiveEqualAnswers};
ghost use Rattle.name_service.specs.NameLines.{ServedNameLinesAreAnswered, AnsweredNameLinesFollow, NamedLocksComeBack, NothingToldOfNamesIsLost};
ghost use Rattle.name_service.specs.NameReplicas.{LocksOfNamedReplicasComeBack, NamesOfReplicasComeBack};
ghost use Rattle.name_service.specs.NamedRuns.{NothingToldOfReplicasIsLost};
ghost use Rattle.name_service.specs.NamesBack.{NamesComeBackOfJournals};
ghost use Rattle.name_service.specs.NamesKept.{NamesComeBackOfWhateverIsKept};
ghost use Rattle.name_service.specs.NamesOfRuns.{NamesOfRunsComeBack};
ghost use Rattle.name_service.specs.RightNames.{BegunNamesAreRight, RestoredNamesAreRight, RightNamesStay, RightNamesContinue, RightNamesGrow};
ghost use Rattle.name_service.specs.RingLines.{NameLinesAreRingLines};

/// Names are right where they begin and where they come back, if they are spelled as names; so they stay over lines, where the
/// number of all grants never falls, and where the next segments begin and the pool grows.
pub fn right_names_stay()
    ensures begun { BegunNamesAreRight }
    ensures restored { RestoredNamesAreRight }
    ensures stay { RightNamesStay }
    ensures next { RightNamesContinue }
    ensures grow { RightNamesGrow }
{}

/// Lines about names are lines of rings, which have their numbers as names: the rings answer these lines one after the other as
/// fixed locks do, and note the same, without the remarks; what they answer is said with the names and their tokens. A line that
/// reaches no ring changes nothing, and no hold is reported to it.
pub fn name_lines_are_ring_lines()
    ensures { NameLinesAreRingLines }
{}

/// Lines that the service answers are answered so, and no file changes; and lines that are answered in parts, one after the other,
/// are answered as a whole.
pub fn answered_name_lines_follow()
    ensures served { ServedNameLinesAreAnswered }
    ensures follow { AnsweredNameLinesFollow }
{}

/// Of a journal that has the beginning of a segment and the notes of the lines that were delivered, and perhaps a torn line after
/// them, one history is recovered, if its remarks are left out. The locks that are made of it are those after the last of these
/// lines, restarted.
pub fn named_locks_come_back()
    ensures { NamedLocksComeBack }
{}

/// Of whatever is kept of a journal, if it has the beginning of a segment and the notes of the lines that were delivered, rings
/// are recovered, where each grant and each release that was delivered is at its place.
pub fn nothing_told_of_names_is_lost()
    ensures { NothingToldOfNamesIsLost }
{}

/// What the remarks of such a journal record is how the rings are bound after the last line, and how many grants there were of all
/// rings where the segment begins: with those of the rings since, it is how many there are.
pub fn names_come_back_of_journals()
    ensures { NamesComeBackOfJournals }
{}

/// The same of a replica of such locks, in whose journal there are the remarks of its own lines too: without the remarks its locks
/// come back, and of the remarks their names.
pub fn locks_of_named_replicas_come_back()
    ensures locks { LocksOfNamedReplicasComeBack }
    ensures names { NamesOfReplicasComeBack }
{}

/// Of whatever is kept of a replica's file, if it has the notes of the lines that were delivered, rings are recovered, where each
/// grant and each release that the names inside said is at its place; and what the replica said of the lines that were new to it is
/// what they said.
pub fn nothing_told_of_replicas_is_lost()
    ensures { NothingToldOfReplicasIsLost }
{}

/// Of a list without a pool the locks by names are the locks by their places: each line has the same answers, the same notes and the
/// same step, while fewer than 2^63 grants were made.
pub fn fixed_names_are_locks()
    ensures { FixedNamesAreLocks }
{}

/// Lines about names are inputs of one machine with names, and what it answers to them is said. So are lines that are delivered in
/// parts, in one segment after the other, where the pool may get rings between them; and where no line is delivered it may get rings
/// too.
pub fn lines_are_inputs_of_one_machine()
    ensures heard { NameLinesAreHeard }
    ensures life { PartsAreNamedLife }
    ensures grow { EmptyPartsGrow }
{}

/// On strict terms equal lines give equal answers: two services in the same state, whatever memory each has, answer the same lines
/// about names with the same text and the same notes, and are in the same state again.
pub fn equal_name_lines_give_equal_answers()
    ensures { EqualNameLinesGiveEqualAnswers }
{}

/// Of whatever is kept of a journal, or of a replica's file, if it has the notes of the delivered lines, the remarks of its whole
/// lines record how the rings of the pool were bound where it ends: after the delivered lines and some more, or within the notes of
/// the next line, where the first rings, by their numbers, are bound as after that line, and the others as before it. So no ring
/// comes back with a name that it did not have there.
pub fn names_come_back_of_whatever_is_kept()
    ensures lines { NamesComeBackOfWhateverIsKept }
    ensures runs { NamesOfRunsComeBack }
{}
