//! The laws of turns and of the journal: functions with empty bodies, whose contracts are the laws.

ghost use Rattle.ring_service.specs.Due.{NeverFull};
ghost use Rattle.ring_service.specs.Equal.{EqualLinesGiveEqualAnswers};
ghost use Rattle.ring_service.specs.Recording.{JournalsAreRight};
ghost use Rattle.ring_service.specs.Segments.{ChainsGrow, AnswersAreOfChains, BlocksAreOfChains, SurveysAreOfChains};
ghost use Rattle.ring_service.specs.Turns.{OneTurnIsRight};

/// A line has one turn, memory aside.
pub fn one_turn_is_right()
    ensures { OneTurnIsRight }
{}

/// While no ring is short, no line is refused since a history is full.
pub fn no_line_is_refused_full()
    ensures { NeverFull }
{}

/// The records of the turns of lines, after the saved rings from which they began, are a right journal: its history is legal
/// at each moment, and it records the rings as they are saved at the end. So any history that is recovered of it is theirs.
pub fn journals_are_right()
    ensures { JournalsAreRight }
{}

/// The segments of a ring are a chain, wherever one ends and the next begins; and each answer is that of the one-thread ring
/// whose history is the whole chain.
pub fn answers_are_of_chains()
    ensures grow { ChainsGrow }
    ensures calls { AnswersAreOfChains }
    ensures blocks { BlocksAreOfChains }
    ensures surveys { SurveysAreOfChains }
{}

/// On strict terms equal lines give equal answers: equal rings answer the same lines with the same text and the same notes, whatever
/// memory there is, and are equal again. Where lines may save, what they are answered depends on files too.
pub fn equal_lines_give_equal_answers()
    ensures { EqualLinesGiveEqualAnswers }
{}
