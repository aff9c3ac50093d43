//! What comes back at a start, of any machine.

ghost use Rattle.line_replay.specs.Replays.{LinesComeBack, ToldComeBack, CutsAreTaken, MendedComesBack, OneReplay};
ghost use Rattle.line_replay.specs.Runs.{RunsAreOneLife, LivesComeBack};

use crate::machine::DoesLines;

/// Of what lines leave, cut anywhere, the state after the first of them comes back.
pub fn lines_come_back<S: DoesLines>()
    ensures { LinesComeBack S.machine }
{}

/// All lines that were reported are among those that come back.
pub fn told_come_back<S: DoesLines>()
    ensures { ToldComeBack S.machine }
{}

/// What lines leave is never refused, wherever it is cut.
pub fn cuts_are_taken<S: DoesLines>()
    ensures { CutsAreTaken S.machine }
{}

/// A start that is ended while it mends what is there changes nothing of what comes back.
pub fn mended_comes_back<S: DoesLines>()
    ensures { MendedComesBack S.machine }
{}

/// Of the same bytes the same comes back.
pub fn one_replay<S: DoesLines>()
    ensures { OneReplay S.machine }
{}

/// Any number of runs over one folder, each ended at any moment, are one life of the machine.
pub fn runs_are_one_life<S: DoesLines>()
    ensures { RunsAreOneLife S.machine }
{}

/// What comes back of the folder that they leave is the state after all that life.
pub fn lives_come_back<S: DoesLines>()
    ensures { LivesComeBack S.machine }
{}
