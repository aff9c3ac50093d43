//! The laws of the life of locks over runs and restarts. Each law is the contract of a function that does nothing; the statements are
//! in the files of `specs/`.

ghost use Rattle.lock_life.specs.Around.{ReplicaRunsAreStages, OtherLinesAreReplied};
ghost use Rattle.lock_life.specs.Lawful.{ToldGrantsAreGrants, ToldTokensRise, ToldHoldsExclude, ToldGrantsAreKept};
ghost use Rattle.lock_life.specs.Life.{RunsAreALife};
ghost use Rattle.lock_life.specs.OneLife.{RunsAreOneLife};
ghost use Rattle.lock_life.specs.Runs.{PartsAreStages, PutSegmentsAreStages, RunsFollow, RunsGoOn};
ghost use Rattle.lock_life.specs.Started.{StartedLocksAreFound, KeptSegmentsStart, FoundLocksBegin, StartedLocksBegin};

/// Runs of locks over one folder, each ended at any moment, and the next begun of what was kept, are one life: there is one list
/// of inputs of the machine of locks, with a restart between runs. What each run delivered is, in order, what the machine answers
/// to the inputs of the delivered lines; and each run begins with the locks after all inputs before it.
pub fn runs_are_a_life()
    ensures { RunsAreALife }
{}

/// So over the whole life the tokens that clients get rise, and while no input ends a hold nobody gets another grant of that lock.
/// Each grant and each release that was delivered is in the history that is recovered of what was kept.
pub fn lives_are_lawful()
    ensures grants { ToldGrantsAreGrants }
    ensures rise { ToldTokensRise }
    ensures exclude { ToldHoldsExclude }
    ensures kept { ToldGrantsAreKept }
{}

/// A run of a replica of locks, whatever is kept of its segment's file, is a run of the locks inside: they were given the lines
/// that are new, the file without its remarks is their journal, and what they say is what the replica says of these lines.
/// And where the state is answered to lines that ask for it, all other lines are answered by the replica, with the same notes.
pub fn replica_runs_are_stages()
    ensures runs { ReplicaRunsAreStages }
    ensures others { OtherLinesAreReplied }
{}

/// Lines that a program of locks delivers in parts, whatever segments end between them, and lines after them that were answered,
/// are such runs in stages, segment by segment: begun with the locks of the first part, they say one after the other what was said,
/// and the last one's journal is what is kept of the last segment's file. And a run that begins with the locks that are found there
/// follows it. If the run ended when the file of the next segment had been put there, that is a stage without lines. And what is left
/// of the last segment starts the next run there.
pub fn parts_are_stages()
    ensures parts { PartsAreStages }
    ensures runs { RunsFollow }
    ensures put { PutSegmentsAreStages }
    ensures go_on { RunsGoOn }
{}

/// So runs over one folder, each ended at any moment, and each next one started from what was left of the one before it,
/// are one list of inputs of the machine of locks, with a restart between two runs: what each run said is what the machine
/// answers to its part of the list, and each run begins with the locks after all inputs before it, with new ones after
/// them, when its holds were handed over.
pub fn runs_are_one_life()
    ensures { RunsAreOneLife }
{}

/// The locks that start from a folder's last segment are those that are found in its journal, with new ones after them,
/// when holds were handed over: the head of the file is read as it was written, whatever is kept after it; a torn end is
/// left out, and comes after each right journal that is kept. So a run of the program that begins with what another one
/// left follows it in a life; and locks that are found begin a segment again. So do all locks that start, new ones and
/// handed holds among them.
pub fn started_locks_are_found()
    ensures found { StartedLocksAreFound }
    ensures kept { KeptSegmentsStart }
    ensures begun { FoundLocksBegin }
    ensures starts { StartedLocksBegin }
{}
