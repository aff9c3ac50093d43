//! The laws of locks with a journal: what is recovered of it. Each law is the contract of a function that does nothing; the
//! statements are in `specs/Begun.antt` and `specs/Recovered.antt`. And the laws of the lines that bring the keys of a replica back:
//! their statements are in `specs/KeysBack.antt`.

ghost use Rattle.lock_journal.specs.Begun.{AnsweredLinesFollow};
ghost use Rattle.lock_journal.specs.KeysBack.{FreshIsSound, OwnLinesAreLines, SoundStays, KeysComeBack, PlacesAreLast};
ghost use Rattle.lock_journal.specs.Recovered.{LocksComeBack, NothingToldIsLost, AddedLocksBegin, NextLocksBegin, HandedLocksBegin};

use line_service::AnswersLines;

/// Lines that are answered in parts, one after the other, are answered as a whole.
pub fn answered_lines_follow()
    ensures { AnsweredLinesFollow }
{}

/// Of a journal that has the beginning of a segment and the notes of the lines that were delivered, and perhaps a torn line after
/// them, one history is recovered. The locks that are made of it are those after the last of these lines, restarted: nobody waits
/// for them, and a hold that is open is client 0's, with its token.
pub fn locks_come_back()
    ensures { LocksComeBack }
{}

/// Of whatever is kept of a journal, if it has the beginning of a segment and the notes of the lines that were delivered, rings are
/// recovered. They have continued from those that the journal records after the last of these lines, where each grant and each
/// release that was delivered is at its place. A hold whose grant was delivered is open in them as long as the journal has no end
/// of it.
pub fn nothing_told_is_lost()
    ensures { NothingToldIsLost }
{}

/// Locks that were added one after the other show their holds, so they can begin a segment: a fresh ring shows none, and one that
/// was recovered shows the hold that continues as client 0's. So do locks that continue in their next segments, and locks whose
/// open holds are handed over.
pub fn locks_begin_segments()
    ensures added { AddedLocksBegin }
    ensures next { NextLocksBegin }
    ensures handed { HandedLocksBegin }
{}

/// A replica with no key, before the first place, that is given the lines of another one's keys and last place has the same keys,
/// and the digest at that place; it answers nothing, and the service inside gets none of these lines. So it is with each replica
/// that began with no key: what it keeps can be written as lines, as long as answers begin with lines that are not empty and not
/// too long.
pub fn keys_come_back<S: AnswersLines>()
    ensures fresh { FreshIsSound S.is_answered }
    ensures sound { SoundStays S.is_answered }
    ensures lines { OwnLinesAreLines S.is_answered }
    ensures back { KeysComeBack S.is_answered }
    ensures last { PlacesAreLast S.is_answered }
{}
