//! What locks promise, over every list of inputs. Each law is the contract of a function that does nothing; the statements are
//! in `specs/Promises.antt`, of the machine in `specs/Locks.antt`.

ghost use Rattle.held_locks.specs.Handed.{HoldsAreHandedBack, HandedHoldsAreTheirs};
ghost use Rattle.held_locks.specs.Opened.{HoldsAreFound, RestartsAreRight};
ghost use Rattle.held_locks.specs.Worked.{WorkedAnswers, WorkedMarks};
ghost use Rattle.held_locks.specs.Promises.{EmptyQueuesAreRight, RightStays, Exclusion, OthersReleaseNothing, LeaversAreGone, TokensRise, TokensAreCounted, TokensAreForeseen, NobodyWaitsForNothing, FirstComeFirstServed, NoCircle, CirclesAreReal, OneEventEach, HistoryShowsHolds, RestartsRecover, SegmentsShowHolds, SegmentsRecover, CarriedChangesNothing, OneAnswerEach};

/// Locks of settled rings for which nobody waits are right, and locks that are right stay so, whatever is asked.
pub fn locks_stay_right()
    ensures empty { EmptyQueuesAreRight }
    ensures stay { RightStays }
{}

/// From a grant until an input ends the hold, no other client is granted: a release with the hold's token, or a leave, by its
/// client, which is client 0 after a restart. A release by another client does not end it: it is refused, and changes nothing.
pub fn exclusion()
    ensures excluded { Exclusion }
    ensures others { OthersReleaseNothing }
{}

/// The tokens of a lock rise with each grant, restarts or not. With no fault between, each is one more than the one before; and
/// a client that waits gets the passes so far, those before it and one more, less those before it that give up.
pub fn tokens_rise()
    ensures rise { TokensRise }
    ensures counted { TokensAreCounted }
    ensures foreseen { TokensAreForeseen }
{}

/// A client waits for a lock only while some client holds it.
pub fn nobody_waits_for_nothing()
    ensures { NobodyWaitsForNothing }
{}

/// While a client waits for a lock, only clients are granted that waited before it, in their order.
pub fn first_come_first_served()
    ensures { FirstComeFirstServed }
{}

/// From a client that waits to the holder of what it waits for, and so on, one comes to a client that waits for nothing. A client
/// that is refused because of a circle would wait for itself.
pub fn no_circle()
    ensures none { NoCircle }
    ensures real { CirclesAreReal }
{}

/// An input makes one event at most, and a fault with its repair as many as its ring has machines.
pub fn one_event_each()
    ensures { OneEventEach }
{}

/// The history of a lock is legal and leads to its ring; its grants and its surveys of ends alternate,
/// and the last of them says which client holds. So a restart makes of the history the lock that was, with an open hold as
/// client 0's.
pub fn history_shows_holds()
    ensures shows { HistoryShowsHolds }
    ensures restarts { RestartsRecover }
{}

/// The locks continue over the segments of their rings: a segment begins with the hold that is open, which changes nothing of
/// the lock. So its history by itself shows its holds, and a restart that knows only the last segment makes of it the lock that
/// was, with an open hold as client 0's.
pub fn segments_show_holds()
    ensures nothing { CarriedChangesNothing }
    ensures shows { SegmentsShowHolds }
    ensures restarts { SegmentsRecover }
{}

/// The hold that is found open in a ring that was recovered is that of its history; so the lock that is made of it is the lock
/// that was, restarted.
pub fn restarts_are_right()
    ensures found { HoldsAreFound }
    ensures right { RestartsAreRight }
{}

/// A hold that was open at a restart can be handed back to its holder: the lock is then the one that was, without its waiters.
pub fn holds_are_handed_back()
    ensures { HoldsAreHandedBack }
{}

/// A hold that was handed over is its client's as if it had been granted: only this client may release the lock, and only with the
/// hold's token; client 0, whose it was, may not. Until an input ends the hold, nobody is granted.
pub fn handed_holds_are_theirs()
    ensures { HandedHoldsAreTheirs }
{}

/// A client that leaves all locks, one after the other, holds none of them any more and waits for none.
pub fn leavers_are_gone()
    ensures { LeaversAreGone }
{}

/// Each input is answered once, but a leave not at all; after the answer one other client may be granted.
pub fn one_answer_each()
    ensures { OneAnswerEach }
{}

/// Of a dialogue worked by hand: its answers, and what the history of its lock gets.
pub fn worked_dialogue()
    ensures answers { WorkedAnswers }
    ensures marks { WorkedMarks }
{}
