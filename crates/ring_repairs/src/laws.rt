//! The laws of trials. Each is the contract of a function that does nothing; the statements are in `specs/TrialLaws.antt`.

ghost use Rattle.ring_repairs.specs.TrialLaws.{TrialsStart, TrialsSettle, TrialsSettleFirst, TrialsAreGranted, TrialsAreBounded, TurnsAreAsked, OneRoundIsEnough, RoundsAreBounded, AllStatesOnce};

/// Each trial starts with a ring of its study's size, and its choices settle it: no fewer of them do.
pub fn trials_settle()
    ensures start { TrialsStart }
    ensures settle { TrialsSettle }
    ensures first { TrialsSettleFirst }
{}

/// Each choice of a trial is granted, so that its number is that of the choices; it is no more than the longest repair has, nor
/// than the bound.
pub fn trials_are_bounded()
    ensures granted { TrialsAreGranted }
    ensures bounded { TrialsAreBounded }
{}

/// The daemon `Turn` asks the machines in turn: its choices are those that are granted, and fewer turns do not settle the ring. That
/// takes one round, or none where the ring is settled at the start; no trial has more rounds than settle every ring.
pub fn rounds_are_bounded()
    ensures asked { TurnsAreAsked }
    ensures one { OneRoundIsEnough }
    ensures bounded { RoundsAreBounded }
{}

/// Each state in which machine 0 holds 0 has just one number below how many states there are: so a start that goes through all
/// states tries each of them as often.
pub fn all_states_once()
    ensures { AllStatesOnce }
{}
