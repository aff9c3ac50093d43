//! The laws of replicas, whatever answers lines inside: the contracts of functions that do nothing.

ghost use Rattle.line_replica.specs.Laws.{HasTheHistoryWithoutThem, IsLostAtTheEnd, IsToldAgain, IsAnsweredAsBefore, IsDeterminedSo};

use line_service::AnswersLines;

/// A log with lines that were sent again has the history of the log without them, as long as memory suffices; and where it does
/// not, the line is not answered, and neither is any later one.
pub fn each_number_is_done_once<S: AnswersLines>()
    ensures history { HasTheHistoryWithoutThem S.is_answered }
    ensures lost { IsLostAtTheEnd S.is_answered }
{}

/// What is sent again gets the first line of its first answer, if that is for the client that asked, and changes nothing.
pub fn answers_are_told_again<S: AnswersLines>()
    ensures again { IsToldAgain S.is_answered }
    ensures behind { IsAnsweredAsBefore S.is_answered }
{}

/// If equal lines in equal states are answered alike inside, so are those of a replica.
pub fn replicas_agree<S: AnswersLines>()
    ensures { IsDeterminedSo S.is_answered }
{}
