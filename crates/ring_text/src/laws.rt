//! Laws of a farm's saved text: functions with an empty body, whose contract is the law.

ghost use Rattle.ring_text.specs.Written.{WrittenIsLegal, WrittenIsRight, OutcomeIsLegal, OutcomeIsRight};

/// The saved text of an outcome is legal, where each ring's history is legal from its start over the till with the amount 0 and whole,
/// n and K are within their limits, each event's seat is that of a log, and its logs, at most `SEAT_LIMIT`, are in the order of
/// the seats' numbers and fit the history. It needs neither a limit of the rings nor one of the events. The second clause says
/// the same in the subject's words.
pub fn written_is_legal()
    ensures legal { WrittenIsLegal }
    ensures right { WrittenIsRight }
{}

/// Where an outcome has what `run_farm` promises, its saved text is legal. The premise is the record that that call's
/// clause names. The second clause says the same in the subject's words.
pub fn outcome_is_legal()
    ensures legal { OutcomeIsLegal }
    ensures right { OutcomeIsRight }
{}
