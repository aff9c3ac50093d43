//! Laws of the bad lines of a text: functions with an empty body, whose contract is the law.

ghost use Rattle.bad_lines.specs.Laws.{NoneIsLegal, FirstIsFirst};

/// A text has no bad line exactly if it is legal.
#[tactic(auto, using(crate::proofs::Firsts::none_legal))]
pub fn none_is_legal()
    ensures { NoneIsLegal }
{}

/// The first bad line is the one that the checker answers, with the kind that it answers.
#[tactic(auto, using(crate::proofs::Firsts::first_first))]
pub fn first_is_first()
    ensures { FirstIsFirst }
{}
