//! What is true of remarks about names.

ghost use Rattle.name_remarks.specs.Remarks.{RemarksAreLines};
ghost use Rattle.name_remarks.specs.Views.{OneReading, ReadBack, OneTextEach};
ghost use Rattle.name_remarks.specs.Bindings.{LastBindings, BeginningsRecordAll, TakenInOneWay, LastIsTakenLast};

/// A line is read in one way.
#[tactic(auto, using(crate::proofs::Spelled::one_reading))]
pub fn one_reading()
    ensures { OneReading }
{}

/// What was written is read back.
#[tactic(auto, using(crate::proofs::Spelled::read_back))]
pub fn read_back()
    ensures { ReadBack }
{}

/// No two remarks have one text.
#[tactic(auto, using(crate::proofs::Spelled::one_text_each))]
pub fn one_text_each()
    ensures { OneTextEach }
{}

/// The text of each remark is one line.
#[tactic(auto, using(crate::proofs::Ends::remarks_are_lines))]
pub fn remarks_are_lines()
    ensures { RemarksAreLines }
{}

/// A ring is bound just as the last remark about it says.
#[tactic(auto, using(crate::proofs::Taken::last_bindings))]
pub fn last_bindings()
    ensures { LastBindings }
{}

/// The lines with which a segment begins record just what it begins with.
#[tactic(auto, using(crate::proofs::Taken::beginnings_record_all))]
pub fn beginnings_record_all()
    ensures { BeginningsRecordAll }
{}

/// Lines are taken in in one way.
#[tactic(auto, using(crate::proofs::Taken::taken_in_one_way))]
pub fn taken_in_one_way()
    ensures { TakenInOneWay }
{}

/// Without the line of a last remark, there is what was recorded before it.
#[tactic(auto, using(crate::proofs::Taken::last_is_taken_last))]
pub fn last_is_taken_last()
    ensures { LastIsTakenLast }
{}
