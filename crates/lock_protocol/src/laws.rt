//! What is true of the lines.

ghost use Rattle.lock_protocol.specs.Inputs.{OneReading, OneLineEach};

/// A line is read in one way.
#[tactic(auto, using(crate::proofs::Whole::one_reading))]
pub fn one_reading()
    ensures { OneReading }
{}

/// No two inputs of numbers of 64 bits have one line.
#[tactic(auto, using(crate::proofs::Whole::one_line_each))]
pub fn one_line_each()
    ensures { OneLineEach }
{}
