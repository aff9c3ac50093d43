//! The law of the machine with names and of its judge: the contract of a function that does nothing; the statement is in
//! `specs/Written.antt`.

ghost use Rattle.name_laws.specs.Written.{LinesAreSaid, FilesAreSaid};

/// The lines of whatever is asked of the machine with names are accepted, with the state after them; and so is the beginning of a
/// file, wherever one begins.
pub fn lines_are_said()
    ensures asked { LinesAreSaid }
    ensures files { FilesAreSaid }
{}
