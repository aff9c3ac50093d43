//! What is true of notes.

ghost use Rattle.noted_lines.specs.Notes.{NotesAreLines, OneNote, OneDone};

/// The note of a line is a line.
#[tactic(auto, using(crate::proofs::NotedEnds::notes_are_lines))]
pub fn notes_are_lines()
    ensures { NotesAreLines }
{}

/// A text is the note of one line, with one count.
pub fn one_note()
    ensures { OneNote }
{}

/// A beginning is of one version, with one count.
#[tactic(auto, using(crate::proofs::NotedReads::one_done))]
pub fn one_done()
    ensures { OneDone }
{}
