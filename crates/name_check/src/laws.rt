//! What is true of the lines that the judge accepts. Each law is the contract of a function that does nothing; the statements
//! are in `specs/Laws.antt`.

ghost use Rattle.name_check.specs.Laws.{JudgedAreNamed, RemaindersAreNamed, SoundStays, SoundBegins, TrustEnds};

/// What is known is sound before the first file, and stays so after each line that is accepted; once a file that begins with holds
/// has restated their names, nothing rests on trust.
pub fn sound_stays()
    ensures begins { SoundBegins }
    ensures stays { SoundStays }
    ensures known { TrustEnds }
{}

/// Of lines that are accepted, the holds of each name are one after the other, and their tokens rise, over all bindings of the name
/// and over files.
pub fn judged_are_named()
    ensures { JudgedAreNamed }
{}

/// A file and those after it are judged alike without the files before them: the bindings that it restates are taken on trust.
pub fn remainders_are_named()
    ensures { RemaindersAreNamed }
{}
