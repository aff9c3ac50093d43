//! The laws of a ring's files. Each is the contract of a function that does nothing; the statements are in
//! `specs/FileLaws.antt`.

ghost use Rattle.endless_ring.specs.FileLaws.{FilesAreWhole, FilesFollow};

/// The texts with which segments are sealed are whole files, and each follows the one before.
pub fn files_are_chained()
    ensures whole { FilesAreWhole }
    ensures follow { FilesFollow }
{}
