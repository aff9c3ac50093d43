//! Wrong bodies of what replaces a file or lists a folder, of what writes a farm's texts, of what a
//! journal recovers, of which files are a chain, of which segments a folder has, of how rings
//! without an end are called, of how lines are answered and served, of where a journal is kept, of
//! the commands, and of locks: each calls a real function with something wrong, or spoils its
//! answer, and its contract says that the result does not meet the clause that the real one
//! promises.
#![tactic(auto)]

pub mod asks;
pub mod chains;
pub mod commands;
pub mod endless;
pub mod ends;
pub mod files;
pub mod folders;
pub mod fresh;
pub mod journals;
pub mod kept;
pub mod lines;
pub mod listings;
pub mod names;
pub mod replacing;
pub mod reported;
pub mod segments;
pub mod serving;
pub mod starts;
pub mod texts;
pub mod upgrades;
