//! What a list of locks is, as a text. The law is the contract of a function that does nothing; the statement is in
//! `specs/Pools.antt`.

ghost use Rattle.folder_of_locks.specs.Pools.{WrittenListsAreRead};

/// The text of a list's file is read as that list.
#[tactic(auto, using(crate::proofs::Written::written_read))]
pub fn written_lists_are_read()
    ensures { WrittenListsAreRead }
{}
