//! What a text of holders is. The law is the contract of a function that does nothing; the statements are in
//! `specs/Holders.antt`.

ghost use Rattle.folder_of_locks.specs.Holders.{OneText, NoBadLine, OneBadLine};

/// Bytes are the lines of one list of holds at most, and have no bad line then; and they have one bad line at most.
pub fn texts_have_one_reading()
    ensures text { OneText }
    ensures none { NoBadLine }
    ensures one { OneBadLine }
{}
