//! A law of locks in segments: the contract of a function that does nothing.

ghost use Rattle.lock_journal.specs.Due.{NoAskIsRefusedFull};

/// While no lock is short, no ask is refused since a segment is full.
pub fn no_ask_is_refused_full()
    ensures { NoAskIsRefusedFull }
{}
