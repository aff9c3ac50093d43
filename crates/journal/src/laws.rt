//! Laws of the definitions that `recover_journal` is specified by: functions with an empty body, whose contract is the law.

ghost use Rattle.journal.specs.Prefixes.{PrefixesAreRecovered, OneIsRecovered, RecoveredCanBeSaved};

/// A right journal that was cut anywhere is recovered: every right answer to a prefix of its text is its own history
/// with every call whose line ends there, or that it ends before the first call, or out of memory.
pub fn prefixes_are_recovered()
    ensures { PrefixesAreRecovered }
{}

/// A recovered history can be saved: [`write_saved`](saved_history::write_saved) takes it, since it has a ring at least, a version
/// that there is, and no member of a group in the first one.
pub fn recovered_can_be_saved()
    ensures { RecoveredCanBeSaved }
{}

/// Of some bytes one history is recovered, and no other.
pub fn one_is_recovered()
    ensures { OneIsRecovered }
{}
