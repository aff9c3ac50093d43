//! On which terms locks answer lines.

ghost use Rattle.std.specs.Prelude.{◌≡◌};
ghost use Rattle.lock_journal.specs.Stages.{limit_of};

/// On which terms lines are answered.
#[derive(Clone, Copy)]
pub struct Terms {
    /// Whether a line may be a fault.
    pub faults: bool,
    /// Whether there are notes for a journal.
    pub noting: bool,
    /// A segment is due once its journal has this number of lines, or before a lock's ring has no room for an ask. Without a limit
    /// none is.
    pub limit: Option<u64>,
    /// Whether nobody is refused for lack of memory or room, and no line is answered in a segment that is to end. Such a line
    /// is out of memory, and nothing has changed.
    pub strict: bool,
}

/// How many lines the journal of a segment may have; 0 without a limit.
pub fn limit_of(limit: Option<u64>) -> u64
    ensures { result ≡ limit_of limit }
{
    match limit {
        Some(limit) => limit,
        None => 0,
    }
}
