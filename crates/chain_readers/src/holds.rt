//! A hold of a lock, as its history records it.

/// The grant with which a hold begins.
#[derive(Clone, Copy, Debug, PartialEq, Eq)]
pub struct Grant {
    /// The number that the client gave with its ask.
    pub label: u64,
    /// How many events come before the grant's, over all segments.
    pub from: u64,
}

/// The end of a hold.
#[derive(Clone, Copy, Debug, PartialEq, Eq)]
pub struct End {
    /// How many events come before it, over all segments; the grant's is one of them.
    pub to: u64,
    /// Whether the client left; else it released the lock.
    pub left: bool,
}

/// A hold of a lock.
#[derive(Clone, Copy, Debug, PartialEq, Eq)]
pub struct Hold {
    /// The number of its grant among those of the ring, over all segments.
    pub token: u64,
    /// Its grant; none if that is in a segment that is gone.
    pub grant: Option<Grant>,
    /// Its end; none if it is open.
    pub end: Option<End>,
}
