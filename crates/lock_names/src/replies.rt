//! What a client is answered that asks for a name.

use held_locks::{Answer, HoldEnd, Holder};

/// A reply about a name.
#[derive(Clone, Copy, Debug, PartialEq, Eq)]
pub enum Reply {
    /// What the lock of the name answers, with the name's tokens.
    Lock(Answer),
    /// As many names are held as may be.
    Names,
}

/// What an ask is answered.
#[derive(Clone, Copy, Debug, PartialEq, Eq)]
pub struct NameAnswers {
    /// The ring that was asked, if one was.
    pub ring: Option<u32>,
    /// Whether this ask has bound the name to the ring.
    pub fresh: bool,
    /// Whether this ask has ended the last hold of the name, so that its ring is free.
    pub freed: bool,
    /// The reply to the client that asks.
    pub own: Option<Reply>,
    /// The hold that ended, for its record.
    pub ended: Option<HoldEnd>,
    /// The other client that is granted the name next, with its token.
    pub granted: Option<Holder>,
}

/// What comes of an ask of a name: its answers, and how many events the segment of the ring had before that was asked, and has
/// after; 0, if none was.
#[derive(Clone, Copy)]
pub struct NameAsked {
    pub answers: NameAnswers,
    pub before: usize,
    pub after: usize,
}
