//! Why a line is refused.

/// Why a line is wrong.
#[derive(Clone, Copy, Debug, PartialEq, Eq)]
pub enum Wrong {
    /// There is no such ring.
    NoRing,
    /// A file begins with another line than the number of all grants.
    NoTop,
    /// The number of all grants is another one.
    WrongTop,
    /// The number of all grants comes in the middle of a file.
    SecondTop,
    /// A file begins without the binding of a ring that is held; this line replaces it.
    NotRestated,
    /// A file begins with another binding of a ring than the one with which the file before ended.
    OtherBinding,
    /// A name is bound to the ring of a fixed lock.
    FixedRing,
    /// A name is bound to a ring that is held.
    HeldRing,
    /// The name is that of a fixed lock.
    FixedName,
    /// The name is bound to another ring.
    BoundTwice,
    /// The ring had another number of grants.
    WrongBefore,
    /// All rings had another number of grants.
    WrongFloor,
    /// A name was bound; this is not the grant of its ring.
    NoGrant,
    /// The lock of the ring is granted, which is held.
    GrantedTwice,
    /// The lock of a ring is granted to which no name is bound.
    NoName,
    /// A hold ends, and there is none.
    NotHeld,
    /// A ring loses its name, and it is not the end of its hold.
    NotEnded,
    /// A hold ended; this is neither the next grant of its ring, nor that the ring has no name any more.
    NotFreed,
    /// The file has fewer rings than the one before.
    FewerRings,
    /// No more grants can be counted.
    Full,
}

/// Why a line is refused.
#[derive(Clone, Copy, Debug, PartialEq, Eq)]
pub enum Refused {
    /// It is wrong.
    Wrong(Wrong),
    /// There is no memory for it.
    Memory,
}
