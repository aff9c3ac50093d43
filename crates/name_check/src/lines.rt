//! What a line says of names, and what is known of a ring.

/// What is known of a ring.
#[derive(Clone, Copy)]
pub struct Ring {
    /// How many grants it had, those of repairs too.
    pub grants: u64,
    /// The token of the hold of its lock, the number of its grant among those of the ring; none if no client holds it.
    pub held: Option<u64>,
}

/// What a line of a file says of names.
#[derive(Clone, Copy)]
pub enum Line<'a> {
    /// How many grants were made of all rings: `# floor TOP`.
    Top(u64),
    /// A name is bound to a ring, or is still bound to it: `# name RING BEFORE FLOOR NAME`.
    Bind {
        /// The ring.
        ring: u32,
        /// How many grants the ring had when the name was bound.
        before: u64,
        /// How many grants all rings had then.
        floor: u64,
        /// The name.
        name: &'a str,
    },
    /// The ring has no name any more: `# free RING`.
    Free(u32),
    /// A client is granted the ring's lock.
    Grant(u32),
    /// A pass that repairs the ring, which counts as a grant.
    Repair(u32),
    /// The hold of the ring's lock ends.
    End(u32),
    /// Anything else.
    Other,
}

/// What has to come next.
#[derive(Clone, Copy)]
pub(crate) enum Due {
    /// Nothing of its own.
    Nothing,
    /// A file begins: the number of all grants.
    Top,
    /// The binding of this ring, which is held.
    Restated(usize),
    /// The grant of this ring, to which a name was bound.
    Granted(usize),
    /// The hold of this ring ended: its next grant, or that it has no name any more.
    Handed(usize),
}
