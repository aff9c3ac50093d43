//! What clients ask.

/// What a client asks, by the name of a lock and by its numbers. The bytes of the name are those of the line.
#[derive(Clone, Copy)]
pub enum Ask<'l> {
    /// To hold a lock, with a label that the client chooses, or else to wait for it.
    Acquire {
        name: &'l [u8],
        label: u64,
    },
    /// To hold a lock, and not to wait for it.
    Try {
        name: &'l [u8],
        label: u64,
    },
    /// To hold a lock no more, of which this is the token.
    Release {
        name: &'l [u8],
        token: u64,
    },
    /// To wait for a lock no more.
    Cancel {
        name: &'l [u8],
    },
    /// To hold and to wait for none.
    Leave,
    /// A fault: a value is written into a machine of a lock's ring.
    Corrupt {
        name: &'l [u8],
        machine: u64,
        value: u64,
    },
    /// What there is to say of a lock.
    Stats {
        name: &'l [u8],
    },
}

/// Why a line that a connection sent asks nothing.
#[derive(Clone, Copy, Debug, PartialEq, Eq)]
pub enum Fault {
    /// It is spelled as no ask is, or has more than 8 KiB.
    Syntax,
    /// A number of it is 2 to the power 64 or more.
    Number,
}

/// What is read of a line.
#[derive(Clone, Copy)]
pub enum Input<'l> {
    /// A client asks this; its number is that of its connection.
    Asked { client: u64, ask: Ask<'l> },
    /// The line is this client's, and asks nothing.
    Refused { client: u64, why: Fault },
    /// The line does not begin with the number of a connection, so there is nobody to answer.
    Nobody,
}
