//! Why lines are not served any more.

/// Why the lines are not served to their end.
#[derive(Clone, Copy, Debug, PartialEq, Eq)]
pub enum LoopFault {
    /// A read failed.
    Read,
    /// The journal could not be written.
    Journal,
    /// The output could not be written.
    Write,
    OutOfMemory,
    /// 2 to the power 64 less 1 blocks were read, and no more are counted.
    TooLong,
}

/// Why a part of the lines ended.
#[derive(Clone, Copy, Debug, PartialEq, Eq)]
pub enum Ending {
    /// The input has ended.
    End,
    /// No line is answered any more until something else is done.
    Over,
    /// The next block has been read, and no more was asked for.
    Block,
}
