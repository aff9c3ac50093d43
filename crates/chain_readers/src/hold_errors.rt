//! Why a history gives no holds.

ghost use Rattle.std.specs.Prelude.{◌≡◌};
ghost use Rattle.chain_readers.specs.declared.hold_errors.HoldError.TheVariants.{OutOfMemory};
ghost use Rattle.chain_readers.specs.declared.hold_errors.ChainHoldError.TheVariants as chain;

use segment_files::SegmentError;
use std::alloc::AllocError;

/// Why the history of a ring gives no holds.
#[derive(Clone, Copy, Debug, PartialEq, Eq)]
pub enum HoldError {
    /// What comes after this many events fits no hold: a grant while a lock is held, an end while it is not, a token that is
    /// not greater than the one before, or another call by seat 0 or 3.
    NoHold(u64),
    /// Out of memory.
    OutOfMemory,
}

impl From<AllocError> for HoldError {
    ghost from_gives = { λ _ e. e ≡ OutOfMemory };

    fn from(_error: AllocError) -> HoldError {
        HoldError::OutOfMemory
    }
}

/// Why a chain of files gives no holds, or a saved history.
#[derive(Clone, Copy, Debug, PartialEq, Eq)]
pub enum ChainHoldError {
    /// A file does not follow in the chain.
    Segment(SegmentError),
    /// What comes after this many events in the history of the lock of this number fits no hold, as [`HoldError::NoHold`] says.
    NoHold { lock: u64, at: u64 },
    /// Out of memory.
    OutOfMemory,
}

impl From<AllocError> for ChainHoldError {
    ghost from_gives = { λ _ e. e ≡ chain.OutOfMemory };

    fn from(_error: AllocError) -> ChainHoldError {
        ChainHoldError::OutOfMemory
    }
}
