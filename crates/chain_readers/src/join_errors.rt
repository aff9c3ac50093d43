//! Why a file is not joined to those before it.

ghost use Rattle.std.specs.Prelude.{◌≡◌};
ghost use Rattle.chain_readers.specs.declared.join_errors.JoinError.TheVariants.{OutOfMemory};

use segment_files::SegmentError;
use std::alloc::AllocError;
use thiserror::Error;

/// Why a file is not joined to those before it.
#[derive(Clone, Copy, Debug, PartialEq, Eq, Error)]
pub enum JoinError {
    /// It does not follow in their chain.
    #[error("{0}")]
    Segment(SegmentError),
    /// With it the ring at this place has more events than one history may have.
    #[error("ring {0}: the history is full")]
    Full(u64),
    #[error("out of memory")]
    OutOfMemory,
}

impl From<AllocError> for JoinError {
    ghost from_gives = { λ _ e. e ≡ OutOfMemory };

    fn from(_error: AllocError) -> JoinError {
        JoinError::OutOfMemory
    }
}
