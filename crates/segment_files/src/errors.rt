//! Why a file does not follow in a chain.

ghost use Rattle.segment_files.specs.declared.errors.SegmentError.TheVariants.{OutOfMemory};
ghost use Rattle.std.specs.Prelude.{◌≡◌};

use ring_check::Kind;
use std::alloc::AllocError;
use thiserror::Error;

/// Why a file does not follow in a chain. If there are two reasons, the one that comes first here is answered.
#[derive(Clone, Copy, Debug, PartialEq, Eq, Error)]
pub enum SegmentError {
    /// The bytes end within a head, or within the start of the journal after it.
    #[error("truncated")]
    Truncated,
    /// No file has this line, from 1, there.
    #[error("line {0}: syntax")]
    Syntax(u64),
    /// This line, from 1, is wrong in a file with the lines before it.
    #[error("line {line}: {kind}")]
    Bad { line: u64, kind: Kind },
    /// The number is not the next one.
    #[error("number")]
    Number,
    /// The digest is not that of the file before.
    #[error("behind")]
    Behind,
    /// There is not a base for each ring, or one is not what came before.
    #[error("base")]
    Base,
    /// A ring does not begin as the one before left it.
    #[error("start")]
    Start,
    /// A ring has more events in the file than a segment may have.
    #[error("full")]
    Full,
    /// A file after which others come has a line that is not whole, or a group that is not.
    #[error("unfinished")]
    Unfinished,
    #[error("out of memory")]
    OutOfMemory,
}

impl From<AllocError> for SegmentError {
    ghost from_gives = { λ _ e. e ≡ OutOfMemory };

    fn from(_error: AllocError) -> SegmentError {
        SegmentError::OutOfMemory
    }
}
