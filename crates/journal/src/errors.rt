//! Why nothing is recovered.

use ring_check::Kind;
use thiserror::Error;

/// Why nothing is recovered of some bytes.
#[derive(Clone, Copy, Debug, Error)]
pub enum RecoverError {
    /// The bytes end within a journal's start, so they record no call.
    #[error("truncated")]
    Truncated,
    /// No journal has this line, from 1, there.
    #[error("line {0}: syntax")]
    Syntax(u64),
    /// This line, from 1, is wrong in a journal with the lines before it.
    #[error("line {line}: {kind}")]
    Bad { line: u64, kind: Kind },
    #[error("out of memory")]
    OutOfMemory,
}
