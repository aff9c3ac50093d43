//! The content of a file's head, as it is read.

use crate::digests::DIGEST_DIGITS;
use ring_model::Base;

/// What the head of a file says.
#[derive(Drop)]
pub struct SegmentHead {
    /// The number of the file, from 1.
    pub number: u64,
    /// The digest of the whole file before, in digits.
    pub behind: [u8; DIGEST_DIGITS],
    /// What came before the file, for each ring.
    pub bases: Vec<Base>,
}
