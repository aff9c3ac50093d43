//! What is written when a block has been read.

/// The answers to lines, and the journal's part of them, until both leave.
#[derive(Drop)]
pub struct Pending {
    pub answers: Vec<u8>,
    pub notes: Vec<u8>,
}
