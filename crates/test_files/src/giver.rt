//! A reader that gives little at a time, or fails.

use std::io::{self, ErrorKind, Read};

/// A reader that gives at most `at_most` bytes a call, and then no more, or the error if it has one.
#[derive(Drop)]
pub struct Giver<'a> {
    pub text: &'a [u8],
    pub given: usize,
    pub at_most: usize,
    pub error: Option<ErrorKind>,
    /// How often it answered the error.
    pub errors: usize,
}

impl<'a> Giver<'a> {
    /// A reader that gives this text.
    pub fn new(text: &'a [u8]) -> Giver<'a> {
        Giver {
            text,
            given: 0,
            at_most: usize::MAX,
            error: None,
            errors: 0,
        }
    }
}

impl Read for Giver<'_> {
    fn read(&mut self, buf: &mut [u8]) -> io::Result<usize> {
        let rest = self.text.get(self.given..).unwrap_or(&[]);
        let count = rest.len().min(self.at_most).min(buf.len());
        if let (Some(kind), 0) = (self.error, count) {
            self.errors = self.errors.saturating_add(1);
            return Err(io::Error::from(kind));
        }
        buf[..count].copy_from_slice(&rest[..count]);
        self.given = self.given.saturating_add(count);
        Ok(count)
    }
}
