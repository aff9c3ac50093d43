//! Which file of a chain a segment is.

ghost use Rattle.std.specs.Prelude.{◌≡◌, ◌<◌, ◌+◌, ◌^◌, ◌-◌, IfSome, None};
ghost use Rattle.segment_files.specs.Spelling.{DigestFits, digest_of};
ghost use Rattle.endless_ring.specs.Files.{first_place};

use segment_files::{DIGEST_DIGITS, digest};
use std::marker::Model;

/// Which file of a chain a segment is: its number, from 1, and the digest of the file before it. Contracts see the two.
#[derive(Drop)]
pub struct FilePlace {
    number: u64,
    behind: [u8; DIGEST_DIGITS],
}

impl Model for FilePlace {
    ghost use Rattle.endless_ring.specs.Files.{PlaceView, IsPlace};

    ghost Value = { PlaceView };

    ghost view = { λ p. record { number = p.number; behind = p.behind } };

    ghost invariant = { λ p. IsPlace (record { number = p.number; behind = p.behind }) };
}

impl FilePlace {
    /// The first file of a chain, with no file before it.
    pub fn first() -> FilePlace
        ensures { result ≡ first_place }
    {
        FilePlace {
            number: 1,
            behind: [b'0'; DIGEST_DIGITS],
        }
    }

    /// The file of this number, after one of this digest.
    pub fn of(number: u64, behind: [u8; DIGEST_DIGITS]) -> FilePlace
        requires number { 0 < number }
        requires digits { DigestFits behind }
        ensures { result ≡ record { number = number; behind = behind } }
    {
        FilePlace { number, behind }
    }

    /// The place of the next file, where this one has these bytes; none if its number would not have 64 bits.
    pub fn next(&self, bytes: &[u8]) -> Option<FilePlace>
        ensures some { IfSome result (λ p. p
            ≡ record { number = self.now.number + 1; behind = digest_of bytes.now }) }
        ensures none { result ≡ None → self.now.number ≡ 2 ^ 64 - 1 }
    {
        if self.number == u64::MAX {
            return None;
        }
        Some(FilePlace {
            number: self.number + 1,
            behind: digest(bytes),
        })
    }

    /// The number.
    pub fn number(&self) -> u64
        ensures is { result ≡ self.now.number }
        ensures positive { 0 < result }
    {
        self.number
    }

    /// The digest of the file before.
    pub fn behind(&self) -> [u8; DIGEST_DIGITS]
        ensures is { result ≡ self.now.behind }
        ensures fits { DigestFits result }
    {
        self.behind
    }
}
