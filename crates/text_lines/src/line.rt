//! A line that is made in its own room, from its end to its start, and so with no copy of a number.

ghost use Rattle.std.specs.Prelude.{◌≡◌, ◌+◌, ◌<◌, ◌≤◌, [], ◌∷◌, ◌++◌, length};
ghost use Rattle.std.specs.Fmt.{decimal};

use itoa::write_digits;
use std::marker::Model;

/// The most bytes of a line: enough for six numbers of 20 digits at most, with a byte after each and two in front.
const ROOM: usize = 128;

/// The end of a line, as far as it is made: its bytes.
#[derive(Drop)]
pub struct Line {
    bytes: [u8; ROOM],
    start: usize,
}

impl Model for Line {
    ghost use Rattle.std.specs.Prelude.{ℕ, List, ◌≤◌, drop};

    ghost Value = { List ℕ };

    ghost view = { λ s. drop s.start s.bytes };

    ghost invariant = { λ s. s.start ≤ 128 };
}

impl Line {
    /// No byte.
    #[inline(always)]
    pub fn new() -> Line
        ensures { result ≡ [] }
    {
        Line {
            bytes: [0; ROOM],
            start: ROOM,
        }
    }

    /// Puts the byte in front.
    #[inline(always)]
    pub fn byte(&mut self, byte: u8)
        requires { length self.old < 128 }
        ensures { self.new ≡ byte ∷ self.old }
    {
        self.start -= 1;
        self.bytes[self.start] = byte;
    }

    /// Puts the word in front.
    #[inline(always)]
    pub(crate) fn word(&mut self, word: &[u8])
        requires { length self.old + length word.now ≤ 128 }
        ensures { self.new ≡ word.now ++ self.old }
    {
        let end = self.start;
        self.start = end - word.len();
        self.bytes[self.start..end].copy_from_slice(word);
    }

    /// Puts the number's decimal in front: at most 20 digits.
    #[inline(always)]
    pub fn number(&mut self, number: u64)
        requires { length self.old ≤ 108 }
        ensures is { self.new ≡ decimal number ++ self.old }
        ensures short { length self.new ≤ length self.old + 20 }
    {
        self.start = write_digits(number, &mut self.bytes, self.start);
    }

    /// The bytes that are made so far.
    #[inline(always)]
    pub fn as_bytes(&self) -> &[u8]
        ensures { result.now ≡ self.now }
    {
        &self.bytes[self.start..]
    }
}
