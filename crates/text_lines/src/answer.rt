//! The result of reading a whole text.

ghost use Rattle.std.specs.Prelude.{◌≡◌, ◌≤◌, ◌+◌, ◌-◌, ◌<◌, List, ℕ, Bool, IsTrue, length, Result};
ghost use Rattle.text_lines.specs.Grammar.{Reads};
ghost use Rattle.text_lines.specs.Reading.{Gives, Reader, end_at, whole_at};
ghost use Rattle.text_lines.specs.Texts.{AnswersAreApart, IsRightAnswer, NoneBeginsAnother, Spells, answer_of, line_of, refusal_of};

use crate::fault::{Fault, Stop};

/// Why a whole text could not be read.
#[derive(Clone, Copy, Debug, PartialEq, Eq)]
pub enum ReadError {
    /// The first line, from 1, such that no text begins with the bytes up to its end.
    Syntax(u64),
    /// The bytes are a proper prefix of a text.
    Truncated,
    /// There was no room for the value.
    OutOfMemory,
}

/// Succeeds if nothing is left.
///
/// # Errors
///
/// `Bad` at the first byte, where there is one.
pub fn nothing_more(rest: &[u8]) -> Result<(), Stop>
    ensures { Gives (λ u. u) result (end_at rest.now) }
{
    match rest {
        [] => Ok(()),
        [_, ..] => Err(Stop::Fault(Fault::Bad(rest.len()))),
    }
}

/// The number, from 1, of the line of the byte at `place`, or of one that would be there.
pub fn line_at(bytes: &[u8], place: usize) -> u64
    requires { place ≤ length bytes.now }
    ensures { result ≡ line_of bytes.now place }
{
    bytes[..place].iter().filter(|b| **b == b'\n').count() as u64 + 1
}

/// The verdict on the whole bytes of a reader that stopped at these.
pub fn refusal(bytes: &[u8], stop: Stop) -> ReadError
    ensures { result ≡ refusal_of bytes.now stop }
{
    match stop {
        Stop::Memory => ReadError::OutOfMemory,
        Stop::Fault(Fault::Short) => ReadError::Truncated,
        Stop::Fault(Fault::Bad(left)) => {
            let place = bytes.len().saturating_sub(left);
            ReadError::Syntax(line_at(bytes, place))
        }
    }
}

/// A reader with the law of a spelling answers right, and no spelling is a proper prefix of another one.
pub fn readers_answer_right<T>()
    ensures right { (fits : T → Bool) (spell : T → List ℕ) (at : Reader T)
        → Reads (λ a. IsTrue (fits a)) spell at → (bytes : List ℕ) (read : Result T Stop)
        → Gives (λ x. x) read (whole_at at bytes)
        → IsRightAnswer (λ x. x) (λ a. IsTrue (fits a)) spell bytes (answer_of bytes read) }
    ensures apart { (fits : T → Bool) (spell : T → List ℕ) (at : Reader T)
        → Reads (λ a. IsTrue (fits a)) spell at
        → NoneBeginsAnother (Spells (λ a. IsTrue (fits a)) spell) }
{}

/// Where no text is a proper prefix of another one, at most one answer to some bytes is right.
pub fn answers_are_apart()
    ensures { (is_text : List ℕ → Bool) → NoneBeginsAnother (λ bytes. IsTrue (is_text bytes))
        → (bytes : List ℕ) → AnswersAreApart (λ bytes. IsTrue (is_text bytes)) bytes }
{}
