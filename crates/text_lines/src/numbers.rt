//! Numbers, one after the other: the one loop of rows and lists.

ghost use Rattle.std.specs.Prelude.{◌≡◌, ◌<◌, ℕ, List, IfOk};
ghost use Rattle.text_lines.specs.Spelling.{numbers_text, stop_text};
ghost use Rattle.text_lines.specs.Writing.{AreAnswers, Writes};

use crate::write::{WriteFault, put_all};
use itoa::Buffer;
use std::io::Write;

/// The bytes after a number with this many after it.
fn stop(left: usize, between: &'static [u8], behind: &'static [u8]) -> &'static [u8]
    ensures { result.now ≡ stop_text between.now behind.now left }
{
    match left {
        0 => behind,
        _ => between,
    }
}

/// Writes `count` numbers, the one at place `i`, from 0, as `number` answers it, with `between` between two of them
/// and `behind` after the last. Where there is none it writes nothing. Where all is written each number was asked for.
/// It takes no memory.
///
/// # Errors
///
/// As [`put_all`](crate::put_all).
pub fn put_numbers<W: Write, F: Fn(usize) -> u64>(
    out: &mut W,
    count: usize,
    between: &'static [u8],
    behind: &'static [u8],
    number: F,
) -> Result<(), WriteFault>
    requires { (i : ℕ) → i < count → F.pre number i }
    ensures text { (numbers : List ℕ) → AreAnswers (F.post number) count numbers
        → Writes (W.contents out.old) (W.contents out.new) result
        (numbers_text between.now behind.now numbers) }
    ensures asked { IfOk result (λ _. (i : ℕ) → i < count → (answer : ℕ) × F.post number i answer) }
{
    for i in 0..count {
        let mut buffer = Buffer::new();
        let digits = buffer.format(number(i)).as_bytes();
        match put_all(out, &[digits, stop(count - i - 1, between, behind)]) {
            Ok(()) => {}
            Err(fault) => return Err(fault),
        }
    }
    Ok(())
}
