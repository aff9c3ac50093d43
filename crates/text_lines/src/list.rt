//! Numbers with commas.

ghost use Rattle.std.specs.Prelude.{◌<◌, ℕ, List};
ghost use Rattle.text_lines.specs.Spelling.{list_text};
ghost use Rattle.text_lines.specs.Writing.{AreAnswers, Writes};

use crate::numbers::put_numbers;
use crate::write::WriteFault;
use std::io::Write;

/// Writes `count` numbers, the one at place `i`, from 0, as `number` answers it, with a comma between two of
/// them. It takes no memory.
///
/// # Errors
///
/// As [`put_all`](crate::put_all).
pub fn put_list<W: Write, F: Fn(u32) -> u64>(
    out: &mut W,
    count: u32,
    number: F,
) -> Result<(), WriteFault>
    requires { (i : ℕ) → i < count → F.pre number i }
    ensures { (numbers : List ℕ) → AreAnswers (F.post number) count numbers
        → Writes (W.contents out.old) (W.contents out.new) result (list_text numbers) }
{
    put_numbers(out, count as usize, b",", b"", |i| number(i as u32))
}
