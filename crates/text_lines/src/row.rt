//! A line of numbers.

ghost use Rattle.std.specs.Prelude.{◌≡◌, ◌<◌, ◌^◌, vec_len, IfOk};
ghost use Rattle.std.specs.List.{AllByRecursion};
ghost use Rattle.text_lines.specs.Reading.{Gives, row_at, stop_of};
ghost use Rattle.text_lines.specs.Spelling.{row};
ghost use Rattle.text_lines.specs.Writing.{Writes};

use crate::bounded_numbers::number32;
use crate::fault::Stop;
use crate::numbers::put_numbers;
use crate::write::WriteFault;
use std::alloc::Global;
use std::io::Write;

/// The byte that ends a number with n after it on the line.
pub(crate) fn stop_byte(left: usize) -> u8
    ensures { result ≡ stop_of left }
{
    match left {
        0 => b'\n',
        _ => b' ',
    }
}

/// Reads `n` numbers below 2 to the power 32, one space between two of them and an LF after the
/// last; returns them with the bytes after that LF. For `n` of 0 it reads nothing.
///
/// Room is asked for as the numbers are read, never for `n` of them at once.
///
/// # Errors
///
/// As [`number32`] for each number, and `Memory` where there was no room.
pub fn row32(alloc: Global, n: u32, bytes: &[u8]) -> Result<(Vec<u32>, &[u8]), Stop>
    ensures gives { Gives (λ x. (x.0.items, x.1.now)) result (row_at (2 ^ 32) n bytes.now) }
    ensures len { IfOk result (λ x. vec_len x.0 ≡ n) }
{
    let mut found = Vec::new(alloc);
    let mut rest = bytes;
    for i in 0..n {
        let stop = stop_byte((n - i - 1) as usize);
        let (value, after) = number32(rest, stop)?;
        found.push(value)?;
        rest = after;
    }
    Ok((found, rest))
}

/// Writes the numbers, one space between two of them and an LF after the last; nothing where there
/// is none. It takes no memory. The second clause says what the type of the numbers keeps.
///
/// # Errors
///
/// As [`put_all`](crate::put_all).
pub fn put_row<W: Write>(out: &mut W, values: &[u32]) -> Result<(), WriteFault>
    ensures text { Writes (W.contents out.old) (W.contents out.new) result (row values.now) }
    ensures small { IfOk result (λ _. AllByRecursion (λ x. x < 2 ^ 32) values.now) }
{
    put_numbers(out, values.len(), b" ", b"\n", |i| values[i] as u64)
}
