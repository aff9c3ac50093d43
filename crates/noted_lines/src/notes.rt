//! Notes of lines: written, and read. Reading takes no memory.

ghost use Rattle.std.specs.Prelude.{◌≡◌, ◌≤◌, ◌++◌, List, ℕ, length, codes, OnOk, OnErr};
ghost use Rattle.text_lines.specs.Spelling.{spaced};
ghost use Rattle.text_lines.specs.Exact.{Returns};
ghost use Rattle.noted_lines.specs.Notes.{note_sum, note_text};
ghost use Rattle.noted_lines.specs.Readers.{small_at, counted_at, IsNoteAs};

use crate::sums::sum_of_both;
use std::alloc::AllocError;
use text_lines::{Fault, Line, fixed_word, number, put_word};

/// A line that was noted: how many were noted with it, and its bytes, with the LF.
#[derive(Clone, Copy)]
pub struct Note<'l> {
    pub count: u64,
    pub line: &'l [u8],
}

/// A number and a space.
#[inline(always)]
fn spaced(number: u64) -> Line
    ensures is { result ≡ spaced number }
    ensures short { length result ≤ 21 }
{
    let mut line = Line::new();
    line.byte(b' ');
    line.number(number);
    line
}

/// The note of a line, up to the line.
fn front(count: u64, line: &[u8]) -> Line
    ensures { result ≡ codes "# do " ++ (spaced count ++ spaced (note_sum count line.now)) }
{
    let count = spaced(count);
    let sum = sum_of_both(count.as_bytes(), line);
    let mut front = spaced(sum as u64);
    put_word(&mut front, count.as_bytes());
    put_word(&mut front, b"# do ");
    front
}

/// Adds both texts. If memory is short the text may have the first.
fn put_both(text: &mut Vec<u8>, front: &[u8], line: &[u8]) -> Result<(), AllocError>
    ensures ok { OnOk result (text.new.items ≡ text.old.items ++ (front.now ++ line.now)) }
    ensures err { OnErr result ((more : List ℕ) × (text.new.items ≡ text.old.items ++ more)) }
{
    text.extend_from_slice(front)?;
    text.extend_from_slice(line)
}

/// Adds the note of a line, which has its LF: `count` lines were noted with it.
///
/// # Errors
///
/// Only out of memory. The text is as it was then.
pub fn put_note(text: &mut Vec<u8>, count: u64, line: &[u8]) -> Result<(), AllocError>
    ensures ok { OnOk result (text.new.items ≡ text.old.items ++ note_text count line.now) }
    ensures err { OnErr result (text.new.items ≡ text.old.items) }
{
    let length = text.len();
    match put_both(text, front(count, line).as_bytes(), line) {
        Ok(()) => Ok(()),
        Err(error) => {
            text.truncate(length);
            Err(error)
        }
    }
}

/// A number of 64 bits, and the bytes after the byte that ends it.
#[tactic(auto, unfolding(crate::specs::Readers::small_at))]
pub(crate) fn small_number(bytes: &[u8], stop: u8) -> Result<(u64, &[u8]), Fault>
    ensures { Returns (λ x. (x.0, x.1.now)) result (small_at stop bytes.now) }
{
    let (number, rest) = number(bytes, stop)?;
    let Some(number) = number else {
        return Err(Fault::Bad(rest.len()));
    };
    Ok((number, rest))
}

/// A count and a sum, and the bytes after the space that ends both.
#[tactic(auto, unfolding(crate::specs::Readers::counted_at))]
fn counted(bytes: &[u8]) -> Result<((u64, u64), &[u8]), Fault>
    ensures { Returns (λ x. ((x.0.0, x.0.1), x.1.now)) result (counted_at bytes.now) }
{
    let (count, rest) = small_number(bytes, b' ')?;
    let (sum, rest) = small_number(rest, b' ')?;
    Ok(((count, sum), rest))
}

/// The note of which this comes after `# do `.
fn note_of(rest: &[u8]) -> Option<Note<'_>>
    ensures { IsNoteAs (codes "# do " ++ rest.now) result }
{
    match counted(rest) {
        Ok(((count, sum), line)) => {
            if sum != sum_of_both(spaced(count).as_bytes(), line) as u64 {
                return None;
            }
            Some(Note { count, line })
        }
        Err(_) => None,
    }
}

/// The line of a note, if this is one.
pub fn read_note(text: &[u8]) -> Option<Note<'_>>
    ensures { IsNoteAs text.now result }
{
    match fixed_word(text, b"# do ") {
        Ok(rest) => note_of(rest),
        Err(_) => None,
    }
}
