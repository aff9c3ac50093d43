//! With what a segment begins: its version, and how many lines had been noted. Reading takes no memory.

ghost use Rattle.std.specs.Prelude.{◌≡◌, ◌++◌, codes, OnOk, OnErr};
ghost use Rattle.text_lines.specs.Reading.{end_at, whole_at};
ghost use Rattle.text_lines.specs.Exact.{Returns};
ghost use Rattle.noted_lines.specs.Notes.{done_text};
ghost use Rattle.noted_lines.specs.Readers.{beginning_at, IsBeginningAs};

use crate::notes::small_number;
use std::alloc::AllocError;
use text_lines::{Fault, fixed_word, with_numbers};

/// The version of a segment, and how many lines had been noted when it began.
#[derive(Clone, Copy, Debug, PartialEq, Eq)]
pub struct Beginning {
    pub version: u64,
    pub count: u64,
}

/// Adds the line that says with what a segment begins.
///
/// # Errors
///
/// Only out of memory. The text is as it was then.
pub fn put_beginning(text: &mut Vec<u8>, beginning: Beginning) -> Result<(), AllocError>
    ensures ok { OnOk result
        (text.new.items ≡ text.old.items ++ done_text beginning.version beginning.count) }
    ensures err { OnErr result (text.new.items ≡ text.old.items) }
{
    text.extend_from_slice(with_numbers(b"# done ", beginning.version, beginning.count).as_bytes())
}

/// There is nothing more.
fn ended(rest: &[u8]) -> Result<(), Fault>
    ensures { Returns (λ u. u) result (end_at rest.now) }
{
    match rest {
        [] => Ok(()),
        [_, ..] => Err(Fault::Bad(rest.len())),
    }
}

/// What comes after `# done `.
#[tactic(auto, unfolding(crate::specs::Readers::beginning_at, text_lines::specs::Reading::whole_at))]
fn version_and_count(bytes: &[u8]) -> Result<(u64, u64), Fault>
    ensures { Returns (λ x. (x.0, x.1)) result (beginning_at bytes.now) }
{
    let (version, rest) = small_number(bytes, b' ')?;
    let (count, rest) = small_number(rest, b'\n')?;
    ended(rest)?;
    Ok((version, count))
}

/// The line of which this comes after `# done `.
fn beginning_of(rest: &[u8]) -> Option<Beginning>
    ensures { IsBeginningAs (codes "# done " ++ rest.now) result }
{
    match version_and_count(rest) {
        Ok((version, count)) => Some(Beginning { version, count }),
        Err(_) => None,
    }
}

/// With what a segment begins, if this line, which has its LF, says it.
pub fn read_beginning(text: &[u8]) -> Option<Beginning>
    ensures { IsBeginningAs text.now result }
{
    match fixed_word(text, b"# done ") {
        Ok(rest) => beginning_of(rest),
        Err(_) => None,
    }
}
