//! The reader of saved texts, and the laws of its answers.

ghost use Rattle.saved_history.specs.Meaning.{IsRightRead, OneAnswerIsRight, TextsAreApart, TextsReadBack};

use crate::blocks::whole;
use crate::saved::Saved;
use std::alloc::Global;
use text_lines::{ReadError, refusal};

/// The value whose text the bytes are.
///
/// Room is asked for as values are read, never from a number that the text says.
///
/// # Errors
///
/// `Truncated` where the bytes are cut short of a longer text. `Syntax` with the first line, from
/// 1, such that no text begins with the bytes up to its end, the LF with them where there is one;
/// the bytes after the last LF count as a line. `OutOfMemory` where there was no room.
pub fn read_saved(alloc: Global, bytes: &[u8]) -> Result<Saved, ReadError>
    ensures { IsRightRead bytes.now result }
{
    match whole(alloc, bytes) {
        Ok(saved) => Ok(saved),
        Err(stop) => Err(refusal(bytes, stop)),
    }
}

/// No text is a proper prefix of another one, and each text has one value.
pub fn texts_are_apart()
    ensures { TextsAreApart }
{}

/// At most one answer to some bytes is right: a text is neither cut short nor has a bad line, bytes
/// that are cut short have no bad line, and there is one first bad line.
pub fn answers_are_apart()
    ensures { OneAnswerIsRight }
{}

/// The text of a value that fits reads back: the right answer to it is that value, block by block and line by line, or
/// out of memory, and nothing else. So does the output of a writer if a clause says that it is the text of such a
/// value.
pub fn texts_read_back()
    ensures { TextsReadBack }
{}
