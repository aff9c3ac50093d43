//! Fixed words.

ghost use Rattle.std.specs.Prelude.{◌≡◌};
ghost use Rattle.text_lines.specs.Reading.{Gives, word_at};

use crate::fault::{Fault, Stop};

/// Returns the bytes after the word, with which they have to begin.
///
/// # Errors
///
/// `Bad` at the first byte that differs from the word's, and `Short` where the bytes end within
/// the word. Takes no memory.
pub fn word<'a>(bytes: &'a [u8], word: &[u8]) -> Result<&'a [u8], Stop>
    ensures { Gives (λ rest. rest.now) result (word_at word.now bytes.now) }
{
    for (i, c) in word.iter().enumerate() {
        if bytes.len() <= i {
            return Err(Stop::Fault(Fault::Short));
        }
        if bytes[i] != *c {
            return Err(Stop::Fault(Fault::Bad(bytes.len() - i)));
        }
    }
    Ok(&bytes[word.len()..])
}
