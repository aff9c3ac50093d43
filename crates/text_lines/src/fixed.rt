//! Fixed words.

ghost use Rattle.std.specs.Prelude.{◌≡◌, ◌≤◌, true, length, drop, Ok};
ghost use Rattle.text_lines.specs.Reading.{word_at};
ghost use Rattle.text_lines.specs.Exact.{Returns};

use crate::fault::Fault;

/// Whether the bytes begin with the word: its bytes are looked at all together, as the processor can.
#[inline(always)]
fn begins_with(bytes: &[u8], word: &[u8]) -> bool
    requires { length word.now ≤ length bytes.now }
    ensures { result ≡ true
        → word_at word.now bytes.now ≡ Ok (drop (length word.now) bytes.now) }
{
    let mut all = true;
    for i in 0..word.len() {
        all = all & (bytes[i] == word[i]);
    }
    all
}

/// The same, byte by byte.
#[inline(always)]
fn after_word<'a>(bytes: &'a [u8], word: &[u8]) -> Result<&'a [u8], Fault>
    ensures { Returns (λ rest. rest.now) result (word_at word.now bytes.now) }
{
    for (i, c) in word.iter().enumerate() {
        if bytes.len() <= i {
            return Err(Fault::Short);
        }
        if bytes[i] != *c {
            return Err(Fault::Bad(bytes.len() - i));
        }
    }
    Ok(&bytes[word.len()..])
}

/// Returns the bytes after the word, with which they have to begin.
///
/// # Errors
///
/// `Bad` at the first byte that differs from the word's, and `Short` where the bytes end within the word. It takes no memory.
#[inline(always)]
pub fn fixed_word<'a>(bytes: &'a [u8], word: &[u8]) -> Result<&'a [u8], Fault>
    ensures { Returns (λ rest. rest.now) result (word_at word.now bytes.now) }
{
    if word.len() <= bytes.len() && begins_with(bytes, word) {
        return Ok(&bytes[word.len()..]);
    }
    after_word(bytes, word)
}
