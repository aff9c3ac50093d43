//! What is read of a line. It takes no memory.

ghost use Rattle.std.specs.Prelude.{◌≡◌, Option, None, Some, List, ℕ, cond, take, length, ◌≤◌};
ghost use Rattle.std.specs.List.{list_all};
ghost use Rattle.std.specs.Option.{option_map};
ghost use Rattle.text_lines.specs.LongNumbers.{order_at};
ghost use Rattle.segment_files.specs.Spelling.{is_digit, digest_digits};
ghost use Rattle.line_replica.specs.Reading.{with_number, tagged_at, did_at, is_forget, is_some_number, may_follow_by, may_follow, is_to, is_to_asker, kept_text, place_at, digest_at, last_number, with_digest, is_last_digest, of_tagged, of_place, of_digest, heard};

use segment_files::DIGEST_DIGITS;
use text_lines::{LINE_LIMIT, fixed_word, number as decimal};

/// Whose line it is, and which of theirs.
#[derive(Clone, Copy)]
pub(crate) struct Tag {
    pub(crate) key: u64,
    pub(crate) number: u64,
}

/// What follows the word `did`, if it is there.
#[tactic(auto, unfolding(crate::specs::Reading::did_at))]
pub(crate) fn did(rest: &[u8]) -> Option<&[u8]>
    ensures { option_map (λ x. x.now) result ≡ did_at rest.now }
{
    match fixed_word(rest, b"did ") {
        Ok(text) => Some(text),
        Err(_) => None,
    }
}

/// Whether it is the word `forget`.
#[tactic(auto, unfolding(crate::specs::Reading::is_forget))]
pub(crate) fn is_forget(rest: &[u8]) -> bool
    ensures { result ≡ is_forget rest.now }
{
    match fixed_word(rest, b"forget\n") {
        Ok(more) => more.is_empty(),
        Err(_) => false,
    }
}

/// Whether it begins with a number and a space.
fn is_some_number(bytes: &[u8]) -> bool
    ensures { result ≡ is_some_number (order_at 32 bytes.now) }
{
    match decimal(bytes, b' ') {
        Ok((Some(_), _)) => true,
        Ok((None, _)) => false,
        Err(_) => false,
    }
}

/// Whether this may follow a key and a number. What is not a call may not: it is answered inside, with the key in front, so that it
/// uses up no number.
#[tactic(auto, unfolding(crate::specs::Reading::may_follow))]
fn may_follow(rest: &[u8]) -> bool
    ensures { result ≡ may_follow rest.now }
{
    match did(rest) {
        Some(_) => true,
        None => is_forget(rest) || is_some_number(rest),
    }
}

/// The number of a key, and what follows it, if that may.
fn numbered(key: u64, bytes: &[u8]) -> Option<(Tag, &[u8])>
    ensures { option_map (λ x. (x.0, x.1.now)) result ≡ with_number key (order_at 32 bytes.now) }
{
    match decimal(bytes, b' ') {
        Ok((Some(number), rest)) => {
            if may_follow(rest) {
                return Some((Tag { key, number }, rest));
            }
            None
        }
        Ok((None, _)) => None,
        Err(_) => None,
    }
}

/// The key and the number with which a line begins, and what follows them, if that may.
#[tactic(auto, unfolding(crate::specs::Reading::tagged_at))]
pub(crate) fn tagged(line: &[u8]) -> Option<(Tag, &[u8])>
    ensures { option_map (λ x. (x.0, x.1.now)) result ≡ tagged_at line.now }
{
    match decimal(line, b' ') {
        Ok((Some(key), rest)) => numbered(key, rest),
        Ok((None, _)) => None,
        Err(_) => None,
    }
}

/// The first line that is kept of a text after `did`: none if it is empty.
pub(crate) fn kept_text(text: &[u8]) -> &[u8]
    ensures { result.now ≡ kept_text text.now }
{
    match text {
        [b'\n'] => &[],
        _ => text,
    }
}

/// Whether an answer begins with this number and a space.
fn is_to(number: u64, said: &[u8]) -> bool
    ensures { result ≡ is_to number (order_at 32 said.now) }
{
    match decimal(said, b' ') {
        Ok((Some(other), _)) => other == number,
        Ok((None, _)) => false,
        Err(_) => false,
    }
}

/// Whether an answer begins with the number with which an input does: it is for the client that asked.
pub(crate) fn is_to_asker(input: &[u8], said: &[u8]) -> bool
    ensures { result ≡ is_to_asker (order_at 32 input.now) said.now }
{
    match decimal(input, b' ') {
        Ok((Some(number), _)) => is_to(number, said),
        Ok((None, _)) => false,
        Err(_) => false,
    }
}

/// The number that ends a line.
fn last_number(bytes: &[u8]) -> Option<u64>
    ensures { result ≡ last_number (order_at 10 bytes.now) }
{
    match decimal(bytes, b'\n') {
        Ok((number, [])) => number,
        Ok((_, [_, ..])) => None,
        Err(_) => None,
    }
}

/// The place that is asked.
#[tactic(auto, unfolding(crate::specs::Reading::place_at))]
pub(crate) fn place(line: &[u8]) -> Option<u64>
    ensures { result ≡ place_at line.now }
{
    match fixed_word(line, b"at ") {
        Ok(rest) => last_number(rest),
        Err(_) => None,
    }
}

/// Whether it is a digit of a digest.
fn is_digit(byte: u8) -> bool
    ensures { result ≡ is_digit byte }
{
    matches!(byte, b'0'..=b'9' | b'a'..=b'f')
}

/// Whether all are.
fn are_digits(bytes: &[u8]) -> bool
    ensures { result ≡ list_all is_digit bytes.now }
{
    for (i, byte) in bytes.iter().enumerate() {
        let one = is_digit(*byte);
        if !one {
            return false;
        }
    }
    true
}

/// The first `count` bytes.
fn first(bytes: &[u8], count: usize) -> &[u8]
    requires { count ≤ length bytes.now }
    ensures { result.now ≡ take count bytes.now }
{
    &bytes[..count]
}

/// Whether it is a digest that ends a line.
fn is_last_digest(rest: &[u8]) -> bool
    ensures { result ≡ is_last_digest rest.now }
{
    rest.len() == DIGEST_DIGITS + 1 && are_digits(first(rest, DIGEST_DIGITS))
}

/// A place and the digest after it.
fn with_digest(bytes: &[u8]) -> Option<(u64, &[u8])>
    ensures { option_map (λ x. (x.0, x.1.now)) result ≡ with_digest (order_at 32 bytes.now) }
{
    match decimal(bytes, b' ') {
        Ok((Some(place), rest)) => {
            if is_last_digest(rest) {
                return Some((place, first(rest, DIGEST_DIGITS)));
            }
            None
        }
        Ok((None, _)) => None,
        Err(_) => None,
    }
}

/// The place that a line gives, with its digest.
#[tactic(auto, unfolding(crate::specs::Reading::digest_at))]
pub(crate) fn place_with_digest(line: &[u8]) -> Option<(u64, &[u8])>
    ensures { option_map (λ x. (x.0, x.1.now)) result ≡ digest_at line.now }
{
    match fixed_word(line, b"at ") {
        Ok(rest) => with_digest(rest),
        Err(_) => None,
    }
}
