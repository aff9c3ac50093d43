//! The reader of a file's head.

ghost use Rattle.std.specs.Prelude.{◌≡◌, ◌^◌, IsTrue, ◌↔◌};
ghost use Rattle.text_lines.specs.Reading.{Gives, positive_at};
ghost use Rattle.segment_files.specs.Spelling.{head_of, is_digit};
ghost use Rattle.segment_files.specs.Reading.{digit_at, digits_at, behind_at, base_at, repeat_at, head_at};
ghost use Rattle.segment_files.specs.Meaning.{IsRightHead};

use crate::digests::DIGEST_DIGITS;
use crate::heads::SegmentHead;
use ring_model::Base;
use std::alloc::Global;
use text_lines::{Fault, ReadError, Stop, number64, positive32, refusal, word};

/// Whether a byte is a digit of a digest.
fn is_digit(b: u8) -> bool
    ensures { result ≡ is_digit b }
{
    b'0' <= b && b <= b'9' || b'a' <= b && b <= b'f'
}

/// Reads a digit of a digest.
#[tactic(auto, unfolding(crate::specs::Reading::digit_at))]
fn digit(bytes: &[u8]) -> Result<(u8, &[u8]), Stop>
    ensures { Gives (λ x. (x.0, x.1.now)) result (digit_at bytes.now) }
{
    match bytes {
        [] => Err(Stop::Fault(Fault::Short)),
        [b, rest @ ..] if is_digit(*b) => Ok((*b, rest)),
        [_, ..] => Err(Stop::Fault(Fault::Bad(bytes.len()))),
    }
}

/// Reads the digits of a digest.
fn digits(bytes: &[u8]) -> Result<([u8; DIGEST_DIGITS], &[u8]), Stop>
    ensures { Gives (λ x. (x.0, x.1.now)) result (digits_at bytes.now) }
{
    let mut found = [0; DIGEST_DIGITS];
    let mut rest = bytes;
    for i in 0..DIGEST_DIGITS {
        let (one, after) = digit(rest)?;
        found[i] = one;
        rest = after;
    }
    Ok((found, rest))
}

/// Reads the line of the digest.
#[tactic(auto, unfolding(crate::specs::Reading::behind_at))]
fn behind(bytes: &[u8]) -> Result<([u8; DIGEST_DIGITS], &[u8]), Stop>
    ensures { Gives (λ x. (x.0, x.1.now)) result (behind_at bytes.now) }
{
    let rest = word(bytes, b"behind ")?;
    let (found, rest) = digits(rest)?;
    let rest = word(rest, b"\n")?;
    Ok((found, rest))
}

/// Reads the line of a base.
#[tactic(auto, unfolding(crate::specs::Reading::base_at))]
fn base(bytes: &[u8]) -> Result<(Base, &[u8]), Stop>
    ensures { Gives (λ x. (x.0, x.1.now)) result (base_at bytes.now) }
{
    let rest = word(bytes, b"base ")?;
    let (events, rest) = number64(rest, b' ')?;
    let (grants, rest) = number64(rest, b' ')?;
    let (amount, rest) = number64(rest, b' ')?;
    let (calm, rest) = number64(rest, b'\n')?;
    let base = Base {
        events,
        grants,
        amount,
        calm,
    };
    Ok((base, rest))
}

/// Reads the lines of n bases. Room is asked for as they are read, never for n of them at once.
fn bases(alloc: Global, n: u32, bytes: &[u8]) -> Result<(Vec<Base>, &[u8]), Stop>
    ensures { Gives (λ x. (x.0.items, x.1.now)) result (repeat_at base_at n bytes.now) }
{
    let mut found = Vec::new(alloc);
    let mut rest = bytes;
    for i in 0..n {
        let (one, after) = base(rest)?;
        found.push(one)?;
        rest = after;
    }
    Ok((found, rest))
}

/// A number as [`number64`] reads it, of 1 or more.
#[tactic(auto, unfolding(text_lines::specs::Reading::positive_at))]
fn positive64(bytes: &[u8], stop: u8) -> Result<(u64, &[u8]), Stop>
    ensures { Gives (λ x. (x.0, x.1.now)) result (positive_at (2 ^ 64) stop bytes.now) }
{
    match bytes {
        [] => Err(Stop::Fault(Fault::Short)),
        [b'0', ..] => Err(Stop::Fault(Fault::Bad(bytes.len()))),
        [_, ..] => number64(bytes, stop),
    }
}

/// Reads a head at the front of some bytes; returns it with the bytes after it.
#[tactic(auto, unfolding(crate::specs::Reading::head_at))]
fn head(alloc: Global, bytes: &[u8]) -> Result<(SegmentHead, &[u8]), Stop>
    ensures { Gives (λ x. (head_of x.0, x.1.now)) result (head_at bytes.now) }
{
    let rest = word(bytes, b"ringsegment 1 ")?;
    let (number, rest) = positive64(rest, b' ')?;
    let (rings, rest) = positive32(rest, b'\n')?;
    let (behind, rest) = behind(rest)?;
    let (bases, rest) = bases(alloc, rings, rest)?;
    let head = SegmentHead {
        number,
        behind,
        bases,
    };
    Ok((head, rest))
}

/// The head with whose text the bytes begin, with the bytes after it.
///
/// # Errors
///
/// `Truncated` where the bytes are cut short of a head's text. `Syntax` with the first line, from 1, such that no
/// head's text begins with the bytes up to its end. `OutOfMemory` where there was no room.
pub fn read_head(alloc: Global, bytes: &[u8]) -> Result<(SegmentHead, &[u8]), ReadError>
    ensures { IsRightHead (λ x. (head_of x.0, x.1.now)) bytes.now result }
{
    match head(alloc, bytes) {
        Ok(found) => Ok(found),
        Err(stop) => Err(refusal(bytes, stop)),
    }
}
