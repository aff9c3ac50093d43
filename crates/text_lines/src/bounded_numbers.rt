//! Canonical decimals: `0`, or digits that do not begin with 0.

ghost use Rattle.std.specs.Prelude.{◌≡◌, ℕ, ◌+◌, ◌<◌, ◌≤◌, ◌^◌, true, false, length, drop, slice_index, IfOk, IfSome};
ghost use Rattle.text_lines.specs.Reading.{Gives, number_at, positive_at, digits_at, is_digit};

use crate::fault::{Fault, Stop};

/// Reads the rest of a number that begins with `first`; returns it with the bytes after the byte that ends it.
fn digits(first: u64, max: u64, stop: u8, bytes: &[u8]) -> Result<(u64, &[u8]), Stop>
    requires { (9 ≤ max) × (first ≤ max) }
    ensures gives { Gives (λ x. (x.0, x.1.now)) result (digits_at (max + 1) stop first bytes.now) }
    ensures below { IfOk result (λ x. x.0 ≤ max) }
{
    let mut value = first;
    for (i, b) in bytes.iter().enumerate() {
        if *b == stop {
            return Ok((value, &bytes[i + 1..]));
        }
        if value == 0 || *b < b'0' || b'9' < *b {
            return Err(Stop::Fault(Fault::Bad(bytes.len() - i)));
        }
        let digit = (*b - b'0') as u64;
        // The number would pass the limit; computed without passing it. Far below the limit one comparison suffices.
        if max / 10 <= value && (max - digit) / 10 < value {
            return Err(Stop::Fault(Fault::Bad(bytes.len() - i)));
        }
        value = value * 10 + digit;
    }
    Err(Stop::Fault(Fault::Short))
}

/// Whether a byte is a digit.
fn is_digit(b: u8) -> bool
    ensures { result ≡ is_digit b }
{
    b'0' <= b && b <= b'9'
}

/// Whether the first eight bytes are digits: looked at all together, as the processor can.
#[inline(always)]
fn are_eight_digits(bytes: &[u8]) -> bool
    requires { 8 ≤ length bytes.now }
    ensures { result ≡ true → (place : ℕ) → place < 8
        → is_digit (slice_index bytes.now place) ≡ true }
{
    let mut all = true;
    for i in 0..8 {
        all = all & is_digit(bytes[i]);
    }
    all
}

/// The number of a first digit and eight more, if there are eight. It is below every limit of 64 bits, so the digits need
/// not be compared with one, and a loop of a fixed length keeps it in a register.
#[inline(always)]
fn eight_more(first: u64, bytes: &[u8]) -> Option<u64>
    requires { (1 ≤ first) × (first ≤ 9) }
    ensures goes_on { IfSome result (λ value.
        (limit stop : ℕ) → 1_000_000_000 ≤ limit → is_digit stop ≡ false
        → digits_at limit stop value (drop 8 bytes.now) ≡ digits_at limit stop first bytes.now) }
    ensures below { IfSome result (λ value. value < 1_000_000_000) }
    ensures long { IfSome result (λ value. 8 ≤ length bytes.now) }
{
    if bytes.len() < 8 || !are_eight_digits(bytes) {
        return None;
    }
    let mut value = first;
    for i in 0..8 {
        value = value * 10 + (bytes[i] - b'0') as u64;
    }
    Some(value)
}

/// Reads the start of a number whose first digit was read, of a long one nine digits; returns it with the bytes after it.
#[inline(always)]
fn begin(first: u64, max: u64, stop: u8, bytes: &[u8]) -> (u64, &[u8])
    requires { (9 ≤ max) × (first ≤ 9) }
    ensures goes_on { digits_at (max + 1) stop result.0 result.1.now
        ≡ digits_at (max + 1) stop first bytes.now }
    ensures below { result.0 ≤ max }
{
    if first == 0 || max <= u32::MAX as u64 || is_digit(stop) {
        return (first, bytes);
    }
    match eight_more(first, bytes) {
        Some(value) => (value, &bytes[8..]),
        None => (first, bytes),
    }
}

/// Reads a number of at most `max`; returns it with the bytes after the byte that ends it.
#[tactic(auto, unfolding(crate::specs::Reading::number_at))]
fn number(bytes: &[u8], max: u64, stop: u8) -> Result<(u64, &[u8]), Stop>
    requires { 9 ≤ max }
    ensures gives { Gives (λ x. (x.0, x.1.now)) result (number_at (max + 1) stop bytes.now) }
    ensures below { IfOk result (λ x. x.0 ≤ max) }
{
    match bytes {
        [] => Err(Stop::Fault(Fault::Short)),
        [b @ b'0'..=b'9', after @ ..] => {
            let (value, rest) = begin((*b - b'0') as u64, max, stop, after);
            digits(value, max, stop, rest)
        }
        [_, ..] => Err(Stop::Fault(Fault::Bad(bytes.len()))),
    }
}

/// Reads a canonical decimal below 2 to the power 32; returns it with the bytes after the byte `stop` that ends it.
///
/// # Errors
///
/// `Bad` at the byte with which no such number continues: one that is neither a digit nor `stop`, a
/// digit after a leading 0, or the digit that passes the limit. `Short` where the bytes end first.
/// Takes no memory.
pub fn number32(bytes: &[u8], stop: u8) -> Result<(u32, &[u8]), Stop>
    ensures { Gives (λ x. (x.0, x.1.now)) result (number_at (2 ^ 32) stop bytes.now) }
{
    let (value, rest) = number(bytes, u32::MAX as u64, stop)?;
    Ok((value as u32, rest))
}

/// Reads a canonical decimal below 2 to the power 64; returns it with the bytes after the byte `stop` that ends it.
///
/// # Errors
///
/// As [`number32`], at its own limit.
pub fn number64(bytes: &[u8], stop: u8) -> Result<(u64, &[u8]), Stop>
    ensures { Gives (λ x. (x.0, x.1.now)) result (number_at (2 ^ 64) stop bytes.now) }
{
    number(bytes, u64::MAX, stop)
}

/// A number as [`number32`] reads it, of 1 or more.
///
/// # Errors
///
/// As [`number32`], and `Bad` at a `0` with which the number begins.
#[tactic(auto, unfolding(crate::specs::Reading::positive_at))]
pub fn positive32(bytes: &[u8], stop: u8) -> Result<(u32, &[u8]), Stop>
    ensures { Gives (λ x. (x.0, x.1.now)) result (positive_at (2 ^ 32) stop bytes.now) }
{
    match bytes {
        [] => Err(Stop::Fault(Fault::Short)),
        [b'0', ..] => Err(Stop::Fault(Fault::Bad(bytes.len()))),
        [_, ..] => number32(bytes, stop),
    }
}
