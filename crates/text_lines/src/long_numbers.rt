//! Decimals of any size, so that a call of something that is not there is answered so, however great its number is.

ghost use Rattle.std.specs.Prelude.{◌≡◌, ◌≤◌, ◌<◌, ◌+◌, ◌-◌, ◌*◌, ◌^◌, ◌&&◌, ℕ, true, false, nat_lt, IfSome, IsNone};
ghost use Rattle.text_lines.specs.Reading.{Gives, as_at, is_digit};
ghost use Rattle.text_lines.specs.Exact.{Returns};
ghost use Rattle.text_lines.specs.LongNumbers.{long_digits_at, in_64_bits, in_32_bits, order_at, place_at, places_at};

use crate::fault::{Fault, Stop};
use crate::row::stop_byte;
use std::alloc::Global;

/// Numbers below it have 64 bits with a digit more.
const NEAR: u64 = 1_000_000_000_000_000_000;

/// A number with a digit more, where it is none from 2 to the power 64 on.
fn with_digit(number: Option<u64>, digit: u8) -> Option<u64>
    requires { digit ≤ 9 }
    ensures { (n : ℕ) → number ≡ in_64_bits n → result ≡ in_64_bits (n * 10 + digit) }
{
    match number {
        Some(n) if n <= (u64::MAX - digit as u64) / 10 => Some(n * 10 + digit as u64),
        _ => None,
    }
}

/// The number with the byte after it, if it continues so: no digit follows a leading 0.
fn with_byte(number: Option<u64>, b: u8) -> Option<Option<u64>>
    ensures more { (n : ℕ) → number ≡ in_64_bits n
        → IfSome result
        (λ more. ((nat_lt 0 n && is_digit b) ≡ true) × (more ≡ in_64_bits (n * 10 + (b - 48)))) }
    ensures ends { (n : ℕ) → number ≡ in_64_bits n → IsNone result
        → (nat_lt 0 n && is_digit b) ≡ false }
{
    match (number, b) {
        (Some(0), _) => None,
        (_, b'0'..=b'9') => Some(with_digit(number, b - b'0')),
        _ => None,
    }
}

/// Reads the rest of a number that begins with `first`, however long it is.
fn long_digits(first: u64, stop: u8, bytes: &[u8]) -> Result<(Option<u64>, &[u8]), Fault>
    ensures { Returns (λ x. (x.0, x.1.now)) result
        (as_at in_64_bits (long_digits_at stop first) bytes.now) }
{
    let mut number = Some(first);
    for (i, b) in bytes.iter().enumerate() {
        if *b == stop {
            return Ok((number, &bytes[i + 1..]));
        }
        let Some(more) = with_byte(number, *b) else {
            return Err(Fault::Bad(bytes.len() - i));
        };
        number = more;
    }
    Err(Fault::Short)
}

/// A number with a digit more, if it is far below 2 to the power 64, as most are: one comparison suffices for them.
#[inline(always)]
fn with_near_digit(number: u64, b: u8) -> Option<u64>
    ensures { IfSome result (λ more. ((nat_lt 0 number && is_digit b) ≡ true)
        × (more ≡ number * 10 + (b - 48))
        × (more < 2 ^ 64)) }
{
    if number == 0 || number >= NEAR {
        return None;
    }
    match b {
        b'0'..=b'9' => Some(number * 10 + (b - b'0') as u64),
        _ => None,
    }
}

/// Reads the rest of a number that begins with `first`.
fn digits(first: u64, stop: u8, bytes: &[u8]) -> Result<(Option<u64>, &[u8]), Fault>
    ensures { Returns (λ x. (x.0, x.1.now)) result
        (as_at in_64_bits (long_digits_at stop first) bytes.now) }
{
    let mut number = first;
    for (i, b) in bytes.iter().enumerate() {
        if *b == stop {
            return Ok((Some(number), &bytes[i + 1..]));
        }
        let Some(more) = with_near_digit(number, *b) else {
            return long_digits(number, stop, &bytes[i..]);
        };
        number = more;
    }
    Err(Fault::Short)
}

/// The same, where most numbers have one digit.
#[inline(always)]
fn more_digits(first: u64, stop: u8, bytes: &[u8]) -> Result<(Option<u64>, &[u8]), Fault>
    ensures { Returns (λ x. (x.0, x.1.now)) result
        (as_at in_64_bits (long_digits_at stop first) bytes.now) }
{
    match bytes {
        [b, rest @ ..] if *b == stop => Ok((Some(first), rest)),
        _ => digits(first, stop, bytes),
    }
}

/// Reads a decimal without signs or leading zeros; returns it, or none if it is 2 to
/// the power 64 or more, with the bytes after the byte that ends it.
///
/// # Errors
///
/// The first fault of the bytes. It takes no memory.
#[tactic(auto, unfolding(crate::specs::LongNumbers::decimal_at, crate::specs::LongNumbers::order_at))]
#[inline(always)]
pub fn number(bytes: &[u8], stop: u8) -> Result<(Option<u64>, &[u8]), Fault>
    ensures { Returns (λ x. (x.0, x.1.now)) result (order_at stop bytes.now) }
{
    match bytes {
        [] => Err(Fault::Short),
        [b @ b'0'..=b'9', rest @ ..] => more_digits((*b - b'0') as u64, stop, rest),
        [_, ..] => Err(Fault::Bad(bytes.len())),
    }
}

/// The same among readers that may take memory.
pub fn decimal(bytes: &[u8], stop: u8) -> Result<(Option<u64>, &[u8]), Stop>
    ensures { Gives (λ x. (x.0, x.1.now)) result (order_at stop bytes.now) }
{
    match number(bytes, stop) {
        Ok(read) => Ok(read),
        Err(fault) => Err(Stop::Fault(fault)),
    }
}

/// The number of 32 bits that is equal to a number.
fn in_32_bits(number: Option<u64>) -> u32
    ensures { (n : ℕ) → number ≡ in_64_bits n → result ≡ in_32_bits n }
{
    match number {
        Some(n) if n < u32::MAX as u64 => n as u32,
        _ => u32::MAX,
    }
}

/// The number of a ring, a seat or a machine, or a value: one that is too great for any of them is the greatest of 32 bits.
pub fn place(bytes: &[u8], stop: u8) -> Result<(u32, &[u8]), Stop>
    ensures { Gives (λ x. (x.0, x.1.now)) result (place_at stop bytes.now) }
{
    let (number, rest) = decimal(bytes, stop)?;
    Ok((in_32_bits(number), rest))
}

/// n of them on one line. Room is asked for as they are read.
pub fn places(alloc: Global, count: usize, bytes: &[u8]) -> Result<(Vec<u32>, &[u8]), Stop>
    ensures { Gives (λ x. (x.0.items, x.1.now)) result (places_at count bytes.now) }
{
    let mut found = Vec::new(alloc);
    let mut rest = bytes;
    for i in 0..count {
        let (number, after) = place(rest, stop_byte(count - i - 1))?;
        found.push(number)?;
        rest = after;
    }
    Ok((found, rest))
}
