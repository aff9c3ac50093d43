//! The words of a set: searches through them, and a machine that is put in or taken out.
ghost use Rattle.std.specs.Prelude.{◌≡◌, ◌≢◌, ◌<◌, ◌≤◌, ◌+◌, ◌-◌, ◌*◌, ◌^◌, ℕ, true, false};
ghost use Rattle.ring_model.specs.Numbers.{least};
ghost use Rattle.ring_model.specs.Limits.{machine_limit};
ghost use Rattle.machine_masks.specs.Members.{is_set, is_in, members, members_below};

use crate::bits::{is_set, nth_bit, with_bit};

/// The machine of the set that has `place` others below it.
#[inline]
pub(crate) fn nth(words: &[u64; 16], place: u32) -> u32
    requires { place < members words.now }
    ensures machine { result < machine_limit }
    ensures member { is_in words.now result ≡ true }
    ensures place { members_below words.now result ≡ place }
{
    let mut left = place;
    for w in 0..16usize {
        let ones = words[w].count_ones();
        if left < ones {
            return w as u32 * 64 + nth_bit(words[w], left);
        }
        left -= ones;
    }
    unreachable!()
}

/// A word with the bits of 32 machines, from machine 32 `block` on, and no other bit.
#[inline]
pub(crate) fn block_of(words: &[u64; 16], block: u32) -> u64
    requires { block < 32 }
    ensures bits { (b : ℕ) → b < 32 → is_set result b ≡ is_in words.now (32 * block + b) }
    ensures few { result < 2 ^ 32 }
{
    words[(block / 2) as usize] >> (block % 2 * 32) & 0xFFFF_FFFF
}

/// The least machine of the set from `from` on, or `end` if it is none below that.
#[inline]
pub(crate) fn first_from(words: &[u64; 16], from: u32, end: u32) -> u32
    requires from { from < end }
    requires end { end ≤ machine_limit }
    ensures { result ≡ least (is_in words.now) from (end - from) }
{
    let at = from / 64;
    let rest = words[at as usize] >> (from % 64);
    if rest != 0 {
        return end.min(from + rest.trailing_zeros());
    }
    for w in at + 1..(end + 63) / 64 {
        let word = words[w as usize];
        if word != 0 {
            return end.min(w * 64 + word.trailing_zeros());
        }
    }
    end
}

/// The greatest machine of a set that has one, and all below `end`.
#[inline]
pub(crate) fn last(words: &[u64; 16], end: u32) -> u32
    requires end { end ≤ machine_limit }
    requires some { (i : ℕ) × (i < end) × (is_in words.now i ≡ true) }
    requires all { (i : ℕ) → end ≤ i → i < machine_limit → is_in words.now i ≡ false }
    ensures machine { result < end }
    ensures member { is_in words.now result ≡ true }
    ensures last { (i : ℕ) → result < i → i < end → is_in words.now i ≡ false }
{
    let count = (end + 63) / 64;
    for above in 0..count {
        let w = count - 1 - above;
        let word = words[w as usize];
        if word != 0 {
            return w * 64 + 63 - word.leading_zeros();
        }
    }
    unreachable!()
}

/// Puts a machine into the set, or takes it out. Answers whether it was in it.
#[inline]
pub(crate) fn put(words: &mut [u64; 16], machine: u32, on: bool) -> bool
    requires { machine < machine_limit }
    ensures was { result ≡ is_in words.old machine }
    ensures at { is_in words.new machine ≡ on }
    ensures others { (i : ℕ) → i < machine_limit → i ≢ machine
        → is_in words.new i ≡ is_in words.old i }
{
    let w = (machine / 64) as usize;
    let bit = machine % 64;
    let word = words[w];
    words[w] = with_bit(word, bit, on);
    is_set(word, bit)
}
