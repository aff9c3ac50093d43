// Whether byte values stay below a limit, by the greatest value of each lane.
ghost use Rattle.std.specs.Prelude.{◌≡◌, ℕ, ◌≤◌, ◌<◌, ◌↔◌, length, slice_index, IsTrue, EachIndex};

use std::simd::prelude::*;

// For each lane the greatest of its values. The last block is that of the last 32 values, whether
// or not the one before has some of them, since a value that is seen twice makes no difference.
#[inline(always)]
fn greatest_lanes(s: &[u8]) -> u8x32
    requires { 32 ≤ length s.now }
    ensures lanes { length result ≡ 32 }
    ensures limits { (limit : ℕ)
        → EachIndex result (λ k. slice_index result k < limit)
        ↔ EachIndex s.now (λ k. slice_index s.now k < limit) }
{
    let n = s.len();
    let mut greatest = u8x32::from_slice(&s[n - 32..]);
    let mut i: usize = 0;
    while n - i > 64 {
        let left = u8x32::from_slice(&s[i..]);
        let right = u8x32::from_slice(&s[i + 32..]);
        greatest = greatest.simd_max(left.simd_max(right));
        i += 64;
    }
    if n - i > 32 {
        return greatest.simd_max(u8x32::from_slice(&s[i..]));
    }
    greatest
}

// Whether each value is below `limit`.
#[inline(always)]
pub(crate) fn are_below(s: &[u8], limit: u8) -> bool
    ensures { IsTrue result ↔ EachIndex s.now (λ k. slice_index s.now k < limit) }
{
    if s.len() >= 32 {
        let lanes = greatest_lanes(s);
        return u8x32::splat(limit).simd_le(lanes).to_bitmask() == 0;
    }
    for &value in s {
        if value >= limit {
            return false;
        }
    }
    true
}
