// The tests of a ring that has one byte for each machine.
ghost use Rattle.std.specs.Prelude.{◌==◌, length, slice_index};
ghost use Rattle.ring_lanes.specs.Hits.{privileged_at, returning_at};

use crate::probe::Probe;
use std::simd::prelude::*;

// Passes the privileged machines.
#[derive(Clone, Copy)]
pub(crate) struct Privileged<'a>(pub(crate) &'a [u8]);

// Passes the machines that hold a value.
#[derive(Clone, Copy)]
pub(crate) struct Holding<'a> {
    pub(crate) values: &'a [u8],
    pub(crate) value: u8,
}

// Passes the machines that hold the value of machine 0 though their left neighbours do not.
#[derive(Clone, Copy)]
pub(crate) struct Returning<'a>(pub(crate) &'a [u8]);

impl Probe for Privileged<'_> {
    ghost size = { λ p. length p.0.now };

    ghost hit = { λ p. privileged_at p.0.now };

    #[inline(always)]
    fn len(&self) -> usize {
        self.0.len()
    }

    #[inline(always)]
    fn is_hit(&self, i: usize) -> bool {
        let s = self.0;
        if i == 0 {
            s[s.len() - 1] == s[0]
        } else {
            s[i - 1] != s[i]
        }
    }

    #[inline(always)]
    fn hits(&self, i: usize) -> u64 {
        let left = u8x32::from_slice(&self.0[i - 1..]);
        let own = u8x32::from_slice(&self.0[i..]);
        left.simd_ne(own).to_bitmask()
    }

    #[inline(always)]
    fn few_hits(&self, i: usize) -> u64 {
        let neighbours = u8x8::from_slice(&self.0[i - 1..]);
        let own = u8x8::from_slice(&self.0[i..]);
        neighbours.simd_ne(own).to_bitmask()
    }
}

impl Probe for Holding<'_> {
    ghost size = { λ p. length p.values.now };

    ghost hit = { λ p i. slice_index p.values.now i == p.value };

    #[inline(always)]
    fn len(&self) -> usize {
        self.values.len()
    }

    #[inline(always)]
    fn is_hit(&self, i: usize) -> bool {
        self.values[i] == self.value
    }

    #[inline(always)]
    fn hits(&self, i: usize) -> u64 {
        let own = u8x32::from_slice(&self.values[i..]);
        own.simd_eq(u8x32::splat(self.value)).to_bitmask()
    }

    #[inline(always)]
    fn few_hits(&self, i: usize) -> u64 {
        let own = u8x8::from_slice(&self.values[i..]);
        own.simd_eq(u8x8::splat(self.value)).to_bitmask()
    }
}

impl Probe for Returning<'_> {
    ghost size = { λ p. length p.0.now };

    ghost hit = { λ p. returning_at p.0.now };

    #[inline(always)]
    fn len(&self) -> usize {
        self.0.len()
    }

    #[inline(always)]
    fn is_hit(&self, i: usize) -> bool {
        let s = self.0;
        if i == 0 {
            return false;
        }
        s[i] == s[0] && s[i - 1] != s[0]
    }

    #[inline(always)]
    fn hits(&self, i: usize) -> u64 {
        let first = u8x32::splat(self.0[0]);
        let neighbours = u8x32::from_slice(&self.0[i - 1..]);
        let own = u8x32::from_slice(&self.0[i..]);
        (own.simd_eq(first) & neighbours.simd_ne(first)).to_bitmask()
    }

    #[inline(always)]
    fn few_hits(&self, i: usize) -> u64 {
        let first = u8x8::splat(self.0[0]);
        let neighbours = u8x8::from_slice(&self.0[i - 1..]);
        let own = u8x8::from_slice(&self.0[i..]);
        (own.simd_eq(first) & neighbours.simd_ne(first)).to_bitmask()
    }
}
