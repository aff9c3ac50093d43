// The tests of a ring that has two bytes for each machine.
ghost use Rattle.std.specs.Prelude.{◌==◌, not, length, slice_index};
ghost use Rattle.ring_lanes.specs.Hits.{privileged_at};

use crate::probe::Probe;
use std::simd::prelude::*;

// Passes the privileged machines.
#[derive(Clone, Copy)]
pub(crate) struct WidePrivileged<'a>(pub(crate) &'a [u16]);

// Passes the machines that hold a value.
#[derive(Clone, Copy)]
pub(crate) struct WideHolding<'a> {
    pub(crate) values: &'a [u16],
    pub(crate) value: u16,
}

// Passes the machines that hold another value than this one.
#[derive(Clone, Copy)]
pub(crate) struct WideDiffering<'a> {
    pub(crate) values: &'a [u16],
    pub(crate) value: u16,
}

impl Probe for WidePrivileged<'_> {
    ghost size = { λ p. length p.0.now };

    ghost hit = { λ p. privileged_at p.0.now };

    #[inline(always)]
    fn len(&self) -> usize {
        self.0.len()
    }

    #[inline(always)]
    fn is_hit(&self, i: usize) -> bool {
        let s = self.0;
        if i == 0 {
            s[s.len() - 1] == s[0]
        } else {
            s[i - 1] != s[i]
        }
    }

    #[inline(always)]
    fn hits(&self, i: usize) -> u64 {
        let left = u16x32::from_slice(&self.0[i - 1..]);
        let own = u16x32::from_slice(&self.0[i..]);
        left.simd_ne(own).to_bitmask()
    }

    #[inline(always)]
    fn few_hits(&self, i: usize) -> u64 {
        let neighbours = u16x8::from_slice(&self.0[i - 1..]);
        let own = u16x8::from_slice(&self.0[i..]);
        neighbours.simd_ne(own).to_bitmask()
    }
}

impl Probe for WideHolding<'_> {
    ghost size = { λ p. length p.values.now };

    ghost hit = { λ p i. slice_index p.values.now i == p.value };

    #[inline(always)]
    fn len(&self) -> usize {
        self.values.len()
    }

    #[inline(always)]
    fn is_hit(&self, i: usize) -> bool {
        self.values[i] == self.value
    }

    #[inline(always)]
    fn hits(&self, i: usize) -> u64 {
        let own = u16x32::from_slice(&self.values[i..]);
        own.simd_eq(u16x32::splat(self.value)).to_bitmask()
    }

    #[inline(always)]
    fn few_hits(&self, i: usize) -> u64 {
        let own = u16x8::from_slice(&self.values[i..]);
        own.simd_eq(u16x8::splat(self.value)).to_bitmask()
    }
}

impl Probe for WideDiffering<'_> {
    ghost size = { λ p. length p.values.now };

    ghost hit = { λ p i. not (slice_index p.values.now i == p.value) };

    #[inline(always)]
    fn len(&self) -> usize {
        self.values.len()
    }

    #[inline(always)]
    fn is_hit(&self, i: usize) -> bool {
        self.values[i] != self.value
    }

    #[inline(always)]
    fn hits(&self, i: usize) -> u64 {
        let own = u16x32::from_slice(&self.values[i..]);
        own.simd_ne(u16x32::splat(self.value)).to_bitmask()
    }

    #[inline(always)]
    fn few_hits(&self, i: usize) -> u64 {
        let own = u16x8::from_slice(&self.values[i..]);
        own.simd_ne(u16x8::splat(self.value)).to_bitmask()
    }
}
