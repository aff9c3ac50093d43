//! The questions of each survey and each settling step, for 32 machines at a time: over a ring of
//! bytes, and by the functions `wide_*` one of 16-bit values. No call takes memory, and each always
//! succeeds.
#![tactic(auto)]

ghost use Rattle.std.specs.Prelude.{◌≡◌, ◌↔◌, ◌≤◌, ◌<◌, ◌/◌, ◌%◌, ◌&&◌, if◌then◌else◌, not, nat_lt, ℕ, length, slice_index, IsTrue, EachIndex, true};
ghost use Rattle.ring_model.specs.Limits.{value_limit};
ghost use Rattle.ring_model.specs.Ring.{is_privileged, privileged_count, first_privileged, weight, is_absent, first_value_is_prefix, IsPrefix};
ghost use Rattle.ring_lanes.specs.Masks.{mask_limit, wide_mask_limit, IsMaskOf};

mod bytes;
mod kernels;
mod limits;
mod probe;
mod wide;
mod wide_limits;

use bytes::{Holding, Privileged, Returning};
use kernels::{any_hit, count_hits, first_hit, first_late_hit, weigh_hits, write_hits};
use limits::are_below;
use probe::Probe;
use wide::{WideDiffering, WideHolding, WidePrivileged};
use wide_limits::are_wide_below;

/// Writes a bit for each machine into `out`: bit `i % 64` of word `i / 64` is set exactly where
/// machine `i` is privileged, and every bit past the last machine is clear. For at most 256 machines, one a bit.
pub fn privileged_mask(s: &[u8], out: &mut [u64; 4])
    requires low { 2 ≤ length s.now }
    requires high { length s.now ≤ mask_limit }
    ensures { IsMaskOf mask_limit s.now out.new }
{
    write_hits(&Privileged(s), out);
}

/// The number of privileged machines.
pub fn privileged_count(s: &[u8]) -> usize
    requires { 2 ≤ length s.now }
    ensures { result ≡ privileged_count s.now }
{
    count_hits(&Privileged(s))
}

/// The least privileged machine; there always is one.
pub fn first_privileged(s: &[u8]) -> usize
    requires { 2 ≤ length s.now }
    ensures least { result ≡ first_privileged s.now }
    ensures within { result < length s.now }
    ensures privileged { is_privileged s.now result ≡ true }
{
    let ring = Privileged(s);
    if ring.is_hit(0) {
        0
    } else {
        first_hit(&ring, 1)
    }
}

/// The weight: each privileged machine but machine 0 counts with its distance to the end of the
/// ring. For at most 65,536 machines.
pub fn weight(s: &[u8]) -> u64
    requires low { 2 ≤ length s.now }
    requires high { length s.now ≤ value_limit }
    ensures { result ≡ weight s.now }
{
    weigh_hits(&Privileged(s))
}

/// Whether every value is below `limit`.
pub fn all_below(s: &[u8], limit: u32) -> bool
    requires { 2 ≤ length s.now }
    ensures { IsTrue result ↔ EachIndex s.now (λ k. slice_index s.now k < limit) }
{
    if limit > 255 {
        true
    } else {
        are_below(s, limit as u8)
    }
}

/// Whether a machine other than machine 0 holds `v`.
pub fn holds_past_first(s: &[u8], v: u8) -> bool
    requires { 2 ≤ length s.now }
    ensures held { IsTrue result
        ↔ ((k : ℕ) × (1 ≤ k) × (k < length s.now) × (slice_index s.now k ≡ v)) }
    ensures absent { result ≡ not (is_absent s.now v) }
{
    any_hit(&Holding {
        values: s,
        value: v,
    })
}

/// Whether the machines that hold the value of machine 0 are a prefix of the ring.
pub fn first_value_is_prefix(s: &[u8]) -> bool
    requires { 2 ≤ length s.now }
    ensures test { result ≡ first_value_is_prefix s.now }
    ensures prefix { IsTrue result ↔ ((p : ℕ) × IsPrefix s.now p) }
{
    !any_hit(&Returning(s))
}

/// Writes a bit for each machine into `out`: bit `i % 64` of word `i / 64` is set exactly where
/// machine `i` is privileged, and every bit past the last machine is clear. For at most 1,024 machines, one a bit.
pub fn wide_mask(s: &[u16], out: &mut [u64; 16])
    requires low { 2 ≤ length s.now }
    requires high { length s.now ≤ wide_mask_limit }
    ensures { IsMaskOf wide_mask_limit s.now out.new }
{
    write_hits(&WidePrivileged(s), out);
}

/// The number of privileged machines.
pub fn wide_count(s: &[u16]) -> usize
    requires { 2 ≤ length s.now }
    ensures { result ≡ privileged_count s.now }
{
    count_hits(&WidePrivileged(s))
}

/// The least privileged machine; there always is one.
pub fn wide_first(s: &[u16]) -> usize
    requires { 2 ≤ length s.now }
    ensures least { result ≡ first_privileged s.now }
    ensures within { result < length s.now }
    ensures privileged { is_privileged s.now result ≡ true }
{
    let machines = WidePrivileged(s);
    if machines.is_hit(0) {
        0
    } else {
        first_hit(&machines, 1)
    }
}

/// The weight: each privileged machine but machine 0 counts with its distance to the end of the
/// ring. For at most 65,536 machines.
pub fn wide_weight(s: &[u16]) -> u64
    requires low { 2 ≤ length s.now }
    requires high { length s.now ≤ value_limit }
    ensures { result ≡ weight s.now }
{
    weigh_hits(&WidePrivileged(s))
}

/// Whether every value is below `limit`.
pub fn wide_all_below(s: &[u16], limit: u32) -> bool
    requires { 2 ≤ length s.now }
    ensures { IsTrue result ↔ EachIndex s.now (λ k. slice_index s.now k < limit) }
{
    if limit > 65535 {
        true
    } else {
        are_wide_below(s, limit as u16)
    }
}

/// Whether a machine other than machine 0 holds `v`.
pub fn wide_holds_past_first(s: &[u16], v: u16) -> bool
    requires { 2 ≤ length s.now }
    ensures held { IsTrue result
        ↔ ((k : ℕ) × (1 ≤ k) × (k < length s.now) × (slice_index s.now k ≡ v)) }
    ensures absent { result ≡ not (is_absent s.now v) }
{
    any_hit(&WideHolding {
        values: s,
        value: v,
    })
}

/// Whether the machines that hold the value of machine 0 are a prefix of the ring.
pub fn wide_first_value_is_prefix(s: &[u16]) -> bool
    requires { 2 ≤ length s.now }
    ensures test { result ≡ first_value_is_prefix s.now }
    ensures prefix { IsTrue result ↔ ((p : ℕ) × IsPrefix s.now p) }
{
    // Two searches: a test of both neighbours at once would load and compare twice as much.
    let value = s[0];
    let end = first_late_hit(&WideDiffering { values: s, value }, 1);
    if end == s.len() {
        return true;
    }
    !any_hit(&WideHolding {
        values: &s[end..],
        value,
    })
}
