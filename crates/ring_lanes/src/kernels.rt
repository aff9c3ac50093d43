// The kernels, over any test of the machines.
//
// Each takes machine 0 by itself, then blocks of 32 machines. The rest at the end, fewer than
// 32 machines, comes from the block of the last 32. To count and to find, a ring of 9 to 32 machines
// is read by blocks of 8 in the same way; any other small ring is read one machine at a time.
ghost use Rattle.std.specs.Prelude.{◌≡◌, ℕ, ◌+◌, ◌-◌, ◌*◌, ◌≤◌, ◌<◌, Bool, true, false, slice_index, length, if◌then◌else◌};
ghost use Rattle.ring_model.specs.Limits.{value_limit};
ghost use Rattle.ring_lanes.specs.Hits.{mask_from, count_from, within, weight_from};

use crate::probe::Probe;

// The tests of the machines from `i` to the end, fewer than 32: the block of the last 32 without
// the machines below `i`, which earlier blocks had.
#[inline(always)]
fn last_hits<P: Probe>(p: &P, i: usize) -> u64
    requires long { 33 ≤ P.size p.now }
    requires high { i ≤ P.size p.now }
    requires near { P.size p.now < i + 32 }
    ensures { result ≡ mask_from (P.hit p.now) i (P.size p.now - i) }
{
    let n = p.len();
    p.hits(n - 32) >> (32 - (n - i))
}

// The same with blocks of 8.
#[inline(always)]
fn last_few_hits<P: Probe>(p: &P, i: usize) -> u64
    requires long { 9 ≤ P.size p.now }
    requires high { i ≤ P.size p.now }
    requires near { P.size p.now < i + 8 }
    ensures { result ≡ mask_from (P.hit p.now) i (P.size p.now - i) }
{
    let n = p.len();
    p.few_hits(n - 8) >> (8 - (n - i))
}

// How many machines pass.
#[inline(always)]
#[tactic(auto, using(crate::proofs::Blocks::counting))]
pub(crate) fn count_hits<P: Probe>(p: &P) -> usize
    requires { 1 ≤ P.size p.now }
    ensures { result ≡ count_from (P.hit p.now) 0 (P.size p.now) }
{
    let n = p.len();
    if n <= 32 {
        return count_few(p);
    }
    let mut count: usize = 0;
    if p.is_hit(0) {
        count += 1;
    }
    let mut i: usize = 1;
    while n - i >= 32 {
        count += p.hits(i).count_ones() as usize;
        i += 32;
    }
    count + last_hits(p, i).count_ones() as usize
}

// The same, by blocks of 8.
#[inline(always)]
#[tactic(auto, using(crate::proofs::Blocks::counting))]
fn count_few<P: Probe>(p: &P) -> usize
    requires { 1 ≤ P.size p.now }
    ensures { result ≡ count_from (P.hit p.now) 0 (P.size p.now) }
{
    let n = p.len();
    if n <= 8 {
        return count_each(p);
    }
    let mut count: usize = 0;
    if p.is_hit(0) {
        count += 1;
    }
    let mut i: usize = 1;
    while n - i >= 8 {
        count += p.few_hits(i).count_ones() as usize;
        i += 8;
    }
    count + last_few_hits(p, i).count_ones() as usize
}

// The same, one machine at a time.
#[inline(always)]
#[tactic(auto, using(crate::proofs::Blocks::counting))]
fn count_each<P: Probe>(p: &P) -> usize
    requires { 1 ≤ P.size p.now }
    ensures { result ≡ count_from (P.hit p.now) 0 (P.size p.now) }
{
    let n = p.len();
    let mut count: usize = 0;
    let mut i: usize = 0;
    while i < n {
        if p.is_hit(i) {
            count += 1;
        }
        i += 1;
    }
    count
}

// The least machine from `from` on that passes, or the number of machines.
#[inline(always)]
#[tactic(auto, using(crate::proofs::Blocks::finding))]
pub(crate) fn first_hit<P: Probe>(p: &P, from: usize) -> usize
    requires low { 1 ≤ from }
    requires high { from ≤ P.size p.now }
    ensures low { from ≤ result }
    ensures high { result ≤ P.size p.now }
    ensures before { (k : ℕ) → from ≤ k → k < result → P.hit p.now k ≡ false }
    ensures here { result < P.size p.now → P.hit p.now result ≡ true }
{
    let n = p.len();
    if n <= 32 {
        return first_of_few(p, from);
    }
    let mut i = from;
    while n - i >= 32 {
        let hits = p.hits(i);
        if hits != 0 {
            return i + hits.trailing_zeros() as usize;
        }
        i += 32;
    }
    let hits = last_hits(p, i);
    if hits != 0 {
        i + hits.trailing_zeros() as usize
    } else {
        n
    }
}

// The same, by blocks of 8.
#[inline(always)]
#[tactic(auto, using(crate::proofs::Blocks::finding))]
fn first_of_few<P: Probe>(p: &P, from: usize) -> usize
    requires low { 1 ≤ from }
    requires high { from ≤ P.size p.now }
    ensures low { from ≤ result }
    ensures high { result ≤ P.size p.now }
    ensures before { (k : ℕ) → from ≤ k → k < result → P.hit p.now k ≡ false }
    ensures here { result < P.size p.now → P.hit p.now result ≡ true }
{
    let n = p.len();
    if n <= 8 {
        return first_of_each(p, from);
    }
    let mut i = from;
    while n - i >= 8 {
        let hits = p.few_hits(i);
        if hits != 0 {
            return i + hits.trailing_zeros() as usize;
        }
        i += 8;
    }
    let hits = last_few_hits(p, i);
    if hits != 0 {
        i + hits.trailing_zeros() as usize
    } else {
        n
    }
}

// The same, one machine at a time.
#[inline(always)]
fn first_of_each<P: Probe>(p: &P, from: usize) -> usize
    requires low { 1 ≤ from }
    requires high { from ≤ P.size p.now }
    ensures low { from ≤ result }
    ensures high { result ≤ P.size p.now }
    ensures before { (k : ℕ) → from ≤ k → k < result → P.hit p.now k ≡ false }
    ensures here { result < P.size p.now → P.hit p.now result ≡ true }
{
    let n = p.len();
    let mut i = from;
    while i < n {
        if p.is_hit(i) {
            return i;
        }
        i += 1;
    }
    n
}

// The same, for a search that mostly ends at once or far on: machine `from` is tested by itself, and
// then two blocks are joined before each test, as long as the machines that are left are many enough
// for that to be faster.
#[inline(always)]
pub(crate) fn first_late_hit<P: Probe>(p: &P, from: usize) -> usize
    requires low { 1 ≤ from }
    requires high { from ≤ P.size p.now }
    ensures low { from ≤ result }
    ensures high { result ≤ P.size p.now }
    ensures before { (k : ℕ) → from ≤ k → k < result → P.hit p.now k ≡ false }
    ensures here { result < P.size p.now → P.hit p.now result ≡ true }
{
    let n = p.len();
    if from < n && p.is_hit(from) {
        return from;
    }
    let mut i = from;
    while n - i >= 256 {
        let left = p.hits(i);
        let right = p.hits(i + 32);
        if (left | right) != 0 {
            break;
        }
        i += 64;
    }
    first_hit(p, i)
}

// Whether one of the 128 machines before machine `end` passes: their four blocks are joined before
// the one test.
#[inline(always)]
fn is_hit_among<P: Probe>(p: &P, end: usize) -> bool
    requires low { 129 ≤ end }
    requires high { end ≤ P.size p.now }
    ensures found { result ≡ true → (k : ℕ) × (end - 128 ≤ k) × (k < end) × (P.hit p.now k ≡ true) }
    ensures none { result ≡ false → (k : ℕ) → end - 128 ≤ k → k < end → P.hit p.now k ≡ false }
{
    let first = p.hits(end - 128);
    let second = p.hits(end - 96);
    let third = p.hits(end - 64);
    let fourth = p.hits(end - 32);
    ((first | second) | (third | fourth)) != 0
}

// Whether a machine from 1 on passes. The last 128 machines may overlap those before them, since a
// machine that is tested twice makes no difference.
#[inline(always)]
pub(crate) fn any_hit<P: Probe>(p: &P) -> bool
    requires { 1 ≤ P.size p.now }
    ensures found { result ≡ true
        → (k : ℕ) × (1 ≤ k) × (k < P.size p.now) × (P.hit p.now k ≡ true) }
    ensures none { result ≡ false → (k : ℕ) → 1 ≤ k → k < P.size p.now → P.hit p.now k ≡ false }
{
    let n = p.len();
    if n <= 128 {
        return first_hit(p, 1) < n;
    }
    let mut i: usize = 1;
    while n - i > 128 {
        i += 128;
        if is_hit_among(p, i) {
            return true;
        }
    }
    is_hit_among(p, n)
}

// The test of machine 0 as a bit.
#[inline(always)]
fn first_bit<P: Probe>(p: &P) -> u64
    requires { 1 ≤ P.size p.now }
    ensures { result ≡ (if P.hit p.now 0 then 1 else 0) }
{
    if p.is_hit(0) { 1 } else { 0 }
}

// Half a word of the mask: bit `k` is set exactly where there is a machine `base + k` and it passes.
#[inline(always)]
#[tactic(auto, using(crate::proofs::Words::halving))]
fn half_word<P: Probe>(p: &P, base: usize) -> u64
    requires { base ≤ value_limit }
    ensures { result ≡ mask_from (within (P.size p.now) (P.hit p.now)) base 32 }
{
    let n = p.len();
    if base >= 1 && base <= n && n - base >= 32 {
        return p.hits(base);
    }
    if base == 0 && n >= 33 {
        return (p.hits(1) * 2 + first_bit(p)) % 4294967296;
    }
    let mut bits: u64 = 0;
    let mut k: usize = 32;
    while k > 0 {
        k -= 1;
        bits *= 2;
        if base + k < n && p.is_hit(base + k) {
            bits += 1;
        }
    }
    bits
}

// A word of the mask, for the machines from `base` on.
#[inline(always)]
#[tactic(auto, using(crate::proofs::Words::word_is, crate::proofs::Words::mask_small))]
fn word<P: Probe>(p: &P, base: usize) -> u64
    requires { base ≤ 65500 }
    ensures { result ≡ mask_from (within (P.size p.now) (P.hit p.now)) base 64 }
{
    half_word(p, base) + half_word(p, base + 32) * 4294967296
}

// A bit for each machine, set where it passes; the bits past the last machine are clear.
#[inline(always)]
pub(crate) fn write_hits<P: Probe>(p: &P, out: &mut [u64])
    requires { length out.old ≤ 64 }
    ensures { (w : ℕ) → w < length out.old
        → slice_index out.new w ≡ mask_from (within (P.size p.now) (P.hit p.now)) (64 * w) 64 }
{
    for w in 0..out.len() {
        out[w] = word(p, 64 * w);
    }
}

// The sum of the places of the bits that are set: each mask keeps the places that have one power of
// two in them.
#[inline(always)]
fn places(hits: u64) -> u64
    ensures { (p : ℕ → Bool) → (n a m : ℕ) → m ≤ 32 → a + m ≤ n → hits ≡ mask_from p a m
        → weight_from p n a m + result ≡ count_from p a m * (n - a) }
{
    let ones = (hits & 0xAAAA_AAAA).count_ones() as u64;
    let twos = (hits & 0xCCCC_CCCC).count_ones() as u64;
    let fours = (hits & 0xF0F0_F0F0).count_ones() as u64;
    let eights = (hits & 0xFF00_FF00).count_ones() as u64;
    let sixteens = (hits & 0xFFFF_0000).count_ones() as u64;
    ones + 2 * (twos + 2 * (fours + 2 * (eights + 2 * sixteens)))
}

// The sum of n - i over the machines i from 1 on that pass, where n is the number of machines.
#[inline(always)]
pub(crate) fn weigh_hits<P: Probe>(p: &P) -> u64
    requires low { 1 ≤ P.size p.now }
    requires high { P.size p.now ≤ value_limit }
    ensures { result ≡ weight_from (P.hit p.now) (P.size p.now) 1 (P.size p.now - 1) }
{
    let n = p.len();
    let mut total: u64 = 0;
    let mut i: usize = 1;
    while n - i >= 32 {
        let hits = p.hits(i);
        total += hits.count_ones() as u64 * (n - i) as u64 - places(hits);
        i += 32;
    }
    if n > 32 {
        let hits = last_hits(p, i);
        return total + (hits.count_ones() as u64 * (n - i) as u64 - places(hits));
    }
    while i < n {
        if p.is_hit(i) {
            total += (n - i) as u64;
        }
        i += 1;
    }
    total
}
