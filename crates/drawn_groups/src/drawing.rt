//! Groups that are drawn.
ghost use Rattle.std.specs.Prelude.{◌≡◌, ◌+◌, ◌*◌, ◌/◌, ◌<◌, ◌≤◌, ◌&&◌, ◌++◌, ◌^◌, nat_lt, length, take};
ghost use Rattle.rand_pcg.specs.Pcg.{pcg32};
ghost use Rattle.ring_model.specs.Limits.{machine_limit};
ghost use Rattle.machine_masks.specs.Privileges.{AreMarked};
ghost use Rattle.drawn_groups.specs.Drawn.{drawn, group};
ghost use Rattle.drawn_groups.specs.Blocks.{blocks, machines_of};

use machine_masks::Machines;
use rand_core::utils::NextWord;
use rand_pcg::Lcg64Xsh32;
use ring_state::RingState;

// How many sets are looked at for one group.
const SET_LIMIT: u32 = 64;

/// The next word.
#[inline(always)]
fn next_word(words: &mut Lcg64Xsh32) -> u32
    ensures { (result, words.new) ≡ pcg32 words.old }
{
    words.next_word()
}

/// Puts the machines of a block whose bit is 1 after the first `count` ones of `machines`; machine `first` has the least bit. Returns
/// how many there are then.
#[inline]
fn put_members(chosen: u64, first: u32, machines: &mut [u32], count: usize) -> usize
    requires block { chosen < 2 ^ 32 }
    requires first { first < machine_limit }
    requires room { count + 32 ≤ length machines.old }
    ensures members { take result machines.new
        ≡ take count machines.old ++ machines_of chosen first 32 }
    ensures few { result ≤ count + 32 }
    ensures same { length machines.new ≡ length machines.old }
{
    let ones = chosen.count_ones();
    let mut left = chosen;
    for turn in 0..ones {
        machines[count + turn as usize] = first + left.trailing_zeros();
        left &= left - 1;
    }
    count + ones as usize
}

/// Draws a set of the privileged machines, each set as likely as each other; its machines, rising, are the first ones of `machines`.
/// Returns how many there are.
#[inline]
fn draw_members(
    words: &mut Lcg64Xsh32,
    ring: &RingState,
    privileged: &Machines,
    machines: &mut [u32],
) -> usize
    requires marked { AreMarked ring.now.values privileged.now }
    requires room { 32 * blocks (length ring.now.values) ≤ length machines.old }
    ensures members { take result machines.new ≡ (drawn ring.now.values words.old).members }
    ensures words { words.new ≡ (drawn ring.now.values words.old).words }
    ensures few { result ≤ length machines.old }
    ensures same { length machines.new ≡ length machines.old }
{
    let n = ring.params().n();
    let mut count: usize = 0;
    for block in 0..(n + 31) / 32 {
        let chosen = privileged.block(block) & next_word(words) as u64;
        count = put_members(chosen, 32 * block, machines, count);
    }
    count
}

/// Whether a set of machines is not empty and not all `n`.
fn is_group(count: usize, n: usize) -> bool
    ensures { result ≡ nat_lt 0 count && nat_lt count n }
{
    0 < count && count < n
}

/// Draws a group of privileged machines, not empty and not all, each as likely as each other; its machines, rising, are the first
/// ones of `machines`. Returns how many there are.
#[inline]
pub(crate) fn draw_group(
    words: &mut Lcg64Xsh32,
    ring: &RingState,
    privileged: &Machines,
    machines: &mut [u32],
) -> usize
    requires marked { AreMarked ring.now.values privileged.now }
    requires room { 32 * blocks (length ring.now.values) ≤ length machines.old }
    ensures group { take result machines.new ≡ (group ring.now.values words.old).0 }
    ensures words { words.new ≡ (group ring.now.values words.old).1 }
    ensures some { 1 ≤ result }
    ensures few { result ≤ length machines.old }
    ensures same { length machines.new ≡ length machines.old }
{
    let n = ring.params().n() as usize;
    for _ in 0..SET_LIMIT {
        let count = draw_members(words, ring, privileged, machines);
        if is_group(count, n) {
            return count;
        }
    }
    machines[0] = ring.first();
    1
}
