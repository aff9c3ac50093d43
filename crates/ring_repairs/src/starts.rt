//! Where a trial starts.
ghost use Rattle.std.specs.Prelude.{◌≡◌, ◌<◌, ◌≤◌, ◌-◌, ◌^◌, ◌++◌, ◌∷◌, [], ℕ, List, length, MatchOption};
ghost use Rattle.ring_state.specs.Sizes.{size_of};
ghost use Rattle.ring_repairs.specs.Draws.{draw};
ghost use Rattle.ring_repairs.specs.Starts.{drawn_values, after_values, hits_with, hit_by, faulty, numbered, states, start_values, start_left};
ghost use Rattle.ring_repairs.specs.Limits.{state_limit};

use crate::draws::draw;
use crate::limits::STATE_LIMIT;
use rand_pcg::Lcg64Xsh32;
use ring_state::{Params, RingState};

/// Where each trial starts.
#[derive(Clone, Copy, Debug, PartialEq, Eq)]
pub enum Start {
    /// Any state, each as likely as each other.
    Any,
    /// A settled ring in which this many machines, each choice of them as likely as each other, then got drawn values; at most n.
    Faults(u32),
    /// Each state, up to adding a number to all values.
    All,
}

/// Writes a drawn value into each machine.
fn write_any(words: &mut Lcg64Xsh32, ring: &mut RingState)
    ensures values { ring.new.values
        ≡ drawn_values ring.old.k words.old (length ring.old.values) }
    ensures same { ring.new.k ≡ ring.old.k }
    ensures words { words.new ≡ after_values ring.old.k words.old (length ring.old.values) }
{
    let size = ring.params();
    for machine in 0..size.n() {
        let value = draw(words, size.k());
        ring.write(machine, value);
    }
}

/// The value of the next machine, where `among` machines are left, and `left` of them are still to be hit: a drawn value below `k`
/// if it is one of these, else `old`.
fn value_or_hit(words: &mut Lcg64Xsh32, left: &mut u32, among: u32, k: u32, old: u32) -> u32
    requires among { 0 < among }
    requires k { old < k }
    ensures hit { (values : List ℕ) → hits_with (values ++ result ∷ []) left.new words.new
        ≡ hit_by k old (hits_with values left.old words.old) (draw among words.old) }
    ensures below { result < k }
{
    if draw(words, among) < *left {
        *left -= 1;
        draw(words, k)
    } else {
        old
    }
}

/// Writes the values of a settled ring with this many faults.
fn write_faults(faults: u32, words: &mut Lcg64Xsh32, ring: &mut RingState)
    ensures values { ring.new.values ≡ (faulty (size_of ring.old) faults words.old).values }
    ensures same { ring.new.k ≡ ring.old.k }
    ensures words { words.new ≡ (faulty (size_of ring.old) faults words.old).words }
{
    let size = ring.params();
    let n = size.n();
    let k = size.k();
    let place = draw(words, n);
    let mut left = faults;
    for machine in 0..n {
        let settled = if machine <= place { 1 } else { 0 };
        let value = value_or_hit(words, &mut left, n - machine, k, settled);
        ring.write(machine, value);
    }
}

/// Writes the values of the state of this number.
fn write_numbered(number: u64, ring: &mut RingState)
    ensures values { ring.new.values ≡ numbered (size_of ring.old) number }
    ensures same { ring.new.k ≡ ring.old.k }
{
    let size = ring.params();
    let k = size.k() as u64;
    ring.write(0, 0);
    let mut left = number;
    for machine in 1..size.n() {
        let digit = left % k;
        ring.write(machine, digit as u32);
        left /= k;
    }
}

/// Writes the values of a start, whose state has this number.
pub(crate) fn write_start(start: Start, number: u64, words: &mut Lcg64Xsh32, ring: &mut RingState)
    ensures values { ring.new.values ≡ start_values start (size_of ring.old) number words.old }
    ensures same { ring.new.k ≡ ring.old.k }
    ensures words { words.new ≡ start_left start (size_of ring.old) words.old }
{
    match start {
        Start::Any => write_any(words, ring),
        Start::Faults(faults) => write_faults(faults, words, ring),
        Start::All => write_numbered(number, ring),
    }
}

/// A power, if it is no more than the limit of states.
fn power_within(base: u32, exponent: u32) -> Option<u64>
    requires { 1 ≤ base }
    ensures { MatchOption result (state_limit < base ^ exponent)
        (λ power. (power ≡ base ^ exponent) × (power ≤ state_limit)) }
{
    let mut power: u64 = 1;
    for _ in 0..exponent {
        power *= base as u64;
        if power > STATE_LIMIT {
            return None;
        }
    }
    Some(power)
}

/// How many states a start goes through, if they are no more than the limit.
pub(crate) fn states(start: Start, size: &Params) -> Option<u64>
    ensures { MatchOption result (state_limit < states start size.now)
        (λ count. (count ≡ states start size.now) × (count ≤ state_limit)) }
{
    let n = size.n(); // says: it is a size
    match start {
        Start::All => power_within(size.k(), n - 1),
        _ => Some(1),
    }
}
