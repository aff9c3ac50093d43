//! Plain programs: each definition computed on a slice of values by the shortest loop that does it, and
//! proved equal to the definition. Tests compare with them, and callers that are in no hurry use them.
//!
//! A ring is its machines' values and the number K. No function here needs a true ring, with values
//! below K and K at least n: each equals its definition on every list that its `requires` allow.

ghost use Rattle.std.specs.Prelude.{◌≡◌, ℕ, ◌+◌, ◌^◌, ◌<◌, ◌≤◌, ◌↔◌, length, IsTrue};
ghost use Rattle.ring_model.specs.Limits.{value_limit};
ghost use Rattle.ring_model.specs.Ring.{ring_with, IsRing, is_privileged, moved, privileged_count, first_privileged, is_settled, weight, is_absent, first_value_is_prefix, lead, rest, bound};
ghost use Rattle.ring_model.specs.Runs.{after_passes, granted_passes, AreBelow};

/// Whether these are the values of a ring: at least two machines, at least as many values as machines, each below K.
pub fn is_ring(k: u32, values: &[u32]) -> bool
    ensures { IsTrue result ↔ IsRing (ring_with k values.now) }
{
    if values.len() < 2 || values.len() > k as usize {
        return false;
    }
    for value in values {
        if *value >= k {
            return false;
        }
    }
    true
}

/// Whether the machine is privileged.
pub fn is_privileged(values: &[u32], machine: usize) -> bool
    requires { machine < length values.now }
    ensures { result ≡ is_privileged values.now machine }
{
    if machine == 0 {
        values[values.len() - 1] == values[0]
    } else {
        values[machine - 1] != values[machine]
    }
}

/// Moves the machine, privileged or not: machine 0 steps on modulo K, each other copies its left neighbour.
pub fn move_machine(k: u32, values: &mut [u32], machine: usize)
    requires positive { 0 < k }
    requires within { machine < length values.old }
    ensures { ring_with k values.new ≡ moved (ring_with k values.old) machine }
{
    values[machine] = if machine == 0 {
        ((values[0] as u64 + 1) % k as u64) as u32
    } else {
        values[machine - 1]
    };
}

/// How many machines are privileged.
pub fn privileged_count(values: &[u32]) -> usize
    ensures { result ≡ privileged_count values.now }
{
    let mut count: usize = 0;
    for machine in 0..values.len() {
        if is_privileged(values, machine) {
            count += 1;
        }
    }
    count
}

/// The least privileged machine.
pub fn first_privileged(values: &[u32]) -> usize
    ensures { result ≡ first_privileged values.now }
{
    for machine in 0..values.len() {
        if is_privileged(values, machine) {
            return machine;
        }
    }
    values.len()
}

/// Whether exactly one machine is privileged.
pub fn is_settled(values: &[u32]) -> bool
    ensures { result ≡ is_settled values.now }
{
    privileged_count(values) == 1
}

/// The weight: the sum of n - i over the privileged machines i but machine 0.
pub fn weight(values: &[u32]) -> u64
    requires some { 1 ≤ length values.now }
    requires short { length values.now ≤ value_limit }
    ensures value { result ≡ weight values.now }
    ensures within { result ≤ 2 ^ 32 }
{
    let mut sum: u64 = 0;
    for machine in 1..values.len() {
        if is_privileged(values, machine) {
            sum += (values.len() - machine) as u64;
        }
    }
    sum
}

/// Whether no machine but machine 0 has the value.
pub fn is_absent(values: &[u32], value: u32) -> bool
    ensures { result ≡ is_absent values.now value }
{
    for machine in 1..values.len() {
        if values[machine] == value {
            return false;
        }
    }
    true
}

/// Whether the machines that hold the value of machine 0 are a prefix of the ring.
pub fn first_value_is_prefix(values: &[u32]) -> bool
    ensures { result ≡ first_value_is_prefix values.now }
{
    for machine in 1..values.len() {
        if values[machine - 1] != values[0] && values[machine] == values[0] {
            return false;
        }
    }
    true
}

/// The lead: how far machine 0 has to step until no other machine holds its value, and 0 where only a
/// prefix holds it. K + 1 where there is no such step, which no ring has.
pub fn lead(k: u32, values: &[u32]) -> u64
    requires positive { 0 < k }
    requires some { 1 ≤ length values.now }
    ensures value { result ≡ lead (ring_with k values.now) }
    ensures within { result ≤ k + 1 }
{
    if first_value_is_prefix(values) {
        return 0;
    }
    for steps in 1..k as u64 + 1 {
        let value = (values[0] as u64 + steps) % k as u64;
        if is_absent(values, value as u32) {
            return steps;
        }
    }
    k as u64 + 1
}

/// The rest: at most this many moves are left before the ring is settled.
pub fn rest(k: u32, values: &[u32]) -> u64
    requires positive { 0 < k }
    requires some { 1 ≤ length values.now }
    requires short { length values.now ≤ value_limit }
    ensures { result ≡ rest (ring_with k values.now) }
{
    if is_settled(values) {
        0
    } else {
        weight(values) + values.len() as u64 * lead(k, values)
    }
}

/// No rest of a ring of n machines is more than this.
pub fn bound(n: u32) -> u64
    requires { n ≤ value_limit }
    ensures { result ≡ bound n }
{
    3 * n as u64 * (n as u64).saturating_sub(1) / 2
}

/// Passes each chosen machine in turn, and answers how many of the passes were granted.
pub fn follow(k: u32, values: &mut [u32], choices: &[u32]) -> u64
    requires positive { 0 < k }
    requires within { AreBelow (length values.old) choices.now }
    ensures ring { ring_with k values.new ≡ after_passes (ring_with k values.old) choices.now }
    ensures granted { result ≡ length (granted_passes (ring_with k values.old) choices.now) }
{
    let mut granted: u64 = 0;
    for choice in choices {
        let machine = *choice as usize;
        if is_privileged(values, machine) {
            move_machine(k, values, machine);
            granted += 1;
        }
    }
    granted
}
