//! The measures of a ring's values, by plain loops over them.

ghost use Rattle.std.specs.Prelude.{◌≡◌, ◌<◌, ◌≤◌, length};
ghost use Rattle.ring_model.specs.Limits.{value_limit};
ghost use Rattle.ring_model.specs.Ring.{is_privileged, privileged_count, first_privileged, weight, first_value_is_prefix};

/// Whether machine i is privileged.
pub(crate) fn is_privileged(values: &[u32], i: usize) -> bool
    requires { i < length values.now }
    ensures { result ≡ is_privileged values.now i }
{
    if i == 0 {
        values[values.len() - 1] == values[0]
    } else {
        values[i - 1] != values[i]
    }
}

/// How many machines are privileged.
pub(crate) fn privileged_count(values: &[u32]) -> usize
    ensures value { result ≡ privileged_count values.now }
    ensures within { result ≤ length values.now }
{
    let mut count: usize = 0;
    for i in 0..values.len() {
        if is_privileged(values, i) {
            count += 1;
        }
    }
    count
}

/// The least privileged machine.
pub(crate) fn first_privileged(values: &[u32]) -> usize
    requires { 2 ≤ length values.now }
    ensures value { result ≡ first_privileged values.now }
    ensures within { result ≤ length values.now }
{
    for i in 0..values.len() {
        if is_privileged(values, i) {
            return i;
        }
    }
    values.len()
}

/// Each privileged machine but machine 0 counts with its distance to the end of the ring.
pub(crate) fn weight(values: &[u32]) -> u64
    requires one { 1 ≤ length values.now }
    requires short { length values.now ≤ value_limit }
    ensures { result ≡ weight values.now }
{
    let mut sum: u64 = 0;
    for i in 1..values.len() {
        if is_privileged(values, i) {
            sum += (values.len() - i) as u64;
        }
    }
    sum
}

/// Whether the machines with the value of machine 0 are a prefix of the ring.
pub(crate) fn first_value_is_prefix(values: &[u32]) -> bool
    ensures { result ≡ first_value_is_prefix values.now }
{
    for i in 1..values.len() {
        if values[i - 1] != values[0] && values[i] == values[0] {
            return false;
        }
    }
    true
}
