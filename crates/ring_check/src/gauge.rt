//! The measures of a ring's values, kept while they change one by one.

ghost use Rattle.std.specs.Prelude.{◌≡◌, ℕ, ◌+◌, ◌-◌, ◌*◌, ◌<◌, ◌≤◌, ◌^◌, length, IfOk, IfSome, vec_len, slice_index, slice_set};
ghost use Rattle.ring_model.specs.Limits.{machine_limit, value_limit};
ghost use Rattle.ring_model.specs.Ring.{ring_with, IsRing, is_privileged, privileged_count, first_privileged, right_neighbour, weight_at, is_absent, written, lead, rest};
ghost use Rattle.ring_check.specs.Gauges.{bit_of, both_of, ring_of, holders, IsGauge};

use crate::measures::{
    first_privileged, first_value_is_prefix, is_privileged, privileged_count, weight,
};
use std::alloc::{AllocError, Global};

/// A ring's values, and how many machines are privileged, the weight, and how many machines hold each value. A write
/// changes one value, so it looks at two machines, and the rest of a ring is known without a look at each.
#[derive(Drop)]
pub struct Gauge {
    pub(crate) k: u32,
    pub(crate) values: Vec<u32>,
    pub(crate) privileged: u64,
    pub(crate) weight: u64,
    /// For each value below K, how many machines but machine 0 hold it.
    pub(crate) holders: Vec<u32>,
}

/// The part of two neighbours in the sums.
#[derive(Clone, Copy)]
struct Share {
    privileged: u64,
    weight: u64,
}

/// The machine to the right.
fn right_of(values: &[u32], machine: usize) -> usize
    requires { machine < length values.now }
    ensures is { result ≡ right_neighbour values.now machine }
    ensures within { result < length values.now }
{
    if machine + 1 < values.len() {
        machine + 1
    } else {
        0
    }
}

/// The part of a machine in the sums.
fn share_of_one(values: &[u32], machine: usize) -> Share
    requires within { machine < length values.now }
    requires short { length values.now ≤ machine_limit }
    ensures privileged { result.privileged ≡ bit_of values.now machine }
    ensures weight { result.weight ≡ weight_at values.now machine }
    ensures one { result.privileged ≤ 1 }
    ensures few { result.weight ≤ value_limit }
{
    if !is_privileged(values, machine) {
        Share {
            privileged: 0,
            weight: 0,
        }
    } else if machine == 0 {
        Share {
            privileged: 1,
            weight: 0,
        }
    } else {
        Share {
            privileged: 1,
            weight: (values.len() - machine) as u64,
        }
    }
}

/// The part of a machine and of the one to its right in the sums: all that changes with the value of that machine.
fn share_of(values: &[u32], machine: usize) -> Share
    requires within { machine < length values.now }
    requires short { length values.now ≤ machine_limit }
    ensures privileged { result.privileged
        ≡ both_of (bit_of values.now) machine (right_neighbour values.now machine) }
    ensures weight { result.weight
        ≡ both_of (weight_at values.now) machine (right_neighbour values.now machine) }
    ensures two { result.privileged ≤ 2 }
    ensures few { result.weight ≤ 131072 }
{
    let right = right_of(values, machine);
    let own = share_of_one(values, machine);
    if right == machine {
        return own;
    }
    let other = share_of_one(values, right);
    Share {
        privileged: own.privileged + other.privileged,
        weight: own.weight + other.weight,
    }
}

/// One machine less holds a value, if it is one of those that are counted.
fn lower(holders: &mut Vec<u32>, value: u32)
    requires { value < vec_len holders.old → 1 ≤ slice_index holders.old.items value }
    ensures items { holders.new.items
        ≡ slice_set holders.old.items value (slice_index holders.old.items value - 1) }
    ensures len { vec_len holders.new ≡ vec_len holders.old }
{
    let place = value as usize;
    if place < holders.len() {
        holders[place] -= 1;
    }
}

/// One machine more holds a value, if it is one of those that are counted.
fn raise(holders: &mut Vec<u32>, value: u32)
    requires { slice_index holders.old.items value + 1 < 2 ^ 32 }
    ensures items { holders.new.items
        ≡ slice_set holders.old.items value (slice_index holders.old.items value + 1) }
    ensures len { vec_len holders.new ≡ vec_len holders.old }
{
    let place = value as usize;
    if place < holders.len() {
        holders[place] += 1;
    }
}

/// The machines but machine 0, counted by their values.
fn count_holders(alloc: Global, k: u32, values: &[u32]) -> Result<Vec<u32>, AllocError>
    requires one { 1 ≤ length values.now }
    requires few { length values.now ≤ machine_limit }
    ensures len { IfOk result (λ counted. vec_len counted ≡ k) }
    ensures held { IfOk result
        (λ counted. (v : ℕ) → v < k → slice_index counted.items v ≡ holders values.now v) }
{
    let mut counted = Vec::from_elem(alloc, 0, k as usize)?;
    for i in 1..values.len() {
        raise(&mut counted, values[i]);
    }
    Ok(counted)
}

impl Gauge {
    /// Measures these values: the one look at each machine.
    ///
    /// # Errors
    ///
    /// If there is no room for the values, and for a count of each of the K values.
    pub fn new(alloc: Global, k: u32, values: &[u32]) -> Result<Gauge, AllocError>
        requires positive { 0 < k }
        requires some { 1 ≤ length values.now }
        requires few { length values.now ≤ machine_limit }
        ensures gauge { IfOk result (λ gauge. IsGauge gauge) }
        ensures ring { IfOk result (λ gauge. ring_of gauge ≡ ring_with k values.now) }
    {
        let holders = count_holders(alloc, k, values)?;
        Ok(Gauge {
            k,
            values: Vec::from_slice(alloc, values)?,
            privileged: privileged_count(values) as u64,
            weight: weight(values),
            holders,
        })
    }

    /// The values of the machines.
    pub fn values(&self) -> &[u32]
        ensures { result.now ≡ self.now.values.items }
    {
        &self.values
    }

    /// The value of a machine.
    fn value(&self, machine: usize) -> u32
        requires { machine < vec_len self.now.values }
        ensures { result ≡ slice_index self.now.values.items machine }
    {
        self.values[machine]
    }

    /// Whether no machine but machine 0 has the value.
    fn is_absent(&self, value: u32) -> bool
        requires gauge { IsGauge self.now }
        requires below { value < self.now.k }
        ensures { result ≡ is_absent self.now.values.items value }
    {
        self.holders[value as usize] == 0
    }

    /// Writes a value into a machine.
    pub fn write(&mut self, machine: usize, value: u32)
        requires gauge { IsGauge self.old }
        requires within { machine < vec_len self.old.values }
        ensures gauge { IsGauge self.new }
        ensures ring { ring_of self.new ≡ written (ring_of self.old) machine value }
    {
        let old = self.value(machine);
        let before = share_of(&self.values, machine);
        self.values[machine] = value;
        let after = share_of(&self.values, machine);
        self.privileged = self.privileged - before.privileged + after.privileged;
        self.weight = self.weight - before.weight + after.weight;
        if machine > 0 {
            lower(&mut self.holders, old);
            raise(&mut self.holders, value);
        }
    }

    /// Writes a value into a machine that may have it already.
    pub(crate) fn settle_on(&mut self, machine: usize, value: u32)
        requires gauge { IsGauge self.old }
        requires within { machine < vec_len self.old.values }
        ensures gauge { IsGauge self.new }
        ensures ring { ring_of self.new ≡ written (ring_of self.old) machine value }
    {
        if self.value(machine) != value {
            self.write(machine, value);
        }
    }

    /// Goes over to other values of as many machines: one write for each that differs.
    pub fn follow(&mut self, values: &[u32])
        requires gauge { IsGauge self.old }
        requires same { length values.now ≡ length (ring_of self.old).values }
        ensures gauge { IsGauge self.new }
        ensures ring { ring_of self.new ≡ ring_with (ring_of self.old).k values.now }
    {
        for i in 0..values.len() {
            self.settle_on(i, values[i]);
        }
    }

    /// How many machines are privileged.
    pub(crate) fn privileged_count(&self) -> u32
        requires { IsGauge self.now }
        ensures { result ≡ privileged_count (ring_of self.now).values }
    {
        self.privileged as u32
    }

    /// The only machine that is privileged, if one is: the weight says which.
    fn only_privileged(&self) -> Option<usize>
        requires gauge { IsGauge self.now }
        requires ring { IsRing (ring_of self.now) }
        ensures is { IfSome result
            (λ machine. machine ≡ first_privileged (ring_of self.now).values) }
        ensures within { IfSome result (λ machine. machine < vec_len self.now.values) }
    {
        let n = self.values.len();
        let machine = if self.weight == 0 {
            0
        } else {
            n.saturating_sub(self.weight as usize)
        };
        if self.privileged == 1 && machine < n && is_privileged(&self.values, machine) {
            Some(machine)
        } else {
            None
        }
    }

    /// The least privileged machine.
    pub(crate) fn first_privileged(&self) -> u32
        requires gauge { IsGauge self.now }
        requires ring { IsRing (ring_of self.now) }
        ensures { result ≡ first_privileged (ring_of self.now).values }
    {
        match self.only_privileged() {
            Some(machine) => machine as u32,
            None => first_privileged(&self.values) as u32,
        }
    }

    /// How far machine 0 has to step until no other machine holds its value, and 0 if these values are a prefix.
    fn lead(&self) -> u64
        requires { IsGauge self.now }
        ensures value { result ≡ lead (ring_of self.now) }
        ensures small { result ≤ 2 ^ 32 }
    {
        if first_value_is_prefix(&self.values) {
            return 0;
        }
        let first = self.value(0) as u64;
        let k = self.k as u64;
        for steps in 1..k + 1 {
            if self.is_absent(((first + steps) % k) as u32) {
                return steps;
            }
        }
        k + 1
    }

    /// An upper bound of the granted passes that are left until the ring is settled.
    pub fn rest(&self) -> u64
        requires { IsGauge self.now }
        ensures { result ≡ rest (ring_of self.now) }
    {
        if self.privileged == 1 {
            0
        } else {
            self.weight + self.values.len() as u64 * self.lead()
        }
    }
}
