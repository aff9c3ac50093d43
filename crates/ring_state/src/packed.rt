//! The state of a ring, in cells of one width.
ghost use Rattle.std.specs.Prelude.{◌≡◌, ◌<◌, ◌≤◌, length, map, not, slice_index, ℕ, ◌↔◌, IfOk, IsTrue, true};
ghost use Rattle.ring_model.specs.Ring.{Ring, is_privileged, privileged_count, first_privileged, weight, is_absent, first_value_is_prefix, IsPrefix, moved_value, written};
ghost use Rattle.ring_model.specs.Limits.{machine_limit};
ghost use Rattle.ring_lanes.specs.Masks.{IsMaskOf};
ghost use Rattle.ring_state.specs.Sizes.{IsRingState, size_of};

use crate::cells::Cell;
use crate::sizes::Params;
use std::alloc::{AllocError, Global};
use std::marker::Model;

/// A cell for each machine, and K. Contracts see the ring.
#[derive(Drop)]
pub(crate) struct Packed<C: Cell> {
    k: u32,
    cells: Vec<C>,
}

impl<C: Cell> Model for Packed<C> {
    ghost use Rattle.std.specs.Prelude.{◌≤◌, map};
    ghost use Rattle.ring_model.specs.Ring.{Ring};
    ghost use Rattle.ring_state.specs.Sizes.{IsRingState};

    ghost Value = { Ring };

    ghost view = { λ p. record { k = p.k; values = map C.number p.cells.items } };

    ghost invariant = { λ p.
        IsRingState (record { k = p.k; values = map C.number p.cells.items }) × (p.k ≤ C.most) };
}

impl<C: Cell> Packed<C> {
    /// The state with these values.
    pub(crate) fn new(alloc: Global, k: u32, values: &[u32]) -> Result<Packed<C>, AllocError>
        requires ring { IsRingState (record { k = k; values = values.now }) }
        requires most { k ≤ C.most }
        ensures ok { IfOk result (λ p. p ≡ record { k = k; values = values.now }) }
    {
        let mut cells = Vec::with_capacity(alloc, values.len())?;
        for v in values {
            cells.push(C::new(*v))?;
        }
        Ok(Packed { k, cells })
    }

    /// The ring's size.
    pub(crate) fn params(&self) -> Params
        ensures is { result ≡ size_of self.now }
        ensures ring { IsRingState self.now }
    {
        Params::of_ring(self.cells.len() as u32, self.k)
    }

    /// The value of machine `i`.
    #[inline(always)]
    pub(crate) fn get(&self, i: u32) -> u32
        requires { i < length self.now.values }
        ensures is { result ≡ slice_index self.now.values i }
        ensures below { result < self.now.k }
    {
        self.cells[i as usize].value()
    }

    /// Whether machine `i` is privileged.
    #[inline(always)]
    pub(crate) fn is_privileged(&self, i: u32) -> bool
        requires { i < length self.now.values }
        ensures { result ≡ is_privileged self.now.values i }
    {
        if i == 0 {
            self.get(self.cells.len() as u32 - 1) == self.get(0)
        } else {
            self.get(i - 1) != self.get(i)
        }
    }

    /// How many machines are privileged.
    #[tactic(auto, using(crate::proofs::Counts::few_privileged))]
    pub(crate) fn privileged(&self) -> u32
        ensures { result ≡ privileged_count self.now.values }
    {
        C::count(self.cells.as_slice()) as u32
    }

    /// The least privileged machine.
    pub(crate) fn first(&self) -> u32
        ensures is { result ≡ first_privileged self.now.values }
        ensures machine { result < length self.now.values }
        ensures privileged { is_privileged self.now.values result ≡ true }
    {
        C::first(self.cells.as_slice()) as u32
    }

    /// A bit for each machine.
    pub(crate) fn mask(&self, out: &mut [u64; 16])
        ensures { IsMaskOf machine_limit self.now.values out.new }
    {
        C::mask(self.cells.as_slice(), out);
    }

    /// The weight.
    pub(crate) fn weight(&self) -> u64
        ensures { result ≡ weight self.now.values }
    {
        C::weight(self.cells.as_slice())
    }

    /// Whether a machine other than machine 0 holds `v`.
    pub(crate) fn holds_past_first(&self, v: u32) -> bool
        requires { v < self.now.k }
        ensures held { IsTrue result
            ↔ ((i : ℕ)
            × (1 ≤ i)
            × (i < length self.now.values)
            × (slice_index self.now.values i ≡ v)) }
        ensures absent { result ≡ not (is_absent self.now.values v) }
    {
        C::holds_past_first(self.cells.as_slice(), v)
    }

    /// Whether the machines that hold the value of machine 0 are a prefix of the ring.
    pub(crate) fn first_value_is_prefix(&self) -> bool
        ensures test { result ≡ first_value_is_prefix self.now.values }
        ensures prefix { IsTrue result ↔ ((p : ℕ) × IsPrefix self.now.values p) }
    {
        C::first_value_is_prefix(self.cells.as_slice())
    }

    /// The value of machine `i` after its move, privileged or not.
    #[inline(always)]
    pub(crate) fn moved_value(&self, i: u32) -> u32
        requires { i < length self.now.values }
        ensures is { result ≡ moved_value self.now i }
        ensures below { result < self.now.k }
        ensures ring { IsRingState self.now }
    {
        if i == 0 {
            (self.get(0) + 1) % self.k
        } else {
            let left = i - 1;
            self.get(left)
        }
    }

    /// Writes `v` into machine `i`, and answers the value that was there.
    #[inline(always)]
    pub(crate) fn write(&mut self, i: u32, v: u32) -> u32
        requires machine { i < length self.old.values }
        requires value { v < self.old.k }
        ensures old { result ≡ slice_index self.old.values i }
        ensures new { self.new ≡ written self.old i v }
    {
        let own = i as usize;
        let old = self.cells[own];
        self.cells[own] = C::new(v);
        old.value()
    }

    /// An equal state.
    pub(crate) fn try_copy(&self, alloc: Global) -> Result<Packed<C>, AllocError>
        ensures ok { IfOk result (λ r. r ≡ self.now) }
    {
        let cells = Vec::from_slice(alloc, self.cells.as_slice())?;
        Ok(Packed { k: self.k, cells })
    }

    /// Becomes equal to a state of the same size.
    pub(crate) fn copy_from(&mut self, other: &Packed<C>)
        requires machines { length self.old.values ≡ length other.now.values }
        ensures { self.new ≡ other.now }
    {
        self.k = other.k;
        self.cells.copy_from_slice(other.cells.as_slice());
    }
}
