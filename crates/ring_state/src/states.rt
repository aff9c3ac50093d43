ghost use Rattle.std.specs.Prelude.{◌≡◌, ◌↔◌, ◌<◌, ◌≤◌, ◌-◌, ◌/◌, ◌%◌, ◌&&◌, if◌then◌else◌, nat_lt, not, ℕ, List, length, true, false, slice_index, IfOk, IfErr, IsTrue};
ghost use Rattle.ring_model.specs.Ring.{Ring, IsRing, is_privileged, privileged_count, first_privileged, weight, is_absent, first_value_is_prefix, rest, IsPrefix, moved, written};
ghost use Rattle.ring_model.specs.Closure.{IsClosed};
ghost use Rattle.ring_model.specs.Limits.{machine_limit};
ghost use Rattle.ring_lanes.specs.Masks.{IsMaskOf};
ghost use Rattle.ring_state.specs.Sizes.{IsRingState, size_of};
ghost use Rattle.ring_state.specs.StateFault.{IsFaultOf};

mod copies;

use crate::packed::Packed;
use crate::sizes::Params;
use std::alloc::{AllocError, Global};
use std::marker::Model;

/// The state of a ring: n machines, each with a value below K.
///
/// Contracts see K and the list of values. One byte is stored for each machine where K is at most 256, else two.
pub struct RingState {
    cells: Cells,
}

/// The state, by the width of its cells.
#[derive(Drop)]
enum Cells {
    Narrow(Packed<u8>),
    Wide(Packed<u16>),
}

impl Model for RingState {
    ghost use Rattle.ring_model.specs.Ring.{Ring};
    ghost use Rattle.ring_state.specs.Cells.{held, IsRightWidth};

    ghost Value = { Ring };

    ghost view = { λ s. held s.cells };

    ghost invariant = { λ s. IsRightWidth s.cells };
}

// By hand, so that whoever lets a state go calls this, and has no two cases for the two widths.
impl Drop for RingState {
    fn drop(self) {
        let RingState { cells: _ } = self;
    }
}

// Each question to a state goes to its cells, whichever their width.
macro_rules! of_either {
    ($cells:expr, $state:ident => $answer:expr) => {
        match $cells {
            Cells::Narrow($state) => $answer,
            Cells::Wide($state) => $answer,
        }
    };
}

// How many values a byte can hold.
const BYTE_VALUES: u32 = 256;

/// Why start values are refused.
#[derive(Clone, Copy, Debug, Drop, PartialEq, Eq)]
pub enum StateError {
    Length,
    /// The least index of a value that is not below K.
    Value(usize),
    OutOfMemory,
}

impl RingState {
    /// The state with these values, one for each machine of a ring of this size.
    ///
    /// # Errors
    ///
    /// The first that applies: `Length` where there are not n values, `Value(i)` with the least i whose
    /// value is not below K, `OutOfMemory`.
    pub fn from_values(alloc: Global, p: &Params, values: &[u32]) -> Result<RingState, StateError>
        ensures ok { IfOk result (λ r. (r ≡ record { k = p.now.k; values = values.now })
            × (length values.now ≡ p.now.n)
            × IsRingState r) }
        ensures err { IfErr result (λ e. IsFaultOf p.now values.now e) }
    {
        if values.len() != p.n() as usize {
            return Err(StateError::Length);
        }
        let k = p.k();
        for (i, v) in values.iter().enumerate() {
            if *v >= k {
                return Err(StateError::Value(i));
            }
        }
        let cells = if k <= BYTE_VALUES {
            Packed::new(alloc, k, values).map(Cells::Narrow)
        } else {
            Packed::new(alloc, k, values).map(Cells::Wide)
        };
        match cells {
            Ok(cells) => Ok(RingState { cells }),
            Err(_) => Err(StateError::OutOfMemory),
        }
    }

    /// The ring's size.
    pub fn params(&self) -> Params
        ensures is { result ≡ size_of self.now }
        ensures ring { IsRingState self.now }
    {
        of_either!(&self.cells, state => state.params())
    }

    /// The value of machine `i`, which is below n.
    pub fn get(&self, i: u32) -> u32
        requires { i < length self.now.values }
        ensures is { result ≡ slice_index self.now.values i }
        ensures below { result < self.now.k }
    {
        of_either!(&self.cells, state => state.get(i))
    }

    /// Whether machine `i`, which is below n, is privileged (Dijkstra 1974).
    pub fn is_privileged(&self, i: u32) -> bool
        requires { i < length self.now.values }
        ensures { result ≡ is_privileged self.now.values i }
    {
        of_either!(&self.cells, state => state.is_privileged(i))
    }

    /// How many machines are privileged, 1 to n.
    #[tactic(auto, using(crate::proofs::Counts::few_privileged))]
    pub fn privileged(&self) -> u32
        ensures is { result ≡ privileged_count self.now.values }
        ensures within { result ≤ length self.now.values }
    {
        of_either!(&self.cells, state => state.privileged())
    }

    /// The least privileged machine. There always is one.
    pub fn first(&self) -> u32
        ensures is { result ≡ first_privileged self.now.values }
        ensures machine { result < length self.now.values }
        ensures privileged { is_privileged self.now.values result ≡ true }
    {
        of_either!(&self.cells, state => state.first())
    }

    /// Writes a bit for each machine into `out`: bit `i % 64` of word `i / 64` is set exactly where
    /// machine `i` is privileged, and every bit past the last machine is clear.
    pub fn mask(&self, out: &mut [u64; 16])
        ensures { IsMaskOf machine_limit self.now.values out.new }
    {
        of_either!(&self.cells, state => state.mask(out));
    }

    /// The weight: each privileged machine but machine 0 counts with its distance to the end of the
    /// ring.
    pub fn weight(&self) -> u64
        ensures { result ≡ weight self.now.values }
    {
        of_either!(&self.cells, state => state.weight())
    }

    /// Whether a machine other than machine 0 holds `v`, which is below K.
    pub fn holds_past_first(&self, v: u32) -> bool
        requires { v < self.now.k }
        ensures held { IsTrue result
            ↔ ((i : ℕ)
            × (1 ≤ i)
            × (i < length self.now.values)
            × (slice_index self.now.values i ≡ v)) }
        ensures absent { result ≡ not (is_absent self.now.values v) }
    {
        of_either!(&self.cells, state => state.holds_past_first(v))
    }

    /// Whether the machines that hold the value of machine 0 are a prefix of the ring.
    pub fn first_value_is_prefix(&self) -> bool
        ensures test { result ≡ first_value_is_prefix self.now.values }
        ensures prefix { IsTrue result ↔ ((p : ℕ) × IsPrefix self.now.values p) }
    {
        of_either!(&self.cells, state => state.first_value_is_prefix())
    }

    /// Makes the move of machine `i`, which is privileged: machine 0 steps on by 1 modulo K, each other
    /// takes its left neighbour's value (Dijkstra 1974). No more machines are privileged afterwards, machine
    /// `i` is not, and the rest falls until it is 0.
    pub fn move_machine(&mut self, i: u32)
        requires machine { i < length self.old.values }
        requires privileged { is_privileged self.old.values i ≡ true }
        ensures is { self.new ≡ moved self.old i }
        ensures closure { IsClosed self.old self.new i }
        ensures descent { rest self.new ≤ rest self.old - 1 }
    {
        of_either!(&mut self.cells, state => {
            let value = state.moved_value(i);
            state.write(i, value);
        })
    }

    /// Writes `v`, which is below K, into machine `i`, and answers the value that was there.
    pub fn write(&mut self, i: u32, v: u32) -> u32
        requires machine { i < length self.old.values }
        requires value { v < self.old.k }
        ensures old { result ≡ slice_index self.old.values i }
        ensures new { self.new ≡ written self.old i v }
    {
        of_either!(&mut self.cells, state => state.write(i, v))
    }

    /// An equal state.
    ///
    /// # Errors
    ///
    /// Only if memory runs out.
    pub fn try_copy(&self, alloc: Global) -> Result<RingState, AllocError>
        ensures ok { IfOk result (λ r. r ≡ self.now) }
    {
        let cells = match &self.cells {
            Cells::Narrow(state) => Cells::Narrow(state.try_copy(alloc)?),
            Cells::Wide(state) => Cells::Wide(state.try_copy(alloc)?),
        };
        Ok(RingState { cells })
    }
}
