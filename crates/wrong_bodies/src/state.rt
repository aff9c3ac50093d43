//! Wrong bodies of sizes and states of rings.

ghost use Rattle.std.specs.Prelude.{◌≡◌, ◌≢◌, ◌<◌, ◌↔◌, true, length, slice_index, not, IfOk, IfErr, IsOk};
ghost use Rattle.ring_model.specs.Limits.{machine_limit, value_limit};
ghost use Rattle.ring_model.specs.Ring.{first_privileged, is_absent, is_privileged, moved, privileged_count, weight, written};
ghost use Rattle.ring_lanes.specs.Masks.{IsMaskOf};
ghost use Rattle.ring_state.specs.Sizes.{IsRingState, IsSize};
ghost use Rattle.ring_state.specs.StateFault.{IsFaultOf, IsFirstOver};

use crate::numbers::{another, another_narrow};
use ring_model::limits::VALUE_LIMIT;
use ring_state::{Params, ParamsError, RingState, StateError};
use std::alloc::{AllocError, Global};

/// A ring may have as many values as machines: here it may not.
pub fn refuses_as_many_values(n: u32, k: u32) -> Result<Params, ParamsError>
    requires size { IsSize (record { n = n; k = k }) }
    requires same { k ≡ n }
    ensures wrong { (IsOk result ↔ IsSize (record { n = n; k = k })) → ⊥ }
{
    if k <= n {
        return Err(ParamsError::FewValues);
    }
    Params::new(n, k)
}

/// A ring has no more values than the limit: here it has the limit in their place.
pub fn cuts_the_values_to_the_limit(n: u32, k: u32) -> Result<Params, ParamsError>
    requires many { value_limit < k }
    ensures wrong { IfOk result (λ p. p ≡ record { n = n; k = k } → ⊥) }
{
    Params::new(n, k.min(VALUE_LIMIT))
}

/// A size is that which was asked for: here it has another number of values.
pub fn sizes_with_another_k(n: u32, k: u32, other: u32) -> Result<Params, ParamsError>
    requires apart { other ≢ k }
    ensures wrong { IfOk result (λ p. p ≡ record { n = n; k = k } → ⊥) }
{
    Params::new(n, other)
}

/// A state holds its values: here others.
pub fn holds_other_values(
    alloc: Global,
    p: &Params,
    values: &[u32],
    others: &[u32],
) -> Result<RingState, StateError>
    requires apart { others.now ≢ values.now }
    ensures wrong { IfOk result (λ r. r ≡ record { k = p.now.k; values = values.now } → ⊥) }
{
    RingState::from_values(alloc, p, others)
}

/// A value that is not below K is refused: here it is taken, for another that is.
pub fn takes_a_value_over_k(
    alloc: Global,
    p: &Params,
    values: &[u32],
    others: &[u32],
    place: usize,
) -> Result<RingState, StateError>
    requires over { IsFirstOver p.now.k values.now place }
    ensures wrong { IfOk result (λ r. (r ≡ record { k = p.now.k; values = values.now })
        × (length values.now ≡ p.now.n)
        × IsRingState r → ⊥) }
{
    RingState::from_values(alloc, p, others)
}

/// The first value that is not below K is returned: here another place.
#[tactic(auto, using(crate::proofs::Faults::one_is_first))]
pub fn tells_another_bad_value(
    alloc: Global,
    p: &Params,
    values: &[u32],
) -> Result<RingState, StateError>
    requires many { length values.now ≡ p.now.n }
    ensures wrong { IfErr result (λ e. IsFaultOf p.now values.now e → ⊥) }
{
    match RingState::from_values(alloc, p, values) {
        Ok(state) => Ok(state),
        Err(StateError::Value(place)) => { Err(StateError::Value(another(place as u64) as usize)) }
        Err(_) => Err(StateError::Length),
    }
}

/// A write hits its machine: here another.
pub fn writes_another_machine(state: &mut RingState, i: u32, other: u32, v: u32)
    requires machine { i < length state.old.values }
    requires other { other < length state.old.values }
    requires value { v < state.old.k }
    requires apart { other ≢ i }
    requires differs { slice_index state.old.values i ≢ v }
    ensures wrong { state.new ≡ written state.old i v → ⊥ }
{
    state.write(other, v);
}

/// A write puts its value: here another.
#[tactic(auto, using(crate::proofs::Moves::one_value))]
pub fn writes_another_cell_value(state: &mut RingState, i: u32, v: u32, other: u32)
    requires machine { i < length state.old.values }
    requires value { other < state.old.k }
    requires apart { other ≢ v }
    ensures wrong { state.new ≡ written state.old i v → ⊥ }
{
    state.write(i, other);
}

/// A write answers the value that was there: here the new one, where that is another.
pub fn answers_the_new_value(state: &mut RingState, i: u32, v: u32) -> u32
    requires machine { i < length state.old.values }
    requires value { v < state.old.k }
    requires differs { slice_index state.old.values i ≢ v }
    ensures wrong { result ≡ slice_index state.old.values i → ⊥ }
{
    state.write(i, v);
    v
}

/// A move changes its machine: here none.
#[tactic(auto, using(crate::proofs::Moves::moved_is_other))]
pub fn moves_no_machine(state: &mut RingState, i: u32)
    requires machine { i < length state.old.values }
    requires privileged { is_privileged state.old.values i ≡ true }
    ensures wrong { state.new ≡ moved state.old i → ⊥ }
{
    state.params(); // says: it is a ring
}

/// The number of privileged machines is returned: here another.
pub fn counts_another_number_of_privileged(state: &RingState) -> u32
    ensures wrong { result ≡ privileged_count state.now.values → ⊥ }
{
    another_narrow(state.privileged())
}

/// The least privileged machine is returned: here another.
pub fn finds_another_first(state: &RingState) -> u32
    ensures wrong { result ≡ first_privileged state.now.values → ⊥ }
{
    another_narrow(state.first())
}

/// The weight is returned: here another.
pub fn weighs_otherwise(state: &RingState) -> u64
    ensures wrong { result ≡ weight state.now.values → ⊥ }
{
    another(state.weight())
}

/// A machine is privileged or not: here the other way.
pub fn privileged_the_other_way(state: &RingState, i: u32) -> bool
    requires { i < length state.now.values }
    ensures wrong { result ≡ is_privileged state.now.values i → ⊥ }
{
    !state.is_privileged(i)
}

/// A value is held past machine 0 or not: here the other way.
pub fn holds_the_other_way(state: &RingState, v: u32) -> bool
    requires { v < state.now.k }
    ensures wrong { result ≡ not (is_absent state.now.values v) → ⊥ }
{
    !state.holds_past_first(v)
}

/// A mask has the bit of machine 0: here it is the other one.
pub fn masks_machine_0_the_other_way(state: &RingState, out: &mut [u64; 16])
    ensures wrong { IsMaskOf machine_limit state.now.values out.new → ⊥ }
{
    state.mask(out);
    out[0] ^= 1;
}

/// A copy is equal: here it has another value of a machine.
pub fn copies_with_another_value(
    state: &RingState,
    alloc: Global,
    i: u32,
    v: u32,
) -> Result<RingState, AllocError>
    requires machine { i < length state.now.values }
    requires value { v < state.now.k }
    requires differs { slice_index state.now.values i ≢ v }
    ensures wrong { IfOk result (λ r. r ≡ state.now → ⊥) }
{
    let mut copy = state.try_copy(alloc)?;
    copy.write(i, v);
    Ok(copy)
}
