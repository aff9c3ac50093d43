//! Wrong bodies of the measures of how far a ring is from being settled, and of the group move.

ghost use Rattle.std.specs.Prelude.{◌≡◌, ◌≢◌, ◌<◌, ◌≤◌, true, false, length, slice_index};
ghost use Rattle.ring_model.specs.Ring.{bound, is_settled, lead, rest};
ghost use Rattle.ring_model.specs.Runs.{after_passes, granted_passes, AreBelow};
ghost use Rattle.ring_model.specs.Groups.{GroupMove, has, least_left_out, move_order};
ghost use Rattle.ring_model.specs.GroupLaws.{CanMove};

use crate::numbers::{another, another_narrow};
use ring_state::RingState;

/// The bound is 3n(n-1)/2: here another number.
pub fn bounds_otherwise(n: u32) -> u64
    requires few { 2 ≤ n }
    requires many { n ≤ 65536 }
    ensures wrong { result ≡ bound n → ⊥ }
{
    another(ring_settle::bound(n))
}

/// A ring is settled just where one machine is privileged: here the other way.
pub fn settled_the_other_way(state: &RingState) -> bool
    ensures wrong { result ≡ is_settled state.now.values → ⊥ }
{
    !ring_settle::is_settled(state)
}

/// The lead is returned: here another number.
pub fn leads_otherwise(state: &RingState) -> u32
    ensures wrong { result ≡ lead state.now → ⊥ }
{
    another_narrow(ring_settle::lead(state))
}

/// The rest is returned: here another number.
pub fn rests_otherwise(state: &RingState) -> u64
    ensures wrong { result ≡ rest state.now → ⊥ }
{
    another(ring_settle::rest(state))
}

/// The granted passes are counted: here all choices, where one is refused.
pub fn counts_refused_choices(state: &mut RingState, choices: &[u32]) -> u64
    requires below { AreBelow (length state.old.values) choices.now }
    requires some { length (granted_passes state.old choices.now) ≢ length choices.now }
    ensures wrong { result ≡ length (granted_passes state.old choices.now) → ⊥ }
{
    ring_settle::follow(state, choices);
    choices.len() as u64
}

/// Each choice is followed: here others, which lead to another state.
pub fn follows_other_choices(state: &mut RingState, choices: &[u32], others: &[u32])
    requires below { AreBelow (length state.old.values) others.now }
    requires apart { after_passes state.old others.now ≢ after_passes state.old choices.now }
    ensures wrong { state.new ≡ after_passes state.old choices.now → ⊥ }
{
    ring_settle::follow(state, others);
}

/// Each machine of a group moves: here one is left out.
#[tactic(auto, using(crate::proofs::Moves::fewer_do_not_do))]
pub fn moves_a_group_without_one(
    state: &mut RingState,
    machines: &[u32],
    fewer: &[u32],
    machine: u32,
)
    requires able { CanMove state.old.values fewer.now }
    requires one { has machines.now machine ≡ true }
    requires out { has fewer.now machine ≡ false }
    ensures wrong { GroupMove state.old machines.now state.new → ⊥ }
{
    state.params(); // says: it is a ring
    ring_settle::move_group(state, fewer);
}

/// The least number that is left out is returned: here another.
pub fn leaves_another_out(machines: &[u32]) -> u64
    ensures wrong { result ≡ least_left_out 0 machines.now → ⊥ }
{
    another(ring_settle::least_left_out(machines) as u64)
}

/// Each machine has its turn: here another machine has it.
pub fn takes_another_turn(machines: &[u32], least: usize, turn: usize) -> u32
    requires least { least ≡ least_left_out 0 machines.now }
    requires few { least ≤ length machines.now }
    requires within { turn < length machines.now }
    ensures wrong { result ≡ slice_index (move_order machines.now) turn → ⊥ }
{
    another_narrow(ring_settle::machine_in_turn(machines, least, turn))
}
