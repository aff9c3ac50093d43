//! Groups that move at once, up to that of the widest ring.

ghost use Rattle.std.specs.Prelude.{◌≡◌, true};
ghost use Rattle.ring_model.specs.Groups.{Rises};
ghost use Rattle.ring_model.specs.GroupLaws.{AreAllPrivileged, CanMove};

use crate::rings::{has_values, state_of};
use ring_settle::{move_group, rest};
use ring_state::RingState;
use std::process::Abort;

/// Whether the machines rise, and are below the limit.
pub fn rises(limit: u32, machines: &[u32]) -> bool
    ensures { result ≡ true → Rises 0 limit machines.now }
{
    let mut least: u32 = 0;
    for machine in machines {
        if *machine < least {
            return false;
        }
        if *machine >= limit {
            return false;
        }
        least = *machine + 1;
    }
    true
}

/// Whether each of the machines is one of the ring's, and is privileged.
fn are_privileged(state: &RingState, machines: &[u32]) -> bool
    ensures { result ≡ true → AreAllPrivileged state.now.values machines.now }
{
    let n = state.params().n();
    for machine in machines {
        if *machine >= n {
            return false;
        }
        if !state.is_privileged(*machine) {
            return false;
        }
    }
    true
}

/// Whether the group can move.
fn can_move(state: &RingState, machines: &[u32]) -> bool
    ensures { result ≡ true → CanMove state.now.values machines.now }
{
    let n = state.params().n();
    rises(n, machines)
        && !machines.is_empty()
        && machines.len() < n as usize
        && are_privileged(state, machines)
}

/// Moves a group that can move.
fn moves(rt: &impl Abort, state: &mut RingState, machines: &[u32]) {
    assert!(rt; can_move(state, machines));
    move_group(state, machines);
}

#[test]
fn a_group_of_four_machines_moves_at_once(rt: HostRuntime) {
    let mut state = state_of(&rt, rt.alloc(), 4, &[0, 2, 1, 0]);
    moves(&rt, &mut state, &[0, 1, 3]);
    assert!(rt; has_values(&state, &[1, 0, 1, 1]) && rest(&state) == 9);
}

/// 1,024 machines that are all privileged: their values fall by 1 from 65,535 on, except for the last, which holds that of
/// machine 0.
pub fn widest_values() -> [u32; 1024] {
    let mut values = [0u32; 1024];
    for machine in 0..1023usize {
        values[machine] = 65_535 - machine as u32;
    }
    values[1023] = 65_535;
    values
}

/// All of them but machine 500.
pub fn widest_group() -> [u32; 1023] {
    let mut machines = [0u32; 1023];
    for place in 0..1023usize {
        machines[place] = place as u32 + (place >= 500) as u32;
    }
    machines
}

/// Where they have moved: machine 0 stepped from 65,535 to 0, machine 500 stayed.
pub fn widest_values_moved() -> [u32; 1024] {
    let mut values = [0u32; 1024];
    for machine in 1..1024usize {
        values[machine] = 65_536 - machine as u32;
    }
    values[500] = 65_035;
    values
}

#[test]
fn the_largest_group_of_the_widest_ring_moves_at_once(rt: HostRuntime) {
    let mut state = state_of(&rt, rt.alloc(), 65_536, &widest_values());
    assert!(rt; state.privileged() == 1_024 && state.first() == 0 && rest(&state) == 524_800);
    moves(&rt, &mut state, &widest_group());
    assert!(rt; has_values(&state, &widest_values_moved()));
    // Machine 501 has taken the value that machine 500 keeps. Each other but machine 0 differs from its left neighbour.
    assert!(rt; state.privileged() == 1_022 && state.first() == 1 && rest(&state) == 523_253);
}
