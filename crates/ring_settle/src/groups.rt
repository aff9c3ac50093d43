ghost use Rattle.std.specs.Prelude.{◌≡◌, ◌-◌, ◌<◌, ◌≤◌, length, slice_index};
ghost use Rattle.ring_model.specs.Ring.{rest};
ghost use Rattle.ring_model.specs.Groups.{GroupMove, least_left_out, move_order};
ghost use Rattle.ring_model.specs.GroupLaws.{CanMove};

use ring_state::RingState;

/// Moves the machines of a group at once: each gets what its own move from the old state gives. The machines
/// are strictly increasing, below n and privileged, at least one and fewer than n. The rest falls by their
/// number, down to 0.
pub fn move_group(state: &mut RingState, machines: &[u32])
    requires { CanMove state.old.values machines.now }
    ensures group { GroupMove state.old machines.now state.new }
    ensures descent { rest state.new ≤ rest state.old - length machines.now }
{
    state.params(); // says: it is a ring
    let least = least_left_out(machines);
    for turn in 0..machines.len() {
        // Nobody moves before its right neighbour, so each takes its left neighbour's old value.
        state.move_machine(machine_in_turn(machines, least, turn));
    }
}

/// The least number that a strictly increasing list leaves out.
pub fn least_left_out(machines: &[u32]) -> usize
    ensures is { result ≡ least_left_out 0 machines.now }
    ensures few { result ≤ length machines.now }
{
    let mut least: usize = 0;
    for machine in machines {
        if *machine as usize != least {
            return least;
        }
        least += 1;
    }
    least
}

/// The machine of a strictly increasing list whose turn it is, from 0 on, in the order of the moves: those
/// below `least`, the least number that is left out, from the greatest down, and then the others.
pub fn machine_in_turn(machines: &[u32], least: usize, turn: usize) -> u32
    requires least { least ≡ least_left_out 0 machines.now }
    requires few { least ≤ length machines.now }
    requires within { turn < length machines.now }
    ensures { result ≡ slice_index (move_order machines.now) turn }
{
    if turn < least {
        machines[least - 1 - turn]
    } else {
        machines[machines.len() - 1 - (turn - least)]
    }
}
