ghost use Rattle.std.specs.Prelude.{◌≡◌, ◌-◌, ◌≤◌, length};
ghost use Rattle.ring_model.specs.Ring.{rest};
ghost use Rattle.ring_model.specs.Runs.{after_passes, granted_passes, AreBelow};
ghost use Rattle.ring_state.specs.Sizes.{IsRingState};

use ring_state::RingState;

/// Passes by the chosen machines, each below n, in order: each moves if it is privileged. Answers how many
/// did; the rest falls by at least that number, down to 0.
pub fn follow(state: &mut RingState, choices: &[u32]) -> u64
    requires { AreBelow (length state.old.values) choices.now }
    ensures state { state.new ≡ after_passes state.old choices.now }
    ensures same { state.new.k ≡ state.old.k }
    ensures granted { result ≡ length (granted_passes state.old choices.now) }
    ensures descent { rest state.new ≤ rest state.old - result }
{
    state.params(); // says: it is a ring
    let mut granted = 0;
    for machine in choices {
        if state.is_privileged(*machine) {
            state.move_machine(*machine);
            granted += 1;
        }
    }
    granted
}
