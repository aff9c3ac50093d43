//! The passes of one ring until it is settled.
ghost use Rattle.std.specs.Prelude.{◌≡◌, ◌≤◌, length};
ghost use Rattle.ring_repairs.specs.Daemons.{passes};
ghost use Rattle.ring_repairs.specs.Limits.{number_limit};

use crate::daemons::{Daemon, Memory};
use machine_masks::{pass, privileged_machines};
use ring_state::RingState;

/// Lets the machines pass that the daemon chooses until the ring is settled, at most `most` of them, and answers how many passed.
/// No machine was asked before.
// Apart from its callers, so that the loop has the processor's registers for itself.
#[inline(never)]
pub(crate) fn repair(daemon: Daemon, most: u64, memory: &mut Memory, ring: &mut RingState) -> u64
    requires few { most ≤ number_limit }
    requires asked { memory.old.asked ≡ 0 }
    ensures passes { result ≡ passes daemon most memory.old ring.old }
    ensures most { result ≤ most }
    ensures size { length ring.new.values ≡ length ring.old.values }
    ensures same { ring.new.k ≡ ring.old.k }
{
    ring.params(); // says: it is a ring
    let mut privileged = privileged_machines(ring);
    let mut passes = 0;
    for _ in 0..most {
        if privileged.count() == 1 {
            break;
        }
        let machine = daemon.choose(memory, ring, &privileged);
        pass(ring, &mut privileged, machine);
        passes += 1;
    }
    passes
}
