//! A choice that was made, and what a row says of it.

ghost use Rattle.std.specs.Prelude.{◌≡◌, ◌<◌, length};
ghost use Rattle.ring_model.specs.Ring.{is_privileged};
ghost use Rattle.ring_model.specs.Runs.{passed};
ghost use Rattle.step_states.specs.Rows.{kind_of, machine_of, number_of};

use ring_state::RingState;

/// A choice that was made.
#[derive(Clone, Copy)]
pub struct Asked {
    /// The machine that asked to pass.
    pub machine: u32,
    /// Whether it was privileged, and moved.
    pub granted: bool,
}

/// Lets a machine of the ring ask to pass.
pub(crate) fn ask(ring: &mut RingState, machine: u32) -> Asked
    requires { machine < length ring.old.values }
    ensures asked { result ≡ record {
      machine = machine;
      granted = is_privileged ring.old.values machine;
    } }
    ensures passed { ring.new ≡ passed ring.old machine }
{
    let granted = ring.is_privileged(machine);
    if granted {
        ring.move_machine(machine);
    }
    Asked { machine, granted }
}

/// What came of the last choice.
pub(crate) fn kind_of(last: Option<Asked>) -> &'static [u8]
    ensures { result.now ≡ kind_of last }
{
    match last {
        None => b"start",
        Some(asked) => {
            if asked.granted {
                b"granted"
            } else {
                b"refused"
            }
        }
    }
}

/// The machine of the last choice.
pub(crate) fn machine_of(last: Option<Asked>) -> Option<u64>
    ensures { result ≡ machine_of last }
{
    match last {
        Some(asked) => Some(asked.machine as u64),
        None => None,
    }
}

/// Which grant the last choice was, by how many grants there were, if it was one.
pub(crate) fn number_of(last: Option<Asked>, grants: u64) -> Option<u64>
    ensures { result ≡ number_of last grants }
{
    match last {
        Some(asked) => { if asked.granted { Some(grants) } else { None } }
        None => None,
    }
}
