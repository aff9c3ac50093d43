//! A history replayed plainly, for tests to compare with: one step of the one-thread ring with the till, and the calm.

ghost use Rattle.std.specs.Prelude.{◌≡◌, ◌<◌, ◌+◌, ◌^◌, length};
ghost use Rattle.ring_model.specs.Ring.{ring_with};
ghost use Rattle.ring_model.specs.History.{next, reply};
ghost use Rattle.ring_model.specs.Resources.{till};
ghost use Rattle.ring_model.specs.Surveys.{calm};
ghost use Rattle.ring_model.specs.Replay.{till_state, machine_of};

use crate::events::{Event, Op, Reply};
use crate::plain;

/// Makes a call of a ring that guards a till: values, amount and number of grants become those of the only
/// step with this call, and the answer is its reply.
pub fn step_with_till(
    k: u32,
    values: &mut [u32],
    amount: &mut u64,
    grants: &mut u64,
    op: Op,
) -> Reply
    requires positive { 0 < k }
    requires within { machine_of op < length values.old }
    requires room { grants.old + 1 < 2 ^ 64 }
    ensures state { till_state (ring_with k values.new) amount.new grants.new
        ≡ next till (till_state (ring_with k values.old) amount.old grants.old) op }
    ensures reply { result
        ≡ reply till (till_state (ring_with k values.old) amount.old grants.old) op }
{
    match op {
        Op::Pass { machine, order }
        | Op::Member {
            machine,
            order,
            left: _,
        } => {
            if !plain::is_privileged(values, machine as usize) {
                return Reply::NotPrivileged;
            }
            plain::move_machine(k, values, machine as usize);
            *amount = amount.saturating_add(order);
            *grants += 1;
            Reply::Granted {
                number: *grants,
                result: *amount,
            }
        }
        Op::Corrupt { machine, value } => {
            let old = values[machine as usize];
            values[machine as usize] = value;
            Reply::Corrupted { old }
        }
    }
}

/// The granted passes since the last corruption, or since the start where there was none.
pub fn calm(events: &[Event]) -> u64
    ensures { result ≡ calm events.now }
{
    let mut calm: u64 = 0;
    for event in events {
        match event.reply {
            Reply::Granted { .. } => calm += 1,
            Reply::NotPrivileged => {}
            Reply::Corrupted { .. } => calm = 0,
        }
    }
    calm
}
