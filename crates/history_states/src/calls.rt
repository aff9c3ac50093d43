//! What a row says of an event: its kind, and the numbers of its call and of its reply.

ghost use Rattle.std.specs.Prelude.{◌≡◌, ◌≤◌, None, Some, length, IfOk};
ghost use Rattle.ring_model.specs.Limits.{machine_limit};
ghost use Rattle.history_states.specs.Rows.{kind_of, call_of, no_call, last_event, privileged_of};
ghost use Rattle.saved_history.specs.Content.{block_of};

use ring_model::plain::is_privileged;
use saved_history::{SavedEvent, SavedRing};
use std::alloc::{AllocError, Global};

/// The numbers of a call and of its reply; none where it has no such number.
#[derive(Clone, Copy, Debug, PartialEq, Eq)]
pub struct Call {
    pub seat: Option<u64>,
    pub machine: Option<u64>,
    /// What a pass asks the resource for.
    pub order: Option<u64>,
    /// How many members of the group come after it.
    pub left: Option<u64>,
    /// The number of the grant.
    pub number: Option<u64>,
    /// The answer of the resource.
    pub result: Option<u64>,
    /// The value that a corruption wrote.
    pub value: Option<u64>,
    /// The value before it.
    pub old: Option<u64>,
}

/// A call without numbers.
fn no_call() -> Call
    ensures { result ≡ no_call }
{
    Call {
        seat: None,
        machine: None,
        order: None,
        left: None,
        number: None,
        result: None,
        value: None,
        old: None,
    }
}

/// The kind of an event.
pub(crate) fn kind_of(event: Option<SavedEvent>) -> &'static [u8]
    ensures { result.now ≡ kind_of event }
{
    match event {
        None => b"start",
        Some(SavedEvent::Granted { .. }) => b"granted",
        Some(SavedEvent::Refused { .. }) => b"refused",
        Some(SavedEvent::Member { .. }) => b"member",
        Some(SavedEvent::Corrupted { .. }) => b"corrupted",
    }
}

/// The numbers of a pass.
fn pass_of(seat: u32, machine: u32, order: u64) -> Call
    ensures { result ≡ record no_call {
      seat = Some seat;
      machine = Some machine;
      order = Some order;
    } }
{
    Call {
        seat: Some(seat as u64),
        machine: Some(machine as u64),
        order: Some(order),
        ..no_call()
    }
}

/// The numbers of an event's call and of its reply.
pub(crate) fn call_of(event: Option<SavedEvent>) -> Call
    ensures { result ≡ call_of event }
{
    let Some(event) = event else {
        return no_call();
    };
    match event {
        SavedEvent::Granted {
            seat,
            machine,
            order,
            number,
            result,
        } => Call {
            number: Some(number),
            result: Some(result),
            ..pass_of(seat, machine, order)
        },
        SavedEvent::Refused {
            seat,
            machine,
            order,
        } => pass_of(seat, machine, order),
        SavedEvent::Member {
            seat,
            machine,
            order,
            left,
            number,
            result,
        } => Call {
            left: Some(left as u64),
            number: Some(number),
            result: Some(result),
            ..pass_of(seat, machine, order)
        },
        SavedEvent::Corrupted {
            seat,
            machine,
            value,
            old,
        } => Call {
            seat: Some(seat as u64),
            machine: Some(machine as u64),
            value: Some(value as u64),
            old: Some(old as u64),
            ..no_call()
        },
    }
}

/// The last of the first `place` events of a ring.
pub(crate) fn last_event(ring: &SavedRing, place: usize) -> Option<SavedEvent>
    ensures { result ≡ last_event (block_of ring.now) place }
{
    if place == 0 {
        return None;
    }
    ring.events.get(place - 1).copied()
}

/// Returns the privileged machines of a ring with these values, in their order.
///
/// # Errors
///
/// If there is no room for them.
pub fn privileged_of(alloc: Global, values: &[u32]) -> Result<Vec<u32>, AllocError>
    requires { length values.now ≤ machine_limit }
    ensures { IfOk result (λ found. found.items ≡ privileged_of values.now) }
{
    let mut found = Vec::new(alloc);
    for machine in 0..values.len() {
        if is_privileged(values, machine) {
            found.push(machine as u32)?;
        }
    }
    Ok(found)
}
