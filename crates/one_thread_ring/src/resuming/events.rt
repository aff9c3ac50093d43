//! The events that the event lines of a saved ring describe.
ghost use Rattle.std.specs.Prelude.{◌≡◌, ◌↔◌, map, IsTrue, IfOk};
ghost use Rattle.ring_logs.specs.Seats.{AreOfSeats};
ghost use Rattle.ring_check.specs.Table.{event_of};

use ring_model::{Event, Op, Reply};
use saved_history::SavedEvent;
use std::alloc::{AllocError, Global};

/// The event of a pass by itself, with its reply.
fn pass_told(seat: u32, machine: u32, order: u64, reply: Reply) -> Event
    ensures { result ≡ record { seat = seat; op = Op.Pass machine order; reply = reply } }
{
    Event {
        seat,
        op: Op::Pass { machine, order },
        reply,
    }
}

/// The event that an event line describes.
fn event_told(saved: SavedEvent) -> Event
    ensures { result ≡ event_of saved }
{
    match saved {
        SavedEvent::Granted {
            seat,
            machine,
            order,
            number,
            result,
        } => pass_told(seat, machine, order, Reply::Granted { number, result }),
        SavedEvent::Member {
            seat,
            machine,
            order,
            left,
            number,
            result,
        } => Event {
            seat,
            op: Op::Member {
                machine,
                order,
                left,
            },
            reply: Reply::Granted { number, result },
        },
        SavedEvent::Refused {
            seat,
            machine,
            order,
        } => pass_told(seat, machine, order, Reply::NotPrivileged),
        SavedEvent::Corrupted {
            seat,
            machine,
            value,
            old,
        } => Event {
            seat,
            op: Op::Corrupt { machine, value },
            reply: Reply::Corrupted { old },
        },
    }
}

/// The events that event lines record.
pub(crate) fn events_of(alloc: Global, lines: &[SavedEvent]) -> Result<Vec<Event>, AllocError>
    ensures { IfOk result (λ v. v.items ≡ map event_of lines.now) }
{
    let mut events = Vec::with_capacity(alloc, lines.len())?;
    for line in lines {
        events.push(event_told(*line))?;
    }
    Ok(events)
}

/// Whether each event is a call of a seat below this number.
pub(crate) fn are_seated(events: &[Event], seats: u32) -> bool
    ensures { IsTrue result ↔ AreOfSeats seats events.now }
{
    for event in events {
        if event.seat >= seats {
            return false;
        }
    }
    true
}
