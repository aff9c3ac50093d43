//! The hold that is open in the history of a ring.

ghost use Rattle.std.specs.Prelude.{◌≡◌, ℕ, ◌≤◌, List, All, length, drop, map, None};
ghost use Rattle.ring_model.specs.declared.events.Event.{Event};
ghost use Rattle.ring_model.specs.Bases.{IsBase, shifted_event, shifted};
ghost use Rattle.ring_model.specs.Tallies.{IsInSegment};
ghost use Rattle.one_thread_ring.specs.Clients.{told_of};
ghost use Rattle.held_locks.specs.Locks.{Call};
ghost use Rattle.held_locks.specs.Promises.{number_of, order_of, open_behind, open_after};
ghost use Rattle.held_locks.specs.Kept.{IsKeptRing};
ghost use Rattle.held_locks.specs.Opened.{last_survey, later, open_in};

use endless_ring::EndlessRing;
use one_thread_ring::Client;
use ring_model::lock_seats::{CARRIED_SEAT, GRANT_SEAT, LEAVE_SEAT, RELEASE_SEAT};
use ring_model::{Base, Event, Op, Reply};

/// The place of the last survey that a client was given; 0 if there is none.
fn last_survey(client: &Client) -> u64
    ensures { (h : List Event) → result ≡ last_survey 0 (told_of h client.now).log }
{
    let surveys = client.surveys();
    if surveys.is_empty() {
        return 0;
    }
    let last = surveys.len() - 1;
    surveys[last].position
}

/// The number of a granted pass.
fn number_of(reply: Reply) -> Option<u64>
    ensures { result ≡ number_of reply }
{
    match reply {
        Reply::Granted { number, .. } => Some(number),
        Reply::NotPrivileged | Reply::Corrupted { .. } => None,
    }
}

/// The order of a pass.
fn order_of(op: Op) -> Option<u64>
    ensures { result ≡ order_of op }
{
    match op {
        Op::Pass { order, .. } => Some(order),
        Op::Member { .. } | Op::Corrupt { .. } => None,
    }
}

/// The hold that is open after an event of a segment.
fn open_behind(base: &Base, held: Option<u64>, event: Event) -> Option<u64>
    requires base { IsBase base.now }
    requires within { IsInSegment event.reply }
    ensures { result ≡ open_behind held (shifted_event base.now event) }
{
    if event.seat == GRANT_SEAT {
        return number_of(base.shift_reply(event.reply));
    }
    if event.seat == CARRIED_SEAT {
        return order_of(event.op);
    }
    held
}

/// The hold that is open after these events of a segment.
fn open_after(base: &Base, events: &[Event]) -> Option<u64>
    requires base { IsBase base.now }
    requires within { All (λ (e : Event). IsInSegment e.reply) events.now }
    ensures { result ≡ open_after None (map Call (shifted base.now events.now)) }
{
    let mut held = None;
    for event in events {
        held = open_behind(base, held, *event);
    }
    held
}

/// The later of two places of a history of this many events.
fn later(first: u64, second: u64, events: usize) -> usize
    ensures most { result ≤ events }
    ensures rest { (h : List Event) → length h ≡ events
        → drop result h ≡ drop (later first second) h }
{
    let last = if first <= second { second } else { first };
    if last as usize <= events {
        last as usize
    } else {
        events
    }
}

/// The token of the hold that is open in the history of a ring, if one is.
pub(crate) fn open_hold(ring: &EndlessRing) -> Option<u64>
    requires { IsKeptRing ring.now }
    ensures { result ≡ open_in ring.now }
{
    let clients = ring.segment().clients();
    let history = ring.segment().history();
    let from = later(
        last_survey(&clients[RELEASE_SEAT as usize]),
        last_survey(&clients[LEAVE_SEAT as usize]),
        history.len(),
    );
    open_after(ring.base(), &history[from..])
}
