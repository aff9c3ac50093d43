//! How much room the plans need on each ring, which is asked for before any thread starts.
ghost use Rattle.std.specs.Prelude.{◌≡◌, ◌≤◌, [], IfErr, OnOk};
ghost use Rattle.ring_model.specs.Limits.{event_limit};
ghost use Rattle.ring_farm.specs.Promises.{AreUnchanged};

use crate::faults::{FarmError, out_of_memory};
use crate::workers::fault_of;
use ring_book::{Book, Till};
use ring_model::limits::{EVENT_LIMIT, SEAT_LIMIT};
use ring_settings::limits::RING_LIMIT;
use ring_settings::{Action, Plan};
use ring_shared::{Name, Seat};

/// The room that one ring needs: for its events, and for the entries of each seat's log.
#[derive(Clone, Copy)]
pub(crate) struct Room {
    events: u32,
    entries: [u32; SEAT_LIMIT],
}

/// The room that each ring needs, by its number.
pub(crate) type Rooms = [Room; RING_LIMIT];

impl Room {
    /// One action more of a seat; a survey is not an event.
    fn add(&mut self, seat: usize, is_event: bool) {
        self.events = self.events.saturating_add(u32::from(is_event));
        if let Some(entries) = self.entries.get_mut(seat) {
            *entries = entries.saturating_add(1);
        }
    }

    /// Takes memory for the events that are to come, as many as a history may have at most.
    ///
    /// # Errors
    ///
    /// Only if memory runs out.
    pub(crate) fn reserve_events(&self, book: &mut Book<Till>) -> Result<(), FarmError>
        requires { book.old.history ≡ [] }
        ensures same { book.new ≡ record book.old { room = book.new.room } }
        ensures err { IfErr result (λ e. e ≡ FarmError.OutOfMemory) }
    {
        book.reserve(self.events.min(EVENT_LIMIT as u32))
            .map_err(fault_of)
    }

    /// Takes memory for the entries that are to come in each seat's log. Except for that the seats stay as they are.
    ///
    /// # Errors
    ///
    /// Only if memory runs out.
    pub(crate) fn reserve_entries<N: Name>(&self, seats: &mut Vec<Seat<N>>) -> Result<(), FarmError>
        ensures same { AreUnchanged seats.old.items seats.new.items }
        ensures err { IfErr result (λ e. e ≡ FarmError.OutOfMemory) }
    {
        for i in 0..seats.len() {
            let seat = &mut seats[i];
            if let Some(entries) = self.entries.get(seat.number() as usize) {
                if seat.reserve(*entries as usize).is_err() {
                    return Err(out_of_memory());
                }
            }
        }
        Ok(())
    }
}

/// How many actions of a plan are events.
fn event_count(plan: &Plan) -> u32 {
    let mut events: u32 = 0;
    for action in &plan.actions {
        if !matches!(action, Action::Survey { .. }) {
            events = events.saturating_add(1);
        }
    }
    events
}

/// The room that the only ring needs, which all actions are for.
fn room_alone(plans: &[Plan]) -> Room {
    let mut room = Room {
        events: 0,
        entries: [0; SEAT_LIMIT],
    };
    for seat in 0..plans.len() {
        let plan = &plans[seat];
        room.events = room.events.saturating_add(event_count(plan));
        if let Some(entries) = room.entries.get_mut(seat) {
            *entries = u32::try_from(plan.actions.len()).unwrap_or(u32::MAX);
        }
    }
    room
}

/// Adds what a seat's plan needs.
fn add_plan(rooms: &mut Rooms, seat: usize, plan: &Plan) {
    for action in &plan.actions {
        let (ring, is_event) = match action {
            Action::Pass { ring, .. } | Action::Corrupt { ring, .. } => (*ring, true),
            Action::Survey { ring } => (*ring, false),
        };
        if let Some(room) = rooms.get_mut(ring as usize) {
            room.add(seat, is_event);
        }
    }
}

/// The room that each of these rings needs for these plans, one for each seat. Nothing is promised of these counts: a call
/// with no room left asks for memory itself.
pub(crate) fn rooms_for(plans: &[Plan], rings: usize) -> Rooms {
    let none = Room {
        events: 0,
        entries: [0; SEAT_LIMIT],
    };
    let mut rooms = [none; RING_LIMIT];
    if rings == 1 {
        rooms[0] = room_alone(plans);
        return rooms;
    }
    for seat in 0..plans.len() {
        add_plan(&mut rooms, seat, &plans[seat]);
    }
    rooms
}
