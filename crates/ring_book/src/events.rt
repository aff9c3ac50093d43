ghost use Rattle.std.specs.Prelude.{◌≡◌, ◌≤◌, ◌<◌, ◌+◌, ◌++◌, ◌∷◌, ◌↔◌, [], length, IsOk, OnOk, OnErr, IsErrOf};
ghost use Rattle.ring_model.specs.Limits.{event_limit};
ghost use Rattle.ring_book.specs.EventsView.{EventsView};

use ring_model::Event;
use ring_model::limits::EVENT_LIMIT;
use std::alloc::Global;
use std::marker::Model;
use thiserror::Error;

/// Why a book refuses a call.
#[derive(Clone, Copy, Debug, Drop, Error, PartialEq, Eq)]
pub enum BookError {
    #[error("a history is full")]
    HistoryFull,
    #[error("out of memory")]
    OutOfMemory,
}

/// The events of a history, which are at most `EVENT_LIMIT`.
///
/// Contracts see the events and the room: how many more can be added without asking for memory.
#[derive(Drop)]
pub(crate) struct Events {
    items: Vec<Event>,
}

impl Model for Events {
    ghost use Rattle.std.specs.Prelude.{◌≤◌, ◌-◌, length, min, vec_capacity};
    ghost use Rattle.ring_model.specs.Limits.{event_limit};
    ghost use Rattle.ring_book.specs.EventsView.{EventsView};

    ghost Value = { EventsView };

    ghost view = { λ e. record {
      list = e.items.items;
      room = min (vec_capacity e.items) event_limit - length e.items.items;
    } };

    ghost invariant = { λ e. length e.items.items ≤ event_limit };
}

impl Events {
    /// No events, and no memory for any.
    pub(crate) fn new(alloc: Global) -> Events
        ensures { result ≡ record { list = []; room = 0 } }
    {
        Events {
            items: Vec::new(alloc),
        }
    }

    /// The events, in order.
    pub(crate) fn as_slice(&self) -> &[Event]
        ensures is { result.now ≡ self.now.list }
        ensures bounded { length self.now.list + self.now.room ≤ event_limit }
    {
        self.items.as_slice()
    }

    /// Takes memory for `more` events.
    pub(crate) fn reserve(&mut self, more: u32) -> Result<(), BookError>
        ensures list { self.new.list ≡ self.old.list }
        ensures ok { OnOk result (more ≤ self.new.room) }
        ensures grows { self.old.room ≤ self.new.room }
        ensures bounded { length self.new.list + self.new.room ≤ event_limit }
        ensures full { IsErrOf result BookError.HistoryFull
            ↔ (event_limit < length self.old.list + more) }
        ensures succeeds { more ≤ self.old.room → IsOk result }
        ensures err { OnErr result (self.new ≡ self.old) }
    {
        let more = more as usize;
        let left = EVENT_LIMIT - self.items.len();
        if more > left {
            return Err(BookError::HistoryFull);
        }
        let Ok(()) = self.items.reserve(more) else {
            return Err(BookError::OutOfMemory);
        };
        Ok(())
    }

    /// Adds an event, and answers its index.
    pub(crate) fn push(&mut self, event: Event) -> u64
        requires { 1 ≤ self.old.room }
        ensures position { result ≡ length self.old.list }
        ensures list { self.new.list ≡ self.old.list ++ event ∷ [] }
        ensures room { self.new.room + 1 ≡ self.old.room }
    {
        let position = self.items.len() as u64;
        self.items.push_reserved(event);
        position
    }
}
