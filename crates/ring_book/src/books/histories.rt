ghost use Rattle.std.specs.Prelude.{◌≡◌, ◌<◌, ◌≤◌, ◌↔◌, length, IfOk, OnOk, IfErr, IsErrOf};
ghost use Rattle.ring_model.specs.History.{opening, after};
ghost use Rattle.ring_model.specs.Limits.{event_limit};
ghost use Rattle.ring_book.specs.BookView.{IsBook};
ghost use Rattle.ring_book.specs.BookHistory.{IsBookHistory};
ghost use Rattle.ring_book.specs.HistoryFaults.{IsHistoryFault};

use crate::books::Book;
use crate::resources::Resource;
use crate::wholes::are_whole;
use ring_model::Event;
use ring_model::limits::EVENT_LIMIT;
use ring_state::RingState;
use std::alloc::Global;
use thiserror::Error;

/// Why there is no book with these events.
#[derive(Clone, Copy, Debug, Drop, Error, PartialEq, Eq)]
pub enum HistoryError {
    #[error("event {0} is not the one that the ring gives")]
    WrongEvent(u64),
    #[error("a group is not whole")]
    BrokenGroup,
    #[error("a history is full")]
    HistoryFull,
    #[error("out of memory")]
    OutOfMemory,
}

impl<R: Resource + Drop> Book<R> {
    /// A book that starts with this state and this resource, which has its first content, and has these events. Each event
    /// is tested by the book's own step: its call is made, and has to give it.
    ///
    /// # Errors
    ///
    /// `HistoryFull` for more than `EVENT_LIMIT` events; `WrongEvent` with the place of the first event that is not what
    /// the ring, the resource and the grants before it give, or whose seat is not below `SEAT_LIMIT`; `BrokenGroup`
    /// where each event is given so, but the members of some group are not all there, one after the other in their order;
    /// `OutOfMemory`, the one refusal of at most `EVENT_LIMIT` events that are right.
    #[tactic(auto, using(crate::proofs::Replaying::never_wrong))]
    pub fn from_history(
        alloc: Global,
        start: RingState,
        resource: R,
        events: &[Event],
    ) -> Result<Book<R>, HistoryError>
        requires { resource ≡ R.first }
        ensures ok { IfOk result (λ b. (b.start ≡ start)
            × (b.history ≡ events.now)
            × (b.now ≡ after R.works (opening start R.first) events.now)) }
        ensures book { IfOk result (λ b. IsBook R.works R.first b) }
        ensures history { OnOk result
            (IsBookHistory R.works (opening start R.first) events.now) }
        ensures err { IfErr result
            (λ e. IsHistoryFault R.works (opening start R.first) events.now e) }
        ensures right { IsBookHistory R.works (opening start R.first) events.now
            → length events.now ≤ event_limit → IfErr result (λ e. e ≡ HistoryError.OutOfMemory) }
        ensures full { IsErrOf result HistoryError.HistoryFull ↔ (event_limit < length events.now) }
    {
        if events.len() > EVENT_LIMIT {
            return Err(HistoryError::HistoryFull);
        }
        let Ok(book) = Book::new(alloc, start, resource) else {
            return Err(HistoryError::OutOfMemory);
        };
        let mut parts = book.parts;
        let Ok(()) = parts.events.reserve(events.len() as u32) else {
            return Err(HistoryError::OutOfMemory);
        };
        if let Some(place) = parts.replay(events) {
            return Err(HistoryError::WrongEvent(place));
        }
        if !are_whole(parts.start.params().n(), events) {
            return Err(HistoryError::BrokenGroup);
        }
        Ok(Book { parts })
    }
}
