//! Wrong bodies of the call that makes a book of a history.

ghost use Rattle.std.specs.Prelude.{◌≡◌, ◌<◌, ◌≤◌, ◌∷◌, [], length, IfOk, IfErr};
ghost use Rattle.ring_model.specs.History.{opening, IsLegal};
ghost use Rattle.ring_model.specs.Limits.{seat_limit};
ghost use Rattle.ring_book.specs.BookHistory.{IsBookHistory, IsFirstWrong};
ghost use Rattle.ring_book.specs.HistoryFaults.{IsHistoryFault};

use ring_book::{Book, Event, HistoryError, Resource};
use ring_state::RingState;
use std::alloc::Global;

/// A book has all events of its history: this one has all but the last.
pub fn goes_on_without_the_last_event<R: Resource + Drop>(
    alloc: Global,
    start: RingState,
    resource: R,
    events: &[Event],
) -> Result<Book<R>, HistoryError>
    requires first { resource ≡ R.first }
    requires some { 1 ≤ length events.now }
    ensures wrong { IfOk result (λ b. b.history ≡ events.now → ⊥) }
{
    Book::from_history(alloc, start, resource, &events[..events.len() - 1])
}

/// Each event is tested: this body makes the call of one that is wrong, and looks no further.
#[tactic(auto, using(crate::proofs::Continued::book_is_legal))]
pub fn takes_an_event_for_its_call<R: Resource + Drop>(
    alloc: Global,
    start: RingState,
    resource: R,
    event: Event,
    machine: u32,
    order: u64,
) -> Result<Book<R>, HistoryError>
    requires first { resource ≡ R.first }
    requires seat { event.seat < seat_limit }
    requires machine { machine < length start.values }
    requires illegal { IsLegal R.works (opening start R.first) (event ∷ []) → ⊥ }
    ensures wrong { IfOk result (λ b. b.start ≡ start → b.history ≡ event ∷ [] → ⊥) }
{
    let Ok(mut book) = Book::new(alloc, start, resource) else {
        return Err(HistoryError::OutOfMemory);
    };
    match book.pass(event.seat, machine, order) {
        Ok(_) => Ok(book),
        Err(_) => Err(HistoryError::OutOfMemory),
    }
}

/// Events that are a history are refused only if memory runs out: these are reported as wrong.
#[tactic(auto, using(crate::proofs::Continued::right_is_not_wrong))]
pub fn refuses_a_right_history<R: Resource + Drop>(
    _start: RingState,
    _resource: R,
    _events: &[Event],
    place: u64,
) -> Result<Book<R>, HistoryError>
    requires right { IsBookHistory R.works (opening _start R.first) _events.now }
    ensures wrong { IfErr result
        (λ e. IsHistoryFault R.works (opening _start R.first) _events.now e → ⊥) }
{
    Err(HistoryError::WrongEvent(place))
}

/// The first wrong event is named: here the one after it is.
#[tactic(auto, using(crate::proofs::Continued::one_is_first))]
pub fn names_the_event_behind<R: Resource + Drop>(
    _start: RingState,
    _resource: R,
    _events: &[Event],
    place: u64,
) -> Result<Book<R>, HistoryError>
    requires first { IsFirstWrong R.works (opening _start R.first) _events.now place }
    ensures wrong { IfErr result
        (λ e. IsHistoryFault R.works (opening _start R.first) _events.now e → ⊥) }
{
    Err(HistoryError::WrongEvent(place + 1))
}
