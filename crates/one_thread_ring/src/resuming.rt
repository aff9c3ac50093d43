//! A ring that resumes where a saved ring ended.
ghost use Rattle.std.specs.Prelude.{◌≡◌, ◌↔◌, ◌≤◌, map, length, All, IsTrue, IfOk, IfErr};
ghost use Rattle.ring_model.specs.Ring.{ring_with};
ghost use Rattle.ring_model.specs.Resources.{till};
ghost use Rattle.ring_model.specs.History.{opening};
ghost use Rattle.ring_model.specs.Groups.{IsHistory};
ghost use Rattle.ring_model.specs.Limits.{event_limit, seat_limit};
ghost use Rattle.ring_model.specs.Logs.{IsSurvey};
ghost use Rattle.ring_book.specs.BookView.{IsBook};
ghost use Rattle.ring_logs.specs.Seats.{AreOfSeats};
ghost use Rattle.saved_history.specs.Content.{block_of};
ghost use Rattle.ring_check.specs.Table.{event_of};
ghost use Rattle.ring_check.specs.Meaning.{survey_of};
ghost use Rattle.one_thread_ring.specs.Rings.{IsOneThreadRing};
ghost use Rattle.one_thread_ring.specs.Texts.{surveys_told};
ghost use Rattle.one_thread_ring.specs.Resuming.{CanGoOnWith, IsOutOfMemory};

mod events;
mod surveys;

use crate::errors::{CallError, OpenError};
use crate::rings::{OneThreadRing, start_of};
use events::{are_seated, events_of};
use ring_book::{Book, HistoryError, Till};
use ring_logs::surveys_fit;
use ring_state::RingState;
use saved_history::{SavedEvent, SavedRing, SavedSurvey};
use std::alloc::{AllocError, Global};
use surveys::{clients_of, surveys_of};

/// Why a saved ring is not resumed.
#[derive(Clone, Copy, Drop, PartialEq, Eq)]
pub enum ResumeError {
    /// A ring or seats like that do not exist.
    Open(OpenError),
    /// A call of the history is refused: a seat that there is not, or too many events.
    Call(CallError),
    /// The history or the surveys are not the one-thread ring's.
    Differs,
    OutOfMemory,
}

impl From<AllocError> for ResumeError {
    ghost use Rattle.std.specs.Prelude.{◌≡◌};
    ghost use Rattle.one_thread_ring.specs.declared.resuming.ResumeError.TheVariants as resume;

    ghost from_gives = { λ b e. e ≡ resume.OutOfMemory };

    fn from(_error: AllocError) -> ResumeError {
        ResumeError::OutOfMemory
    }
}

/// Why a history is not resumed.
fn history_refused(error: HistoryError) -> ResumeError
    ensures { error ≡ HistoryError.OutOfMemory → IsOutOfMemory result }
{
    match error {
        HistoryError::WrongEvent(_) | HistoryError::BrokenGroup => ResumeError::Differs,
        HistoryError::HistoryFull => ResumeError::Call(CallError::HistoryFull),
        HistoryError::OutOfMemory => ResumeError::OutOfMemory,
    }
}

/// Returns the book of the event lines, which are calls of this many seats.
fn book_of(
    alloc: Global,
    start: RingState,
    events: &[SavedEvent],
    seats: u32,
) -> Result<Book<Till>, ResumeError>
    ensures book { IfOk result (λ b. IsBook till 0 b) }
    ensures start { IfOk result (λ b. b.start ≡ start) }
    ensures history { IfOk result (λ b. b.history ≡ map event_of events.now) }
    ensures seats { IfOk result (λ b. AreOfSeats seats b.history) }
    ensures legal { IsHistory till (opening start 0) (map event_of events.now)
        → AreOfSeats seats (map event_of events.now) → seats ≤ seat_limit
        → length (map event_of events.now) ≤ event_limit → IfErr result (λ e. IsOutOfMemory e) }
{
    let Ok(history) = events_of(alloc, events) else {
        return Err(ResumeError::OutOfMemory);
    };
    if !are_seated(&history, seats) {
        return Err(ResumeError::Call(CallError::NoSeat));
    }
    match Book::from_history(alloc, start, Till::new(), &history) {
        Ok(book) => Ok(book),
        Err(error) => Err(history_refused(error)),
    }
}

/// Whether the survey lines record surveys of the book's history.
fn surveys_hold(
    alloc: Global,
    book: &Book<Till>,
    surveys: &[SavedSurvey],
) -> Result<bool, AllocError>
    ensures { IfOk result (λ hold. IsTrue hold
        ↔ All (IsSurvey till (opening book.now.start 0) book.now.history)
        (map survey_of surveys.now)) }
{
    let told = surveys_of(alloc, surveys)?;
    surveys_fit(alloc, book, &told)
}

/// A ring whose history and surveys are those of the saved ring: it resumes where that ended. Each client has the log that it
/// had there.
///
/// # Errors
///
/// Each where the text is not legal, or memory runs out, or there are fewer seats than the text names. A legal ring with
/// enough seats is refused only because memory runs out.
pub fn from_saved(
    alloc: Global,
    saved: &SavedRing,
    seats: u32,
) -> Result<OneThreadRing<Till>, ResumeError>
    ensures ring { IfOk result (λ d. IsOneThreadRing till 0 d) }
    ensures seats { IfOk result (λ d. length d.clients ≡ seats) }
    ensures start { IfOk result (λ d. d.book.start ≡ ring_with saved.now.k saved.now.start.items) }
    ensures history { IfOk result (λ d. d.book.history ≡ map event_of saved.now.events.items) }
    ensures surveys { IfOk result (λ d. surveys_told d.clients ≡ saved.now.surveys.items) }
    ensures legal { CanGoOnWith seats (block_of saved.now) → IfErr result (λ e. IsOutOfMemory e) }
{
    let start = match start_of(alloc, saved.n, saved.k, &saved.start, seats) {
        Ok(start) => start,
        Err(error) => return Err(ResumeError::Open(error)),
    };
    let book = match book_of(alloc, start, &saved.events, seats) {
        Ok(book) => book,
        Err(error) => return Err(error),
    };
    let clients = match clients_of(alloc, &saved.surveys, seats) {
        Ok(clients) => clients,
        Err(error) => return Err(error),
    };
    match surveys_hold(alloc, &book, &saved.surveys) {
        Ok(true) => Ok(OneThreadRing::with_clients(book, clients)),
        Ok(false) => Err(ResumeError::Differs),
        Err(_) => Err(ResumeError::OutOfMemory),
    }
}
