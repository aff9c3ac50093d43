//! Whether the logs of clients fit a history.
ghost use Rattle.std.specs.Prelude.{◌↔◌, All, IsTrue, IfOk};
ghost use Rattle.ring_model.specs.History.{opening};
ghost use Rattle.ring_model.specs.Logs.{Fits, IsSurvey};

use crate::gathering::{in_order, surveys_in_order};
use crate::judge::are_right;
use crate::logs::ClientLog;
use crate::placing::all_placed;
use ring_book::{Book, Resource};
use ring_model::Survey;
use std::alloc::{AllocError, Global};

/// Whether each of these logs fits the history of the book: its receipts are the client's calls, in order and at their
/// positions; each survey is that of the one-thread ring at its position, which is inside no block; no entry goes back
/// before the client's front. The history is gone through once for the receipts and once for the surveys,
/// however many logs there are. The book and the logs stay.
///
/// # Errors
///
/// If there is no memory for following the logs, for the list of the surveys, and for playing the history again.
pub fn logs_fit<R: Resource + Drop>(
    alloc: Global,
    book: &Book<R>,
    logs: &[ClientLog],
) -> Result<bool, AllocError>
    ensures { IfOk result (λ b. IsTrue b
        ↔ All (λ l. Fits R.works (opening book.now.start R.first) book.now.history l.number l.log)
        logs.now) }
{
    let placed = all_placed(alloc, book, logs)?;
    if !placed {
        return Ok(false);
    }
    let surveys = surveys_in_order(alloc, logs, book.history().len())?;
    are_right(alloc, book, surveys.as_slice())
}

/// Whether each of these surveys is that of the one-thread ring at its position, which is inside no block. They may come in
/// any order; the history is gone through once for all of them.
///
/// # Errors
///
/// No memory for the list of the surveys, and for playing the history again.
pub fn surveys_fit<R: Resource + Drop>(
    alloc: Global,
    book: &Book<R>,
    surveys: &[Survey],
) -> Result<bool, AllocError>
    ensures { IfOk result (λ b. IsTrue b
        ↔ All (IsSurvey R.works (opening book.now.start R.first) book.now.history) surveys.now) }
{
    let ordered = in_order(alloc, surveys)?;
    are_right(alloc, book, ordered.as_slice())
}
