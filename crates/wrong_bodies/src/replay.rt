//! Wrong bodies of the test whether logs fit a history.

ghost use Rattle.std.specs.Prelude.{◌≡◌, ◌≤◌, ◌↔◌, ◌++◌, ◌∷◌, ◌≢◌, [], All, IsTrue, IfOk, take};
ghost use Rattle.ring_model.specs.Limits.{event_limit};
ghost use Rattle.ring_model.specs.History.{opening};
ghost use Rattle.ring_model.specs.Groups.{left_after};
ghost use Rattle.ring_model.specs.Logs.{Fits};
ghost use Rattle.ring_logs.specs.Replays.{calm_after};

use crate::numbers::another;
use ring_book::{Book, Entry, Receipt, Reply, Resource, Survey};
use ring_logs::{ClientLog, calm_behind, logs_fit};
use std::alloc::{AllocError, Global};

/// Logs fit just where each of them does: here the answer is the other one.
pub fn answers_the_other_way<R: Resource + Drop>(
    alloc: Global,
    book: &Book<R>,
    logs: &[ClientLog],
) -> Result<bool, AllocError>
    ensures wrong { IfOk result (λ b. (IsTrue b
        ↔ All (λ l. Fits R.works (opening book.now.start R.first) book.now.history l.number l.log)
        logs.now) → ⊥) }
{
    Ok(!logs_fit(alloc, book, logs)?)
}

/// A log that does not fit is found: here all logs fit.
pub fn lets_all_logs_fit<R: Resource + Drop>(
    book: &Book<R>,
    logs: &[ClientLog],
) -> Result<bool, AllocError>
    requires mismatch { All
        (λ l. Fits R.works (opening book.now.start R.first) book.now.history l.number l.log)
        logs.now → ⊥ }
    ensures wrong { IfOk result (λ b. (IsTrue b
        ↔ All (λ l. Fits R.works (opening book.now.start R.first) book.now.history l.number l.log)
        logs.now) → ⊥) }
{
    Ok(true)
}

/// A mismatch is reported only where a log does not fit: here of all logs.
pub fn lets_no_logs_fit<R: Resource + Drop>(
    book: &Book<R>,
    logs: &[ClientLog],
) -> Result<bool, AllocError>
    requires all { All
        (λ l. Fits R.works (opening book.now.start R.first) book.now.history l.number l.log)
        logs.now }
    ensures wrong { IfOk result (λ b. (IsTrue b
        ↔ All (λ l. Fits R.works (opening book.now.start R.first) book.now.history l.number l.log)
        logs.now) → ⊥) }
{
    Ok(false)
}

/// Each log is looked at: here only some are, which fit, while another does not.
pub fn leaves_logs_out<R: Resource + Drop>(
    alloc: Global,
    book: &Book<R>,
    logs: &[ClientLog],
    some: &[ClientLog],
) -> Result<bool, AllocError>
    requires some { All
        (λ l. Fits R.works (opening book.now.start R.first) book.now.history l.number l.log)
        some.now }
    requires mismatch { All
        (λ l. Fits R.works (opening book.now.start R.first) book.now.history l.number l.log)
        logs.now → ⊥ }
    ensures wrong { IfOk result (λ b. (IsTrue b
        ↔ All (λ l. Fits R.works (opening book.now.start R.first) book.now.history l.number l.log)
        logs.now) → ⊥) }
{
    logs_fit(alloc, book, some)
}

/// A log has each call of its seat: here one that lacks the last receipt is taken for the whole one, which fits.
#[tactic(auto, using(crate::proofs::Logs::no_call_is_lost))]
pub fn lets_a_call_be_lost<R: Resource + Drop>(
    alloc: Global,
    book: &Book<R>,
    front: &[Entry],
    last: Receipt,
    whole: &[ClientLog],
    seat: u32,
) -> Result<bool, AllocError>
    requires whole { whole.now
        ≡ record { number = seat; log = front.now ++ Entry.Receipt last ∷ [] } ∷ [] }
    requires fits { Fits R.works (opening book.now.start R.first) book.now.history seat
        (front.now ++ Entry.Receipt last ∷ []) }
    ensures wrong { IfOk result (λ b. (IsTrue b
        ↔ Fits R.works (opening book.now.start R.first) book.now.history seat front.now) → ⊥) }
{
    logs_fit(alloc, book, whole)
}

/// No survey is right inside a block: here one fits that is in one.
#[tactic(auto, using(crate::proofs::Logs::no_survey_is_inside))]
pub fn lets_a_survey_inside_a_block_fit<R: Resource + Drop>(
    book: &Book<R>,
    seat: u32,
    survey: Survey,
) -> Result<bool, AllocError>
    requires inside { left_after (take survey.position book.now.history) ≢ 0 }
    ensures wrong { IfOk result (λ b. (IsTrue b
        ↔ Fits R.works (opening book.now.start R.first) book.now.history seat
        (Entry.Survey survey ∷ [])) → ⊥) }
{
    Ok(true)
}

/// The calm after a reply is counted: here another number.
pub fn counts_another_calm(calm: u64, reply: Reply) -> u64
    requires { calm ≤ event_limit }
    ensures wrong { result ≡ calm_after calm reply → ⊥ }
{
    another(calm_behind(calm, reply))
}

/// A corruption ends the calm: here it stays as after a refused pass.
pub fn keeps_the_calm(calm: u64, old: u32) -> u64
    requires few { calm ≤ event_limit }
    requires some { 1 ≤ calm }
    ensures wrong { result ≡ calm_after calm (Reply.Corrupted old) → ⊥ }
{
    calm_behind(calm, Reply::NotPrivileged)
}

/// A refused pass does not count: here it counts as a granted one.
pub fn counts_a_refused_pass(calm: u64) -> u64
    requires { calm ≤ event_limit }
    ensures wrong { result ≡ calm_after calm Reply.NotPrivileged → ⊥ }
{
    calm_behind(
        calm,
        Reply::Granted {
            number: 1,
            result: 0,
        },
    )
}
