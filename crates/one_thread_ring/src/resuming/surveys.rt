//! The survey lines of a saved ring.
ghost use Rattle.std.specs.Prelude.{◌≡◌, ◌<◌, ◌≤◌, map, All, IfOk, IfErr};
ghost use Rattle.ring_model.specs.Limits.{seat_limit};
ghost use Rattle.ring_check.specs.Meaning.{survey_of, AreInOrder, AreOnward};
ghost use Rattle.one_thread_ring.specs.Texts.{surveys_kept};
ghost use Rattle.one_thread_ring.specs.Resuming.{AreSeated, IsToldFirst, IsOutOfMemory};

use super::ResumeError;
use crate::clients::Client;
use crate::errors::CallError;
use ring_model::Survey;
use saved_history::SavedSurvey;
use std::alloc::{AllocError, Global};

/// The survey that a survey line records.
fn survey_told(saved: SavedSurvey) -> Survey
    ensures { result ≡ survey_of saved }
{
    Survey {
        position: saved.position,
        privileged: saved.privileged,
        first: saved.first,
        calm: saved.calm,
        rest: saved.rest,
    }
}

/// The surveys that survey lines record.
pub(crate) fn surveys_of(alloc: Global, lines: &[SavedSurvey]) -> Result<Vec<Survey>, AllocError>
    ensures { IfOk result (λ v. v.items ≡ map survey_of lines.now) }
{
    let mut surveys = Vec::with_capacity(alloc, lines.len())?;
    for line in lines {
        surveys.push(survey_told(*line))?;
    }
    Ok(surveys)
}

/// Returns the client of this number with the surveys of the first lines, up to one that is another client's.
fn client_of(alloc: Global, number: u32, lines: &[SavedSurvey]) -> Result<Client, ResumeError>
    requires { number < seat_limit }
    ensures told { IfOk result (λ c. IsToldFirst number lines.now c) }
    ensures onward { AreOnward number 0 lines.now → IfErr result (λ e. IsOutOfMemory e) }
{
    let mut client = Client::new(alloc, number);
    let mut low = 0;
    for line in lines {
        if line.seat != number {
            return Ok(client);
        }
        if line.position < low {
            return Err(ResumeError::Differs);
        }
        let Ok(()) = client.tell(survey_told(*line)) else {
            return Err(ResumeError::OutOfMemory);
        };
        low = line.position;
    }
    Ok(client)
}

/// Why survey lines are left over: one is of a seat that does not exist, or they don't follow seat by seat.
fn left_over(line: SavedSurvey, seats: u32) -> ResumeError {
    if line.seat >= seats {
        ResumeError::Call(CallError::NoSeat)
    } else {
        ResumeError::Differs
    }
}

/// Returns the clients of this many seats, with the surveys of these lines.
pub(crate) fn clients_of(
    alloc: Global,
    lines: &[SavedSurvey],
    seats: u32,
) -> Result<Vec<Client>, ResumeError>
    requires { seats ≤ seat_limit }
    ensures seated { IfOk result (λ v. AreSeated seats v.items) }
    ensures told { IfOk result (λ v. surveys_kept v.items ≡ lines.now) }
    ensures legal { AreInOrder lines.now → All (λ s. s.seat < seats) lines.now
        → IfErr result (λ e. IsOutOfMemory e) }
{
    let Ok(mut clients) = Vec::with_capacity(alloc, seats as usize) else {
        return Err(ResumeError::OutOfMemory);
    };
    let mut place = 0;
    for number in 0..seats {
        match client_of(alloc, number, &lines[place..]) {
            Ok(client) => {
                place += client.surveys().len();
                clients.push_reserved(client);
            }
            Err(error) => return Err(error),
        }
    }
    if place < lines.len() {
        return Err(left_over(lines[place], seats));
    }
    Ok(clients)
}
