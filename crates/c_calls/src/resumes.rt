//! A ring of a saved text, which is checked first.

ghost use Rattle.std.specs.Prelude.{◌≡◌, ◌≢◌, ◌<◌, ◌↔◌, ℕ, true, false, All, IsTrue, IfNone, IfOk, IfErr, IfSome};
ghost use Rattle.saved_history.specs.declared.saved.SavedEvent.{SavedEvent};
ghost use Rattle.saved_history.specs.declared.saved.SavedSurvey.{SavedSurvey};
ghost use Rattle.saved_history.specs.Content.{content, block_of};
ghost use Rattle.ring_check.specs.Meaning.{IsRightText, IsRightBlock};
ghost use Rattle.ring_check.specs.Table.{event_of};
ghost use Rattle.c_calls.specs.Resumed.{FitsSeats, IsSeatsFault, IsRingRefused, IsResumedAs, IsPlaceRefused, IsResumedAt, IsResumedFrom, IsSavedAnswer};
ghost use Rattle.c_calls.specs.Reports.{IsVerdict};

use crate::answers::Sums;
use crate::checks::legal_text;
use crate::codes::{BAD_SEATS, HISTORY_FULL, NO_RING, NO_SEAT, resume_code};
use one_thread_ring::{OneThreadRing, from_saved};
use ring_book::Till;
use ring_model::limits::{EVENT_LIMIT, SEAT_LIMIT};
use saved_history::{Saved, SavedEvent, SavedRing, SavedSurvey};
use std::alloc::Global;

/// The seat of an event.
fn seat_of(event: SavedEvent) -> u32
    ensures { result ≡ (event_of event).seat }
{
    match event {
        SavedEvent::Granted { seat, .. } => seat,
        SavedEvent::Member { seat, .. } => seat,
        SavedEvent::Refused { seat, .. } => seat,
        SavedEvent::Corrupted { seat, .. } => seat,
    }
}

/// Whether each event is a call of a seat below this number.
fn call_below(events: &[SavedEvent], seats: u32) -> bool
    ensures { IsTrue result
        ↔ All (λ (e : SavedEvent). (event_of e).seat < seats) events.now }
{
    for event in events {
        if seat_of(*event) >= seats {
            return false;
        }
    }
    true
}

/// Whether each survey is of a seat below this number.
fn look_below(surveys: &[SavedSurvey], seats: u32) -> bool
    ensures { IsTrue result ↔ All (λ (s : SavedSurvey). s.seat < seats) surveys.now }
{
    for survey in surveys {
        if survey.seat >= seats {
            return false;
        }
    }
    true
}

/// Why no ring of this many seats may resume a saved one that is legal.
fn seats_fault(ring: &SavedRing, seats: u32) -> Option<u32>
    ensures some { IfSome result (λ code. IsSeatsFault ring.now seats code) }
    ensures none { IfNone result (FitsSeats ring.now seats) }
{
    if seats == 0 || seats as usize > SEAT_LIMIT {
        return Some(BAD_SEATS);
    }
    if !call_below(&ring.events, seats) || !look_below(&ring.surveys, seats) {
        return Some(NO_SEAT);
    }
    if ring.events.len() > EVENT_LIMIT {
        return Some(HISTORY_FULL);
    }
    None
}

/// A ring that resumes a saved one of a legal text, or the code of why there is none.
pub(crate) fn resume(
    alloc: Global,
    ring: &SavedRing,
    seats: u32,
) -> Result<OneThreadRing<Till>, u32>
    requires { (version : ℕ) × (place : ℕ) × IsRightBlock version place (block_of ring.now) }
    ensures ok { IfOk result (λ d. IsResumedAs ring.now seats d) }
    ensures err { IfErr result (λ code. IsRingRefused ring.now seats code) }
{
    match seats_fault(ring, seats) {
        Some(code) => Err(code),
        None => match from_saved(alloc, ring, seats) {
            Ok(resumed) => Ok(resumed),
            Err(error) => Err(resume_code(error)),
        },
    }
}

/// A ring that resumes the one at this place of a legal text, or the code of why there is none.
fn resume_at(
    alloc: Global,
    saved: &Saved,
    place: u32,
    seats: u32,
) -> Result<OneThreadRing<Till>, u32>
    requires { IsRightText (content saved.now) }
    ensures ok { IfOk result (λ d. IsResumedAt saved.now place seats d) }
    ensures err { IfErr result (λ code. IsPlaceRefused saved.now place seats code) }
{
    match saved.rings.get(place as usize) {
        Some(ring) => resume(alloc, ring, seats),
        None => Err(NO_RING),
    }
}

/// The same for bytes, which are checked first; also the sums of their text, or its first bad line.
pub fn resume_text(
    alloc: Global,
    bytes: &[u8],
    place: u32,
    seats: u32,
    out: &mut Sums,
) -> Result<OneThreadRing<Till>, u32>
    ensures ok { IfOk result (λ d. IsResumedFrom bytes.now place seats d) }
    ensures legal { IfOk result (λ _. IsVerdict bytes.now 0 out.new) }
    ensures err { IfErr result (λ code. IsSavedAnswer bytes.now place seats code out.new) }
    ensures refused { IfErr result (λ code. code ≢ 0) }
{
    match legal_text(alloc, bytes, out) {
        Ok(saved) => resume_at(alloc, &saved, place, seats),
        Err(code) => Err(code),
    }
}
