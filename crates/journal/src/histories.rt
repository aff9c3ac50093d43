//! The history that a journal records.

ghost use Rattle.std.specs.Prelude.{◌≡◌, ◌≤◌, ◌<◌, ◌+◌, not, length, map, take, vec_len, IfOk, OnOk};
ghost use Rattle.std.specs.List.{All, filter};
ghost use Rattle.ring_model.specs.Limits.{seat_limit};
ghost use Rattle.saved_history.specs.Content.{block_of, content};
ghost use Rattle.journal.specs.declared.calls.JournalLine.{JournalLine};
ghost use Rattle.journal.specs.ContentAfter.{is_open, whole, with_call, with_calls, is_of, by_seats, in_order, content_after};

use crate::calls::{Call, JournalLine};
use ring_model::limits::SEAT_LIMIT;
use saved_history::{Saved, SavedEvent, SavedRing, SavedSurvey};
use std::alloc::{AllocError, Global};

/// Whether a call is a member of a group with more members after it.
fn is_open(call: &Call) -> bool
    ensures { result ≡ is_open call.now }
{
    match *call {
        Call::Event(SavedEvent::Member { left, .. }) => left > 0,
        _ => false,
    }
}

/// How many calls are before the open members at the end.
fn whole_length(calls: &[JournalLine]) -> usize
    ensures within { result ≤ length calls.now }
    ensures is { take result calls.now ≡ whole calls.now }
{
    let mut length: usize = 0;
    for (i, recorded) in calls.iter().enumerate() {
        if !is_open(&recorded.call) {
            length = i + 1;
        }
    }
    length
}

/// Puts a call after those that a ring has.
fn add(ring: &mut SavedRing, call: Call) -> Result<(), AllocError>
    ensures { OnOk result (block_of ring.new ≡ with_call (block_of ring.old) call) }
{
    match call {
        Call::Event(event) => {
            ring.events.push(event)?;
            ring.events_said = ring.events.len() as u64;
        }
        Call::Survey(survey) => ring.surveys.push(survey)?,
    }
    Ok(())
}

/// Puts the calls after those that the rings have, one after the other.
fn add_all(rings: &mut Vec<SavedRing>, calls: &[JournalLine]) -> Result<(), AllocError>
    requires { All (λ (r : JournalLine). r.ring < vec_len rings.old) calls.now }
    ensures { OnOk result
        (map block_of rings.new.items ≡ with_calls (map block_of rings.old.items) calls.now) }
{
    for recorded in calls {
        add(&mut rings[recorded.ring as usize], recorded.call)?;
    }
    Ok(())
}

/// The surveys of a seat.
fn of_seat(
    alloc: Global,
    seat: u32,
    surveys: &[SavedSurvey],
) -> Result<Vec<SavedSurvey>, AllocError>
    ensures { IfOk result (λ found. found.items ≡ filter (is_of seat) surveys.now) }
{
    surveys
        .iter()
        .filter(|survey| survey.seat == seat)
        .copied()
        .collect(alloc)
}

/// Those of the others.
fn of_others(
    alloc: Global,
    seat: u32,
    surveys: &[SavedSurvey],
) -> Result<Vec<SavedSurvey>, AllocError>
    ensures { IfOk result (λ found. found.items ≡ filter (λ s. not (is_of seat s)) surveys.now) }
{
    surveys
        .iter()
        .filter(|survey| survey.seat != seat)
        .copied()
        .collect(alloc)
}

/// The surveys seat by seat, and each seat's in their order.
fn by_seats(alloc: Global, surveys: &[SavedSurvey]) -> Result<Vec<SavedSurvey>, AllocError>
    ensures { IfOk result (λ found. found.items ≡ by_seats 0 seat_limit surveys.now) }
{
    let mut found = Vec::new(alloc);
    let mut rest = Vec::from_slice(alloc, surveys)?;
    for seat in 0..SEAT_LIMIT {
        let next = of_seat(alloc, seat as u32, &rest)?;
        found.extend_from_slice(&next)?;
        rest = of_others(alloc, seat as u32, &rest)?;
    }
    found.extend_from_slice(&rest)?;
    Ok(found)
}

/// A ring with its surveys in the order that saved texts have.
fn in_order(alloc: Global, ring: SavedRing) -> Result<SavedRing, AllocError>
    ensures { IfOk result (λ r. block_of r ≡ in_order (block_of ring)) }
{
    let SavedRing {
        index,
        n,
        k,
        start,
        events,
        events_said,
        surveys,
    } = ring;
    let surveys = by_seats(alloc, &surveys)?;
    Ok(SavedRing {
        index,
        n,
        k,
        start,
        events,
        events_said,
        surveys,
    })
}

/// The rings with their surveys so.
///
/// # Errors
///
/// [`AllocError`] if there is no memory for them.
pub fn all_in_order(alloc: Global, rings: Vec<SavedRing>) -> Result<Vec<SavedRing>, AllocError>
    ensures { IfOk result
        (λ found. map block_of found.items ≡ map in_order (map block_of rings.items)) }
{
    let mut found = Vec::new(alloc);
    for ring in rings {
        found.push(in_order(alloc, ring)?)?;
    }
    Ok(found)
}

/// Returns the history of saved rings and the calls after them.
pub(crate) fn history(
    alloc: Global,
    began: Saved,
    calls: &[JournalLine],
) -> Result<Saved, AllocError>
    requires { All (λ (r : JournalLine). r.ring < vec_len began.rings) calls.now }
    ensures { IfOk result (λ saved. content saved ≡ content_after (content began) calls.now) }
{
    let Saved {
        version,
        mut rings,
        rings_said,
    } = began;
    add_all(&mut rings, &calls[..whole_length(calls)])?;
    let rings = all_in_order(alloc, rings)?;
    Ok(Saved {
        version,
        rings,
        rings_said,
    })
}
