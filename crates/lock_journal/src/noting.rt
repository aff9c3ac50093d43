//! What the journal gets of an answer about a lock.

ghost use Rattle.std.specs.Prelude.{◌≡◌, ◌++◌, [], cond, slice_get, OnOk};
ghost use Rattle.held_locks.specs.Asked.{events_at};
ghost use Rattle.lock_journal.specs.Noting.{events_from, end_line, notes_of_left};

use held_locks::{HoldEnd, Left, Locks};
use one_thread_ring::{put_events, put_survey};
use std::alloc::AllocError;

/// How many events the segment of a lock's ring has; none, if there is no such lock.
pub fn events_at(locks: &Locks, lock: u32) -> usize
    ensures { result ≡ events_at (slice_get locks.now lock) }
{
    if lock >= locks.count() {
        return 0;
    }
    locks.ring(lock).segment().history().len()
}

/// Adds the lines of a lock's events from a place on.
#[inline(always)] // on the way of each hold, like the two after it
fn note_events(
    locks: &Locks,
    lock: u32,
    place: usize,
    notes: &mut Vec<u8>,
) -> Result<(), AllocError>
    ensures { OnOk result (notes.new.items
        ≡ notes.old.items ++ events_from lock place (slice_get locks.now lock)) }
{
    if lock >= locks.count() {
        return Ok(());
    }
    let history = locks.ring(lock).segment().history();
    if place >= history.len() {
        return Ok(());
    }
    match put_events(notes, lock, &history[place..]) {
        Ok(()) => Ok(()),
        Err(_) => Err(AllocError),
    }
}

/// Adds the line of the end of a hold.
#[inline(always)]
fn note_end(lock: u32, ended: Option<HoldEnd>, notes: &mut Vec<u8>) -> Result<(), AllocError>
    ensures { OnOk result (notes.new.items ≡ notes.old.items ++ end_line lock ended) }
{
    let Some(ended) = ended else {
        return Ok(());
    };
    match put_survey(notes, lock, ended.seat, ended.survey) {
        Ok(()) => Ok(()),
        Err(_) => Err(AllocError),
    }
}

/// Adds what a journal gets of a lock whose ring had `place` events.
///
/// # Errors
///
/// Only out of memory.
#[inline(always)]
pub fn note(
    locks: &Locks,
    lock: u32,
    ended: Option<HoldEnd>,
    place: usize,
    notes: &mut Vec<u8>,
) -> Result<(), AllocError>
    ensures { OnOk result (notes.new.items ≡ notes.old.items
        ++ (end_line lock ended ++ events_from lock place (slice_get locks.now lock))) }
{
    match note_end(lock, ended, notes) {
        Ok(()) => note_events(locks, lock, place, notes),
        Err(error) => Err(error),
    }
}

/// The same, if a journal is kept.
///
/// # Errors
///
/// Only out of memory.
pub fn note_if(
    noting: bool,
    locks: &Locks,
    lock: u32,
    ended: Option<HoldEnd>,
    place: usize,
    notes: &mut Vec<u8>,
) -> Result<(), AllocError>
    ensures { OnOk result (notes.new.items ≡ notes.old.items ++ cond noting
        (end_line lock ended ++ events_from lock place (slice_get locks.now lock)) []) }
{
    if noting {
        note(locks, lock, ended, place, notes)
    } else {
        Ok(())
    }
}

/// Adds what a journal gets of what a client left.
fn note_left(locks: &Locks, left: &[Left], notes: &mut Vec<u8>) -> Result<(), AllocError>
    ensures { OnOk result (notes.new.items ≡ notes.old.items ++ notes_of_left locks.now left.now) }
{
    for one in left {
        let place = one.ended.survey.position as usize;
        match note(locks, one.lock, Some(one.ended), place, notes) {
            Ok(()) => {}
            Err(error) => return Err(error),
        }
    }
    Ok(())
}

/// The same, if a journal is kept.
///
/// # Errors
///
/// Only out of memory.
pub fn note_left_if(
    noting: bool,
    locks: &Locks,
    left: &[Left],
    notes: &mut Vec<u8>,
) -> Result<(), AllocError>
    ensures { OnOk result (notes.new.items
        ≡ notes.old.items ++ cond noting (notes_of_left locks.now left.now) []) }
{
    if noting {
        note_left(locks, left, notes)
    } else {
        Ok(())
    }
}
