//! Endings of a ring, each broken: the outcome of a closed ring, or of one that was not closed well, with one thing wrong.

ghost use Rattle.std.specs.Prelude.{◌≡◌, ◌≢◌, ◌<◌, ◌≤◌, ◌↔◌, ℕ, List, [], All, Some, slice_get, map, eqb, length, vec_len, IfOk, IfErr, IfSome, MatchResult};
ghost use Rattle.std.specs.List.{IsDistinct};
ghost use Rattle.ring_model.specs.Limits.{seat_limit};
ghost use Rattle.ring_model.specs.History.{opening};
ghost use Rattle.ring_model.specs.Logs.{Fits, calls_of, receipts_of};
ghost use Rattle.ring_book.specs.BookView.{IsBook};
ghost use Rattle.ring_shared.specs.Closing.{HasLog, AreNumbered};
ghost use Rattle.ring_shared.specs.Seats.{AreOfSeats};

use ring_book::Resource;
use ring_model::Entry;
use ring_shared::{CloseFault, CloseReason, Closed, Log, Name, Ring, Seat};
use std::alloc::Global;
use std::sync::Wait;

/// The logs of a closed ring are in the order of the numbers of their seats: the last two are exchanged.
pub fn logs_in_another_order<N: Name, R: Resource + Drop, W: Wait>(
    ring: Ring<N, R>,
    rt: &W,
    alloc: Global,
    seats: Vec<Seat<N>>,
) -> Option<Closed<R>>
    requires distinct { IsDistinct eqb (map (λ s. s.number) seats.items) }
    ensures wrong { IfSome result (λ c. (vec_len c.logs ≡ N.seats)
        × AreNumbered c.logs.items
        × All (HasLog c.logs.items) seats.items → ⊥) }
{
    let Ok(mut closed) = ring.close(rt, alloc, seats) else {
        return None;
    };
    let last = closed.logs.pop()?;
    let before = closed.logs.pop()?;
    let Ok(()) = closed.logs.push(last) else {
        return None;
    };
    let Ok(()) = closed.logs.push(before) else {
        return None;
    };
    Some(closed)
}

/// A log says the number of its seat: the last one says 0, where it is another's.
pub fn log_of_another_seat<N: Name, R: Resource + Drop, W: Wait>(
    ring: Ring<N, R>,
    rt: &W,
    alloc: Global,
    seats: Vec<Seat<N>>,
) -> Option<Closed<R>>
    requires distinct { IsDistinct eqb (map (λ s. s.number) seats.items) }
    ensures wrong { IfSome result (λ c. (vec_len c.logs ≡ N.seats)
        × AreNumbered c.logs.items
        × All (HasLog c.logs.items) seats.items → ⊥) }
{
    let Ok(mut closed) = ring.close(rt, alloc, seats) else {
        return None;
    };
    let last = closed.logs.pop()?;
    if last.seat == 0 {
        return None;
    }
    let other = Log {
        seat: 0,
        entries: last.entries,
    };
    let Ok(()) = closed.logs.push(other) else {
        return None;
    };
    Some(closed)
}

/// A closed ring hands out the log of each seat: the last one is not handed out.
pub fn log_that_is_not_handed_out<N: Name, R: Resource + Drop, W: Wait>(
    ring: Ring<N, R>,
    rt: &W,
    alloc: Global,
    seats: Vec<Seat<N>>,
) -> Result<Closed<R>, CloseFault<N, R>>
    requires distinct { IsDistinct eqb (map (λ s. s.number) seats.items) }
    requires some { 1 ≤ N.seats }
    ensures wrong { IfOk result (λ c. (vec_len c.logs ≡ N.seats)
        × AreNumbered c.logs.items
        × All (HasLog c.logs.items) seats.items → ⊥) }
{
    let mut closed = ring.close(rt, alloc, seats)?;
    closed.logs.pop();
    Ok(closed)
}

/// A log has all answers to its client: the receipt at the end of the last one is dropped.
pub fn log_without_its_last_receipt<N: Name, R: Resource + Drop, W: Wait>(
    ring: Ring<N, R>,
    rt: &W,
    alloc: Global,
    seats: Vec<Seat<N>>,
) -> Option<Closed<R>>
    requires distinct { IsDistinct eqb (map (λ s. s.number) seats.items) }
    ensures wrong { IfSome result (λ c.
        All (λ l. Fits R.works (opening N.start R.first) c.book.history l.seat l.entries.items)
        c.logs.items → ⊥) }
{
    let Ok(mut closed) = ring.close(rt, alloc, seats) else {
        return None;
    };
    let last = closed.logs.pop()?;
    let mut entries = last.entries;
    let entry = entries.pop()?;
    let Entry::Receipt(_) = entry else {
        return None;
    };
    let shorter = Log {
        seat: last.seat,
        entries,
    };
    let Ok(()) = closed.logs.push(shorter) else {
        return None;
    };
    Some(closed)
}

/// Each event of a closed ring is of one of its seats: one of a seat that it does not have is added.
pub fn event_of_no_seat<N: Name, R: Resource + Drop, W: Wait>(
    ring: Ring<N, R>,
    rt: &W,
    alloc: Global,
    seats: Vec<Seat<N>>,
    other: u32,
) -> Option<Closed<R>>
    requires distinct { IsDistinct eqb (map (λ s. s.number) seats.items) }
    requires few { other < seat_limit }
    requires none { N.seats ≤ other }
    ensures wrong { IfSome result (λ c. AreOfSeats N.seats c.book.history → ⊥) }
{
    let Ok(mut closed) = ring.close(rt, alloc, seats) else {
        return None;
    };
    let Ok(_) = closed.book.pass(other, 0, 0) else {
        return None;
    };
    Some(closed)
}

/// The history of a closed ring holds just the calls of its logs: one more of seat 0 is made.
pub fn event_that_no_client_was_told<N: Name, R: Resource + Drop, W: Wait>(
    ring: Ring<N, R>,
    rt: &W,
    alloc: Global,
    seats: Vec<Seat<N>>,
) -> Option<Closed<R>>
    requires distinct { IsDistinct eqb (map (λ s. s.number) seats.items) }
    requires some { 1 ≤ N.seats }
    ensures wrong { IfSome result (λ c.
        All (λ l. length (calls_of l.seat c.book.history) ≡ length (receipts_of l.entries.items))
        c.logs.items → ⊥) }
{
    let Ok(mut closed) = ring.close(rt, alloc, seats) else {
        return None;
    };
    let Ok(_) = closed.book.pass(0, 0, 0) else {
        return None;
    };
    Some(closed)
}

/// Where seats are missing a ring says so: it says that logs do not fit.
pub fn missing_seats_told_as_a_mismatch<N: Name, R: Resource + Drop, W: Wait>(
    ring: Ring<N, R>,
    rt: &W,
    alloc: Global,
    seats: Vec<Seat<N>>,
) -> Result<Closed<R>, CloseFault<N, R>>
    requires distinct { IsDistinct eqb (map (λ s. s.number) seats.items) }
    requires missing { vec_len seats < N.seats }
    ensures wrong { (MatchResult result (λ _. ⊥) (λ f. f.reason ≡ CloseReason.SeatsMissing)
        ↔ vec_len seats < N.seats) → ⊥ }
{
    match ring.close(rt, alloc, seats) {
        Ok(closed) => Ok(closed),
        Err(fault) => Err(CloseFault {
            reason: CloseReason::Mismatch,
            book: fault.book,
            seats: fault.seats,
        }),
    }
}

/// A ring whose logs fit its history is closed well: it says that they do not.
pub fn fitting_logs_told_as_a_mismatch<N: Name, R: Resource + Drop, W: Wait>(
    ring: Ring<N, R>,
    rt: &W,
    alloc: Global,
    seats: Vec<Seat<N>>,
) -> Option<Result<Closed<R>, CloseFault<N, R>>>
    requires distinct { IsDistinct eqb (map (λ s. s.number) seats.items) }
    ensures wrong { IfSome result (λ answer. IfErr answer (λ f. f.reason ≡ CloseReason.Mismatch
        → All (λ s. Fits R.works (opening N.start R.first) f.book.history s.number s.log)
        seats.items → ⊥) → ⊥) }
{
    let Ok(closed) = ring.close(rt, alloc, seats) else {
        return None;
    };
    Some(Err(CloseFault {
        reason: CloseReason::Mismatch,
        book: closed.book,
        seats: Vec::new(alloc),
    }))
}

/// A ring that was not closed well hands all its seats back: the last one is lost.
pub fn seat_that_is_not_handed_back<N: Name, R: Resource + Drop, W: Wait>(
    ring: Ring<N, R>,
    rt: &W,
    alloc: Global,
    seats: Vec<Seat<N>>,
) -> Result<Closed<R>, CloseFault<N, R>>
    requires distinct { IsDistinct eqb (map (λ s. s.number) seats.items) }
    requires some { 1 ≤ vec_len seats }
    ensures wrong { IfErr result (λ f. (f.book.start ≡ N.start)
        × IsBook R.works R.first f.book
        × AreOfSeats N.seats f.book.history
        × (f.seats.items ≡ seats.items) → ⊥) }
{
    match ring.close(rt, alloc, seats) {
        Ok(closed) => Ok(closed),
        Err(mut fault) => {
            fault.seats.pop();
            Err(fault)
        }
    }
}
