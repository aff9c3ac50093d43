//! The end of a ring: its history and the logs of its seats, where they fit each other.
ghost use Rattle.std.specs.Prelude.{◌≡◌, ◌<◌, ◌≤◌, ◌↔◌, List, [], All, map, eqb, length, vec_len, vec_capacity, IsTrue, IfOk, IfErr, MatchResult};
ghost use Rattle.std.specs.List.{IsDistinct};
ghost use mathlib.Core.List.{IsPrefix};
ghost use Rattle.std.specs.List.Sorted.{IsPermutation, IsNonDecreasingBy};
ghost use Rattle.ring_model.specs.Groups.{IsHistory};
ghost use Rattle.ring_model.specs.History.{opening};
ghost use Rattle.ring_model.specs.HistoryLaws.{Settlement};
ghost use Rattle.ring_model.specs.Progress.{Progress};
ghost use Rattle.ring_model.specs.Logs.{Fits, calls_of, receipts_of};
ghost use Rattle.ring_book.specs.BookView.{IsBook};
ghost use Rattle.ring_shared.specs.Client.{Client, told_of};
ghost use Rattle.ring_shared.specs.Closing.{HasLog, AreNumbered, AreLogsOf};
ghost use Rattle.ring_logs.specs.Seats.{AreOfSeats};

use crate::front::Front;
use crate::names::Name;
use crate::rings::Ring;
use crate::seats::Seat;
use ring_book::{Book, Resource};
use ring_logs::{ClientLog, Log, logs_fit};
use std::alloc::{AllocError, Global};
use std::sync::Wait;

/// A ring that is closed: its book, and its seats' logs by number.
#[derive(Drop)]
pub struct Closed<R: Resource + Drop> {
    pub book: Book<R>,
    pub logs: Vec<Log>,
}

/// Why a ring was not closed well.
#[derive(Clone, Copy, Debug, PartialEq, Eq)]
pub enum CloseReason {
    /// Fewer seats were given than the ring has.
    SeatsMissing,
    /// Some seat's log doesn't fit the history.
    Mismatch,
    OutOfMemory,
}

/// A ring that was not closed well: why, its book, and the seats as they were given.
#[derive(Drop)]
pub struct CloseFault<N: Name, R: Resource + Drop> {
    pub reason: CloseReason,
    pub book: Book<R>,
    pub seats: Vec<Seat<N>>,
}

/// A ring that was not closed well, for this reason.
fn close_fault<N: Name, R: Resource + Drop>(
    reason: CloseReason,
    book: Book<R>,
    seats: Vec<Seat<N>>,
) -> CloseFault<N, R>
    ensures { (result.reason ≡ reason) × (result.book ≡ book) × (result.seats ≡ seats) }
{
    CloseFault {
        reason,
        book,
        seats,
    }
}

impl<N: Name, R: Resource + Drop> Ring<N, R> {
    /// Ends the ring: its book, and the logs of its seats, each compared with the history. The
    /// seats are given back all, in any order; no two have one number. It may wait.
    ///
    /// # Errors
    ///
    /// `SeatsMissing` where seats are fewer than the ring has; `Mismatch`, only where some log doesn't fit
    /// the history; `OutOfMemory`. The book and the seats are handed back, the seats as they were.
    pub fn close<W: Wait>(
        self,
        rt: &W,
        alloc: Global,
        seats: Vec<Seat<N>>,
    ) -> Result<Closed<R>, CloseFault<N, R>>
        requires { IsDistinct eqb (map (λ s. s.number) seats.items) }

        // The history is one of the one-thread ring, which settles as the laws say, and serves its callers.
        ensures start { IfOk result (λ c. c.book.start ≡ N.start) }
        ensures book { IfOk result (λ c. IsBook R.works R.first c.book) }
        ensures legal_and_whole { IfOk result
            (λ c. IsHistory R.works (opening N.start R.first) c.book.history) }
        ensures settlement { IfOk result
            (λ c. Settlement R.works (opening N.start R.first) c.book.history) }
        ensures progress { IfOk result
            (λ c. Progress R.works (opening N.start R.first) c.book.history) }

        // It holds each client's calls, and no others; each reply and survey is right at its place.
        ensures logs { IfOk result (λ c. (vec_len c.logs ≡ N.seats)
            × AreNumbered c.logs.items
            × All (HasLog c.logs.items) seats.items) }
        ensures of_seats { IfOk result (λ c. AreOfSeats N.seats c.book.history) }
        ensures fits { IfOk result (λ c.
            All (λ l. Fits R.works (opening N.start R.first) c.book.history l.seat l.entries.items)
            c.logs.items) }
        ensures calls { IfOk result (λ c. All
            (λ l. length (calls_of l.seat c.book.history) ≡ length (receipts_of l.entries.items))
            c.logs.items) }

        // The events that each seat has seen are a prefix of it.
        ensures seen { IfOk result (λ c. All (λ s. IsPrefix s.seen c.book.history) seats.items) }

        // Each refusal has its reason, and hands back what was given.
        ensures missing { MatchResult result (λ _. ⊥) (λ f. f.reason ≡ CloseReason.SeatsMissing)
            ↔ vec_len seats < N.seats }
        ensures mismatch { IfErr result (λ f. f.reason ≡ CloseReason.Mismatch
            → All (λ s. Fits R.works (opening N.start R.first) f.book.history s.number s.log)
            seats.items → ⊥) }
        ensures fault { IfErr result (λ f. (f.book.start ≡ N.start)
            × IsBook R.works R.first f.book
            × AreOfSeats N.seats f.book.history
            × (f.seats.items ≡ seats.items)) }
    {
        let Ring { shared, seats: all } = self;
        let (book, front, writer) = shared.into_inner().into_parts();
        writer.take(rt); // nobody looks now
        let logs = match room_for_logs(alloc, &book, all, seats.as_slice()) {
            Ok(logs) => logs,
            Err(reason) => return Err(close_fault(reason, book, seats)),
        };
        all_begin(rt, seats.as_slice(), &front);
        Ok(Closed {
            book,
            logs: logs_by_number(seats, logs),
        })
    }
}

/// Room for the logs of these seats, where they are as many as the ring has and each one's log fits the history.
fn room_for_logs<N: Name, R: Resource + Drop>(
    alloc: Global,
    book: &Book<R>,
    count: u32,
    seats: &[Seat<N>],
) -> Result<Vec<Log>, CloseReason>
    requires { count ≡ N.seats }
    ensures room { IfOk result (λ v. (length seats.now ≤ vec_capacity v) × (v.items ≡ [])) }
    ensures all { IfOk result (λ _. N.seats ≤ length seats.now) }
    ensures fits { IfOk result (λ _.
        All (λ s. Fits R.works (opening book.now.start R.first) book.now.history s.number s.log)
        seats.now) }
    ensures missing { MatchResult result (λ _. ⊥) (λ e. e ≡ CloseReason.SeatsMissing)
        ↔ length seats.now < N.seats }
    ensures mismatch { IfErr result (λ e. e ≡ CloseReason.Mismatch
        → All (λ s. Fits R.works (opening book.now.start R.first) book.now.history s.number s.log)
        seats.now → ⊥) }
{
    if seats.len() < count as usize {
        return Err(CloseReason::SeatsMissing);
    }
    let Ok(logs) = Vec::with_capacity(alloc, seats.len()) else {
        return Err(CloseReason::OutOfMemory);
    };
    let Ok(fit) = all_fit(alloc, book, seats) else {
        return Err(CloseReason::OutOfMemory);
    };
    if !fit {
        return Err(CloseReason::Mismatch);
    }
    Ok(logs)
}

/// The logs of the seats, in their order.
fn logs_of<N: Name>(alloc: Global, seats: &[Seat<N>]) -> Result<Vec<ClientLog>, AllocError>
    ensures { IfOk result (λ v. v.items ≡ map told_of seats.now) }
{
    let mut logs = Vec::with_capacity(alloc, seats.len())?;
    for seat in seats {
        logs.push_reserved(seat.told());
    }
    Ok(logs)
}

/// Whether each seat's log fits the history of the book.
///
/// # Errors
///
/// If there is no memory for the list of the logs, and for what `logs_fit` takes.
fn all_fit<N: Name, R: Resource + Drop>(
    alloc: Global,
    book: &Book<R>,
    seats: &[Seat<N>],
) -> Result<bool, AllocError>
    ensures { IfOk result (λ b. IsTrue b
        ↔ All (λ s. Fits R.works (opening book.now.start R.first) book.now.history s.number s.log)
        seats.now) }
{
    let logs = logs_of(alloc, seats)?;
    logs_fit(alloc, book, logs.as_slice())
}

/// Returns only where the list that each seat has seen is a prefix of this front. It returns where the front has the
/// whole list, as the one that was under the lock has.
fn all_begin<N: Name, W: Wait>(rt: &W, seats: &[Seat<N>], front: &Front<N>)
    ensures { All (λ s. IsPrefix s.seen front.now) seats.now }
{
    for seat in seats {
        seat.surely_begins(rt, front);
    }
}

/// The facts that the type of the seats has for them all.
fn all_given<N: Name>(seats: &[Seat<N>])
    ensures { All (λ s. s.number < N.seats) seats.now }
{
    for seat in seats {
        seat.number(); // says: it is below the number of seats
    }
}

/// Puts the seats in the order of their numbers.
fn sort<N: Name>(seats: &mut Vec<Seat<N>>)
    ensures permutation { IsPermutation seats.old.items seats.new.items }
    ensures sorted { IsNonDecreasingBy (λ s. s.number) seats.new.items }
{
    seats.sort_unstable_by_key(|seat| seat.number());
}

/// The logs of the seats, in their order.
fn into_logs<N: Name>(seats: Vec<Seat<N>>, mut logs: Vec<Log>) -> Vec<Log>
    requires room { vec_len seats ≤ vec_capacity logs }
    requires empty { logs.items ≡ [] }
    ensures { AreLogsOf seats.items result.items }
{
    for seat in seats {
        logs.push_reserved(seat.into_log());
    }
    logs
}

/// The logs of all the seats of a ring, by number.
fn logs_by_number<N: Name>(mut seats: Vec<Seat<N>>, logs: Vec<Log>) -> Vec<Log>
    requires distinct { IsDistinct eqb (map (λ s. s.number) seats.items) }
    requires all { N.seats ≤ length seats.items }
    requires room { vec_len seats ≤ vec_capacity logs }
    requires empty { logs.items ≡ [] }
    ensures numbered { (vec_len result ≡ N.seats)
        × AreNumbered result.items
        × All (HasLog result.items) seats.items }
    ensures sorted { (ss : List Client) × IsPermutation seats.items ss × AreLogsOf ss result.items }
{
    all_given(seats.as_slice());
    sort(&mut seats);
    into_logs(seats, logs)
}
