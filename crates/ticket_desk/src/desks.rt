//! A desk: three clients draw from a roll by a ring, each on a thread of its own, while a fourth injects faults.
ghost use Rattle.std.specs.Prelude.{◌≡◌, ◌<◌, ◌≤◌, map, eqb, IfOk};
ghost use Rattle.std.specs.List.{IsDistinct};
ghost use Rattle.ring_state.specs.Sizes.{size_of};
ghost use Rattle.ring_shared.specs.Holding.{MeansLegal};
ghost use Rattle.ticket_desk.specs.Tickets.{roll, NoneTwice, JustThoseGone};

use crate::rolls::{NO_TICKET, Roll};
use ring_book::{Book, BookError, Receipt, Reply};
use ring_shared::{CloseReason, Closed, Draft, Name, OpenReason, Ring, Seat};
use ring_state::{Params, RingState};
use std::alloc::Global;
use std::marker::Brand;
use std::sync::{OnceLock, Wait};
use std::thread;
use std::thread::Threads;
use thiserror::Error;

/// The seats with numbers below this are the clients'.
const CLIENTS: u32 = 3;

/// The clients' seats, and the injector's.
const SEATS: u32 = 4;

/// How often a client asks all machines, where the roll does not end before. A client's round without a grant
/// has another's grant or a fault in it, and there are fewer than 100 of these: so each receives the roll's end.
const ROUNDS: u32 = 200;

/// How many faults are injected.
const FAULTS: u32 = 30;

/// Why a desk was not kept to its end. Nothing of it is handed out then.
#[derive(Clone, Copy, Debug, Drop, Error, PartialEq, Eq)]
pub enum DeskError {
    /// The history has as many events as it may have.
    #[error("a history is full")]
    HistoryFull,
    /// A seat's log does not fit the ring's history.
    #[error("logs and history differ")]
    Mismatch,
    /// No place is left for a seat to look at the ring from.
    #[error("no reader place")]
    NoSeat,
    #[error("out of memory")]
    OutOfMemory,
}

/// The desk's refusal for one of a call.
fn refusal_of_call(error: BookError) -> DeskError {
    match error {
        BookError::HistoryFull => DeskError::HistoryFull,
        BookError::OutOfMemory => DeskError::OutOfMemory,
    }
}

/// The desk's refusal for one of opening.
fn refusal_of_open(reason: OpenReason) -> DeskError {
    match reason {
        OpenReason::OutOfMemory => DeskError::OutOfMemory,
        OpenReason::NoSeat => DeskError::NoSeat,
    }
}

/// The desk's refusal for one of closing.
fn refusal_of_close(reason: CloseReason) -> DeskError {
    match reason {
        CloseReason::SeatsMissing | CloseReason::Mismatch => DeskError::Mismatch,
        CloseReason::OutOfMemory => DeskError::OutOfMemory,
    }
}

/// Whether an answer says that the roll has no tickets left.
fn is_end(receipt: Receipt) -> bool {
    matches!(
        receipt.event.reply,
        Reply::Granted {
            number: _,
            result: 0
        }
    )
}

/// Asks each machine in turn to pass; true where the roll's end was answered.
fn ask_all<N: Name, W: Wait>(
    rt: &W,
    ring: &Ring<N, Roll>,
    size: &Params,
    seat: &mut Seat<N>,
) -> Result<bool, BookError>
    requires { size.now ≡ size_of N.start }
    ensures { seat.new.number ≡ seat.old.number }
{
    for machine in 0..size.n() {
        if is_end(ring.pass(rt, seat, machine, 0)?) {
            return Ok(true);
        }
    }
    Ok(false)
}

/// A client: it draws until it receives the roll's end.
fn draw<N: Name, W: Wait>(
    rt: &W,
    ring: &Ring<N, Roll>,
    size: &Params,
    seat: &mut Seat<N>,
) -> Result<(), BookError>
    requires { size.now ≡ size_of N.start }
    ensures { seat.new.number ≡ seat.old.number }
{
    for _ in 0..ROUNDS {
        if ask_all(rt, ring, size, seat)? {
            return Ok(());
        }
    }
    Ok(())
}

/// The injector: it writes values into machines, which nobody asked for.
fn inject<N: Name, W: Wait>(
    rt: &W,
    ring: &Ring<N, Roll>,
    size: &Params,
    seat: &mut Seat<N>,
) -> Result<(), BookError>
    requires { size.now ≡ size_of N.start }
    ensures { seat.new.number ≡ seat.old.number }
{
    for fault in 0..FAULTS {
        ring.corrupt(rt, seat, fault % size.n(), (fault / 2) % size.k())?;
    }
    Ok(())
}

/// The work of the thread of a seat. A refusal is left in `refused`, where another may be.
fn serve<N: Name, W: Wait>(
    rt: &W,
    ring: &Ring<N, Roll>,
    size: &Params,
    refused: &OnceLock<BookError>,
    seat: &mut Seat<N>,
)
    requires { size.now ≡ size_of N.start }
    ensures { seat.new.number ≡ seat.old.number }
{
    let done = if seat.number() < CLIENTS {
        draw(rt, ring, size, seat)
    } else {
        inject(rt, ring, size, seat)
    };
    if let Err(error) = done {
        let _ = refused.try_set(error);
    }
}

/// Serves all seats, each on a thread of its own, and joins the threads.
fn serve_all<N: Name + Send + Sync, W: Threads + Wait + Sync>(
    rt: &W,
    ring: &Ring<N, Roll>,
    size: &Params,
    refused: &OnceLock<BookError>,
    seats: &mut [Seat<N>],
)
    requires { size.now ≡ size_of N.start }
    ensures { map (λ s. s.number) seats.new ≡ map (λ s. s.number) seats.old }
{
    let one = |_index: usize, seat: &mut Seat<N>|
        requires { size.now ≡ size_of N.start }
        ensures { seat.exit.now.number ≡ seat.entry.now.number }
    { serve(rt, ring, size, refused, seat) };
    thread::for_each_mut(rt, seats, SEATS as usize, &one);
}

/// Closes the ring of a desk: its clauses say by themselves which tickets the clients were given.
fn close<N: Name, W: Wait>(
    rt: &W,
    alloc: Global,
    ring: Ring<N, Roll>,
    seats: Vec<Seat<N>>,
) -> Result<Closed<Roll>, DeskError>
    requires { IsDistinct eqb (map (λ s. s.number) seats.items) }
    ensures twice { IfOk result (λ c. NoneTwice c.logs.items) }
    ensures gone { IfOk result (λ c. JustThoseGone c.book.now.content c.logs.items) }
{
    match ring.close(rt, alloc, seats) {
        Ok(closed) => Ok(closed),
        Err(fault) => Err(refusal_of_close(fault.reason)),
    }
}

/// Opens a ring of name `N` over the draft, serves its seats and closes it.
fn run_named<N: Name + Send + Sync, W: Threads + Wait + Sync>(
    rt: &W,
    alloc: Global,
    size: &Params,
    draft: Draft<Roll>,
) -> Result<Closed<Roll>, DeskError>
    requires start { draft.book.start ≡ N.start }
    requires seats { draft.seats ≡ N.seats }
    requires log { draft.log ≡ N.log }
    requires legal { MeansLegal roll 0 N.start N.legal }
    requires size { size.now ≡ size_of N.start }
    ensures twice { IfOk result (λ c. NoneTwice c.logs.items) }
    ensures gone { IfOk result (λ c. JustThoseGone c.book.now.content c.logs.items) }
{
    let (ring, mut seats) = match Ring::<N, Roll>::open(alloc, draft) {
        Ok(opened) => opened,
        Err(fault) => {
            let refusal = refusal_of_open(fault.reason);
            fault.into_book(rt);
            return Err(refusal);
        }
    };
    let refused = OnceLock::new();
    serve_all(rt, &ring, size, &refused, seats.as_mut_slice());
    let closed = close(rt, alloc, ring, seats);
    match refused.get() {
        Some(error) => Err(refusal_of_call(*error)),
        None => closed,
    }
}

/// Keeps a desk over a whole roll, by a ring that starts with this state: three clients draw until each receives
/// the roll's end, while faults are injected. It hands out the closed ring.
///
/// # Errors
///
/// That of opening before any thread is started; then the refusal that some thread met, and else that of closing.
pub fn run_desk<W: Threads + Wait + Sync>(
    rt: &W,
    alloc: Global,
    state: RingState,
) -> Result<Closed<Roll>, DeskError>
    ensures twice { IfOk result (λ c. NoneTwice c.logs.items) }
    ensures gone { IfOk result (λ c. JustThoseGone c.book.now.content c.logs.items) }
{
    let size = state.params();
    let Ok(book) = Book::new(alloc, state, Roll::new()) else {
        return Err(DeskError::OutOfMemory);
    };
    let Ok(draft) = Draft::new(book, SEATS) else {
        return Err(DeskError::OutOfMemory);
    };
    run_named::<Brand, W>(rt, alloc, &size, draft)
}
