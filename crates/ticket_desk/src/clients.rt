//! Three clients that take turns, each on a thread of its own.
ghost use Rattle.std.specs.Prelude.{◌≡◌, length, map, eqb};
ghost use Rattle.std.specs.List.{IsDistinct};
ghost use Rattle.ring_model.specs.Ring.{IsRing};
ghost use Rattle.ring_shared.specs.Holding.{MeansLegal};
ghost use Rattle.ring_state.specs.Sizes.{size_of};
ghost use Rattle.ring_turns.specs.Spared.{spared};
ghost use Rattle.ticket_desk.specs.Tickets.{roll};

use crate::rolls::Roll;
use anyhow::bail;
use ring_book::{Book, BookError};
use ring_shared::{Closed, Draft, Name, Ring, Seat};
use ring_state::RingState;
use ring_turns::{Spared, TooFewMachines, Turns};
use std::alloc::Global;
use std::marker::Brand;
use std::sync::{OnceLock, Wait};
use std::thread;
use std::thread::Threads;

/// How many clients there are, each with a machine and a seat of its number.
pub(crate) const CLIENTS: u32 = 3;

/// How many turns each client takes.
pub(crate) const TURNS: u32 = 20;

/// The work of the thread of a client: it takes its turns. A refusal is left in `refused`, where another may be.
fn serve<N: Name, W: Wait>(
    rt: &W,
    turns: &Turns<N, Roll>,
    refused: &OnceLock<BookError>,
    seat: &mut Seat<N>,
)
    requires { turns.now ≡ 3 }
    ensures { seat.new.number ≡ seat.old.number }
{
    if seat.number() >= CLIENTS {
        return;
    }
    for _ in 0..TURNS {
        if let Err(error) = turns.take_turn(rt, seat, 0) {
            let _ = refused.try_set(error);
            return;
        }
    }
}

/// Serves all clients, each on a thread of its own, and joins the threads.
fn serve_all<N: Name + Send + Sync, W: Threads + Wait + Sync>(
    rt: &W,
    turns: &Turns<N, Roll>,
    refused: &OnceLock<BookError>,
    seats: &mut [Seat<N>],
)
    requires { turns.now ≡ 3 }
    ensures { map (λ s. s.number) seats.new ≡ map (λ s. s.number) seats.old }
{
    let one = |_index: usize, seat: &mut Seat<N>|
        requires { turns.now ≡ 3 }
        ensures { seat.exit.now.number ≡ seat.entry.now.number }
    { serve(rt, turns, refused, seat) };
    thread::for_each_mut(rt, seats, CLIENTS as usize, &one);
}

/// Closes the turns, if no client was refused.
fn close<N: Name, W: Wait>(
    rt: &W,
    alloc: Global,
    turns: Turns<N, Roll>,
    seats: Vec<Seat<N>>,
    refused: Option<&BookError>,
) -> anyhow::Result<Closed<Spared<Roll>>>
    requires { IsDistinct eqb (map (λ s. s.number) seats.items) }
{
    let closed = turns.close(rt, alloc, seats);
    if let Some(error) = refused {
        bail!("a turn was refused: {error}");
    }
    match closed {
        Ok(closed) => Ok(closed),
        Err(fault) => bail!("the ring is not closed: {:?}", fault.reason),
    }
}

/// Opens a ring of name `N` over the draft, has its clients take their turns, and closes it.
fn run_named<N: Name + Send + Sync, W: Threads + Wait + Sync>(
    rt: &W,
    alloc: Global,
    machines: u32,
    draft: Draft<Spared<Roll>>,
) -> anyhow::Result<Closed<Spared<Roll>>>
    requires start { draft.book.start ≡ N.start }
    requires seats { draft.seats ≡ N.seats }
    requires log { draft.log ≡ N.log }
    requires legal { MeansLegal (spared roll) 0 N.start N.legal }
    requires machines { machines ≡ length N.start.values }
    requires ring { IsRing N.start }
{
    let (ring, mut seats) = match Ring::<N, Spared<Roll>>::open(alloc, draft) {
        Ok(opened) => opened,
        Err(fault) => {
            let reason = fault.reason;
            fault.into_book(rt);
            bail!("the ring is not opened: {reason:?}");
        }
    };
    let turns = match Turns::new(ring, CLIENTS, machines) {
        Ok(turns) => turns,
        Err(TooFewMachines { ring }) => {
            let _ = ring.close(rt, alloc, seats);
            bail!("the ring has fewer machines than clients");
        }
    };
    let refused = OnceLock::new();
    serve_all(rt, &turns, &refused, seats.as_mut_slice());
    close(rt, alloc, turns, seats, refused.get())
}

/// Has the clients draw from a whole roll in turns, by a ring that starts with this state, and hands out the closed ring.
pub(crate) fn draw_in_turns<W: Threads + Wait + Sync>(
    rt: &W,
    alloc: Global,
    state: RingState,
) -> anyhow::Result<Closed<Spared<Roll>>> {
    let machines = state.params().n();
    let Ok(book) = Book::new(alloc, state, Spared::new(Roll::new())) else {
        bail!("out of memory");
    };
    let Ok(draft) = Draft::new(book, CLIENTS) else {
        bail!("out of memory");
    };
    run_named::<Brand, W>(rt, alloc, machines, draft)
}
