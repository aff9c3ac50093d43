//! Three clients that take turns on threads of their own, while a fourth seat injects faults, or until the history is full.

ghost use Rattle.std.specs.Prelude.{◌≡◌, ◌<◌, length, map, eqb};
ghost use Rattle.std.specs.List.{IsDistinct};
ghost use Rattle.ring_model.specs.Resources.{till};
ghost use Rattle.ring_model.specs.Ring.{IsRing};
ghost use Rattle.ring_shared.specs.Holding.{MeansLegal};
ghost use Rattle.ring_turns.specs.Spared.{spared};

use super::turns_in;
use ring_book::{Book, BookError, Till};
use ring_shared::{Draft, Name, Ring, Seat};
use ring_state::{Params, RingState};
use ring_turns::{Spared, TooFewMachines, Turns};
use std::alloc::Global;
use std::marker::Brand;
use std::process::Abort;
use std::sync::Wait;
use std::thread;
use std::thread::Threads;

/// The clients, each with a machine; the next seat injects the faults.
const CLIENTS: u32 = 3;

/// How many turns a client takes, and how many faults are injected.
const TURNS: u32 = 500;

const FAULTS: u32 = 300;

/// How many events the fourth seat leaves room for, where the history gets full: fewer than one client's turns.
const LEFT: u32 = 300;

/// The turns of a client.
fn take_turns<N: Name, W: Wait>(
    rt: &W,
    turns: &Turns<N, Till>,
    seat: &mut Seat<N>,
) -> Result<(), BookError>
    requires client { seat.old.number < turns.now }
    ensures { seat.new.number ≡ seat.old.number }
{
    for _ in 0..TURNS {
        turns.take_turn(rt, seat, 1)?;
    }
    Ok(())
}

/// The faults, which make one machine or another privileged.
fn corrupt<N: Name, W: Wait>(
    rt: &W,
    turns: &Turns<N, Till>,
    seat: &mut Seat<N>,
) -> Result<(), BookError>
    requires machines { length N.start.values ≡ 3 }
    requires values { N.start.k ≡ 3 }
    ensures { seat.new.number ≡ seat.old.number }
{
    for fault in 0..FAULTS {
        turns.corrupt(rt, seat, fault % 3, (fault / 3) % 3)?;
        thread::yield_now();
    }
    Ok(())
}

/// The work of the thread of a seat. Where the history gets full, each client is refused for that.
fn serve<N: Name, W: Wait + Abort>(rt: &W, turns: &Turns<N, Till>, seat: &mut Seat<N>, full: bool)
    requires turns { turns.now ≡ 3 }
    requires machines { length N.start.values ≡ 3 }
    requires values { N.start.k ≡ 3 }
    ensures { seat.new.number ≡ seat.old.number }
{
    if seat.number() < CLIENTS {
        let wanted = if full {
            Err(BookError::HistoryFull)
        } else {
            Ok(())
        };
        assert_eq!(rt; take_turns(rt, turns, seat), wanted);
    } else if !full {
        assert_eq!(rt; corrupt(rt, turns, seat), Ok(()));
    }
}

/// Serves all seats, each on a thread of its own, and joins the threads.
fn serve_all<N: Name + Send + Sync, W: Threads + Wait + Abort + Sync>(
    rt: &W,
    turns: &Turns<N, Till>,
    seats: &mut [Seat<N>],
    full: bool,
)
    requires turns { turns.now ≡ 3 }
    requires machines { length N.start.values ≡ 3 }
    requires values { N.start.k ≡ 3 }
    ensures { map (λ s. s.number) seats.new ≡ map (λ s. s.number) seats.old }
{
    let one = |_index: usize, seat: &mut Seat<N>|
        requires { (turns.now ≡ 3) × (length N.start.values ≡ 3) × (N.start.k ≡ 3) }
        ensures { seat.exit.now.number ≡ seat.entry.now.number }
    { serve(rt, turns, seat, full) };
    thread::for_each_mut(rt, seats, 4, &one);
}

/// Closes the turns: each client had all of its own, and each fault is recorded; or the history is full.
fn end<N: Name, W: Wait + Abort>(
    rt: &W,
    alloc: Global,
    turns: Turns<N, Till>,
    seats: Vec<Seat<N>>,
    full: bool,
)
    requires { IsDistinct eqb (map (λ s. s.number) seats.items) }
{
    let Ok(closed) = turns.close(rt, alloc, seats) else {
        panic!(rt; "a ring is closed");
    };
    assert_eq!(rt; closed.logs.len(), 4);
    if full {
        assert_eq!(rt; closed.book.history().len(), 4_000_000);
        return;
    }
    for log in &closed.logs {
        let turns = if log.seat < CLIENTS { TURNS } else { 0 };
        assert_eq!(rt; turns_in(&log.entries, log.seat), turns as usize);
    }
    assert_eq!(rt; closed.book.calls_of(CLIENTS), u64::from(FAULTS));
}

/// Where the history is to get full, the fourth seat passes a machine that is not privileged, until there is room for few
/// events.
fn fill<N: Name, W: Wait + Abort>(
    rt: &W,
    ring: &Ring<N, Spared<Till>>,
    seat: &mut Seat<N>,
    full: bool,
)
    requires { length N.start.values ≡ 3 }
    ensures { seat.new.number ≡ seat.old.number }
{
    let times = if full && seat.number() == CLIENTS {
        4_000_000 - LEFT
    } else {
        0
    };
    for _ in 0..times {
        let passed = ring.pass(rt, seat, 1, 1);
        assert!(rt; passed.is_ok());
    }
}

/// What the seats call before there are turns.
fn fill_all<N: Name + Send + Sync, W: Threads + Wait + Abort + Sync>(
    rt: &W,
    ring: &Ring<N, Spared<Till>>,
    seats: &mut [Seat<N>],
    full: bool,
)
    requires { length N.start.values ≡ 3 }
    ensures { map (λ s. s.number) seats.new ≡ map (λ s. s.number) seats.old }
{
    let one = |_index: usize, seat: &mut Seat<N>|
        requires { length N.start.values ≡ 3 }
        ensures { seat.exit.now.number ≡ seat.entry.now.number }
    { fill(rt, ring, seat, full) };
    thread::for_each_mut(rt, seats, 1, &one);
}

/// Opens a ring of this name over the draft, has its seats served, and closes it.
fn run_named<N: Name + Send + Sync, W: Threads + Wait + Abort + Sync>(
    rt: &W,
    alloc: Global,
    draft: Draft<Spared<Till>>,
    full: bool,
)
    requires start { draft.book.start ≡ N.start }
    requires seats { draft.seats ≡ N.seats }
    requires log { draft.log ≡ N.log }
    requires legal { MeansLegal (spared till) 0 N.start N.legal }
    requires machines { length N.start.values ≡ 3 }
    requires values { N.start.k ≡ 3 }
    requires ring { IsRing N.start }
{
    let (ring, mut seats) = match Ring::<N, Spared<Till>>::open(alloc, draft) {
        Ok(opened) => opened,
        Err(fault) => {
            fault.into_book(rt);
            panic!(rt; "a ring is opened");
        }
    };
    fill_all(rt, &ring, seats.as_mut_slice(), full);
    let turns = match Turns::new(ring, CLIENTS, 3) {
        Ok(turns) => turns,
        Err(TooFewMachines { ring }) => {
            let _ = ring.close(rt, alloc, seats);
            panic!(rt; "there are as many machines");
        }
    };
    serve_all(rt, &turns, seats.as_mut_slice(), full);
    end(rt, alloc, turns, seats, full)
}

/// A ring of three machines that hold 0, over a till that spares, with four seats.
fn draft(rt: &impl Abort, alloc: Global) -> Draft<Spared<Till>>
    ensures machines { length result.book.start.values ≡ 3 }
    ensures values { result.book.start.k ≡ 3 }
    ensures ring { IsRing result.book.start }
{
    let Ok(params) = Params::new(3, 3) else {
        panic!(rt; "the size is allowed");
    };
    let Ok(state) = RingState::from_values(alloc, &params, &[0, 0, 0]) else {
        panic!(rt; "the values are allowed");
    };
    let Ok(book) = Book::new(alloc, state, Spared::new(Till::new())) else {
        panic!(rt; "there is memory");
    };
    let Ok(draft) = Draft::new(book, 4) else {
        panic!(rt; "a draft takes no memory");
    };
    draft
}

fn run<W: Threads + Wait + Abort + Sync>(rt: &W, alloc: Global, full: bool) {
    let draft = draft(rt, alloc);
    run_named::<Brand, W>(rt, alloc, draft, full);
}

// A fault that wakes no client, or one of several that sleep, shows as a run that does not end.
#[test]
fn clients_on_threads_have_their_turns_beside_faults(rt: HostRuntime) {
    run(&rt, rt.alloc(), false);
}

// So does a client that is refused and wakes no other.
#[test]
fn clients_on_threads_are_all_refused_once_the_history_is_full(rt: HostRuntime) {
    run(&rt, rt.alloc(), true);
}
