//! Eight seats that only look while two pass, each on a thread of its own.

ghost use Rattle.std.specs.Prelude.{◌≡◌, ◌≤◌, eqb, length, map};
ghost use Rattle.ring_model.specs.Resources.{till};
ghost use Rattle.ring_shared.specs.Holding.{MeansLegal};

use super::book_of;
use ring_book::Till;
use ring_shared::{Draft, Name, Ring, Seat};
use std::alloc::Global;
use std::marker::Brand;
use std::process::Abort;
use std::sync::Wait;
use std::thread;
use std::thread::Threads;

/// How many passes each of the two makes.
const PASSES: u32 = 100_000;

/// Where the history ends.
const END: u64 = 200_000;

/// The work of the seats.
#[derive(Clone, Copy)]
enum Part {
    /// The first two pass, and the others look until they see the end.
    PassOrLook,
    /// Each looks once, and sees the end.
    SeeTheEnd,
}

/// Passes by both machines in turn.
fn pass<N: Name, W: Wait + Abort>(rt: &W, ring: &Ring<N, Till>, seat: &mut Seat<N>)
    requires { 2 ≤ length N.start.values }
    ensures { seat.new.number ≡ seat.old.number }
{
    for turn in 0..PASSES {
        assert!(rt; ring.pass(rt, seat, turn % 2, 1).is_ok());
    }
}

/// Looks until the end is seen. The seen state never goes back.
fn look<N: Name>(rt: &impl Abort, ring: &Ring<N, Till>, seat: &mut Seat<N>)
    ensures { seat.new.number ≡ seat.old.number }
{
    let mut last = 0;
    for _ in 0..100000000 {
        let position = ring.glance(seat).position;
        assert!(rt; last <= position);
        if position == END {
            return;
        }
        last = position;
        thread::yield_now();
    }
}

/// The work of one seat on its thread.
fn serve<N: Name, W: Wait + Abort>(rt: &W, ring: &Ring<N, Till>, seat: &mut Seat<N>, part: Part)
    requires { 2 ≤ length N.start.values }
    ensures { seat.new.number ≡ seat.old.number }
{
    match part {
        Part::PassOrLook if seat.number() < 2 => pass(rt, ring, seat),
        Part::PassOrLook => look(rt, ring, seat),
        Part::SeeTheEnd => assert_eq!(rt; ring.glance(seat).position, END),
    }
}

/// Serves each seat on a thread of its own.
fn serve_all<N: Name + Send + Sync, W: Threads + Wait + Abort + Sync>(
    rt: &W,
    ring: &Ring<N, Till>,
    seats: &mut [Seat<N>],
    part: Part,
)
    requires { 2 ≤ length N.start.values }
    ensures { map (λ s. s.number) seats.new ≡ map (λ s. s.number) seats.old }
{
    let one = |_index: usize, seat: &mut Seat<N>|
        requires { 2 ≤ length N.start.values }
        ensures { seat.exit.now.number ≡ seat.entry.now.number }
    { serve(rt, ring, seat, part) };
    thread::for_each_mut(rt, seats, 10, &one);
}

fn run_named<N: Name + Send + Sync, W: Threads + Wait + Abort + Sync>(
    rt: &W,
    alloc: Global,
    draft: Draft<Till>,
)
    requires start { draft.book.start ≡ N.start }
    requires seats { draft.seats ≡ N.seats }
    requires log { draft.log ≡ N.log }
    requires legal { MeansLegal till 0 N.start N.legal }
    requires machines { 2 ≤ length N.start.values }
{
    let (ring, mut seats) = match Ring::<N, Till>::open(alloc, draft) {
        Ok(opened) => opened,
        Err(fault) => {
            fault.into_book(rt);
            panic!(rt; "there is memory");
        }
    };
    serve_all(rt, &ring, seats.as_mut_slice(), Part::PassOrLook);
    serve_all(rt, &ring, seats.as_mut_slice(), Part::SeeTheEnd);
    match ring.close(rt, alloc, seats) {
        Ok(closed) => assert_eq!(rt; closed.book.history().len(), 200_000),
        Err(fault) => panic!(rt; "{:?}", fault.reason),
    }
}

fn run<W: Threads + Wait + Abort + Sync>(rt: &W, alloc: Global) {
    let Ok(draft) = Draft::new(book_of(rt, alloc, &[0, 0]), 10) else {
        panic!(rt; "a draft takes no memory");
    };
    run_named::<Brand, W>(rt, alloc, draft)
}

#[test]
fn eight_seats_look_while_two_pass(rt: HostRuntime) {
    run(&rt, rt.alloc());
}
