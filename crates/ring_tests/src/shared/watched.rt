//! Glances and a survey while a resource is at work under the lock.

ghost use Rattle.std.specs.Prelude.{◌≡◌, ◌≤◌, [], length};
ghost use Rattle.ring_book.specs.IdleWorks.{idle};
ghost use Rattle.ring_shared.specs.Holding.{MeansLegal};

use super::both;
use super::calls::{glanced, seen};
use super::threads::HandsBack;
use crate::events::granted;
use ring_book::{Book, Resource};
use ring_shared::{Draft, Entry, Name, Ring, Seat};
use ring_state::{Params, RingState};
use std::alloc::Global;
use std::marker::{Brand, Model};
use std::process::Abort;
use std::sync::Wait;
use std::sync::atomic::{AtomicU64, Ordering};
use std::thread;
use std::thread::{PromisedHandle, Scope, Threads};

/// The work has begun.
const BEGUN: u64 = 1;

/// Whoever looks was answered.
const ANSWERED: u64 = 2;

/// Waits until the word has this bit, at most 1,000,000 turns.
fn waits_for(word: &AtomicU64, bit: u64) -> bool {
    for _ in 0..1000000 {
        if word.load(Ordering::SeqCst) & bit != 0 {
            return true;
        }
        thread::yield_now();
    }
    false
}

/// A resource whose work says that it has begun, and waits until a reader was answered.
#[derive(Drop)]
struct Watched<'a> {
    word: &'a AtomicU64,
    saw_the_answer: bool,
}

impl<'a> Model for Watched<'a> {
    ghost Value = { Unit {0} };

    ghost view = { λ w. tt };
}

impl<'a> Resource for Watched<'a> {
    ghost use Rattle.ring_book.specs.IdleWorks.{idle};

    ghost first = { tt };

    ghost works = { idle };

    fn work(&mut self, _machine: u32, _order: u64) -> u64 {
        self.word.fetch_or(BEGUN, Ordering::SeqCst);
        self.saw_the_answer = waits_for(self.word, ANSWERED);
        0
    }
}

/// Makes the pass during whose work another looks.
fn pass<N: Name, W: Wait + Abort>(rt: &W, ring: &Ring<N, Watched>, seat: Seat<N>) -> Seat<N>
    requires { 2 ≤ length N.start.values }
    ensures { result.number ≡ seat.number }
{
    let mut seat = seat;
    assert!(rt; ring.pass(rt, &mut seat, 0, 1).is_ok());
    seat
}

/// Glances once the work has begun, and then surveys too where that is asked for.
fn look<N: Name>(
    rt: &impl Abort,
    ring: &Ring<N, Watched>,
    word: &AtomicU64,
    seat: Seat<N>,
    surveys: bool,
) -> Seat<N>
    ensures { result.number ≡ seat.number }
{
    assert!(rt; waits_for(word, BEGUN));
    let start = seen(0, 1, 0, 0, 0);
    let mut seat = glanced(rt, ring, seat, start);
    if surveys {
        match ring.survey(&mut seat) {
            Ok(survey) => assert_eq!(rt; Entry::Survey(survey), start),
            Err(_) => panic!(rt; "there is memory"),
        }
    }
    word.fetch_or(ANSWERED, Ordering::SeqCst);
    seat
}

/// Starts a thread of a scope that makes the pass.
fn start<'s, 'w: 's, E: 's, N: Name + Send + Sync + 's, W: Threads + Wait + Abort + Sync + 's>(
    scope: &Scope<'s, E>,
    rt: &'s W,
    ring: &'s Ring<N, Watched<'w>>,
    seat: Seat<N>,
) -> PromisedHandle<Seat<N>, HandsBack>
    requires { 2 ≤ length N.start.values }
    ensures { result.promise.number ≡ seat.number }
{
    let promise = HandsBack {
        number: seat.number(),
    };
    let job = move || -> Seat<N>
        requires { 2 ≤ length N.start.values }
        ensures { result.number ≡ seat.number }
    { pass(rt, ring, seat) };
    match scope.spawn_with(promise, job) {
        Ok(handle) => handle,
        Err(_) => panic!(rt; "a thread was not started"),
    }
}

/// The first seat passes on a thread of its own, and the second looks meanwhile.
fn pass_and_look<N: Name + Send + Sync, W: Threads + Wait + Abort + Sync>(
    rt: &W,
    ring: &Ring<N, Watched>,
    word: &AtomicU64,
    first: Seat<N>,
    second: Seat<N>,
    surveys: bool,
) -> (Seat<N>, Seat<N>)
    requires { 2 ≤ length N.start.values }
    ensures first { result.0.number ≡ first.number }
    ensures second { result.1.number ≡ second.number }
{
    thread::scope(
        thread::scope_env(),
        rt,
        |scope| -> (Seat<N>, Seat<N>)
            requires { 2 ≤ length N.start.values }
            ensures { (result.0.number ≡ first.number) × (result.1.number ≡ second.number) }
        {
            let passing = start(scope, rt, ring, first);
            let second = look(rt, ring, word, second, surveys);
            (passing.join(rt), second)
        },
    )
}

fn run_named<N: Name + Send + Sync, W: Threads + Wait + Abort + Sync>(
    rt: &W,
    alloc: Global,
    draft: Draft<Watched>,
    word: &AtomicU64,
    surveys: bool,
)
    requires start { draft.book.start ≡ N.start }
    requires seats { draft.seats ≡ N.seats }
    requires log { draft.log ≡ N.log }
    requires legal { MeansLegal {C = Unit {0}} idle tt N.start N.legal }
    requires machines { 2 ≤ length N.start.values }
{
    let (ring, mut seats) = match Ring::<N, Watched>::open(alloc, draft) {
        Ok(opened) => opened,
        Err(fault) => {
            fault.into_book(rt);
            panic!(rt; "there is memory");
        }
    };
    let (Some(second), Some(first)) = (seats.pop(), seats.pop()) else {
        panic!(rt; "there are two seats");
    };
    assert_eq!(rt; first.number(), 0);
    assert_eq!(rt; second.number(), 1);
    let (first, second) = pass_and_look(rt, &ring, word, first, second, surveys);
    let seats = both(rt, alloc, first, second);
    match ring.close(rt, alloc, seats) {
        Ok(closed) => {
            assert!(rt; closed.book.resource().saw_the_answer);
            let passed = granted(0, 0, 1, 1, 0);
            assert_eq!(rt; closed.book.history(), [passed].as_slice());
            assert_eq!(rt; closed.logs.len(), 2);
            assert_eq!(rt; closed.logs[1].entries.len(), usize::from(surveys));
        }
        Err(fault) => panic!(rt; "{:?}", fault.reason),
    }
}

/// The book of a ring of two machines over a resource that is watched.
fn run<W: Threads + Wait + Abort + Sync>(rt: &W, alloc: Global, surveys: bool) {
    let word = AtomicU64::new(0);
    let resource = Watched {
        word: &word,
        saw_the_answer: false,
    };
    let Ok(params) = Params::new(2, 2) else {
        panic!(rt; "the size is allowed");
    };
    let Ok(state) = RingState::from_values(alloc, &params, &[0, 0]) else {
        panic!(rt; "the values are allowed");
    };
    let Ok(book) = Book::new(alloc, state, resource) else {
        panic!(rt; "there is memory");
    };
    let Ok(draft) = Draft::new(book, 2) else {
        panic!(rt; "a draft takes no memory");
    };
    run_named::<Brand, W>(rt, alloc, draft, &word, surveys)
}

#[test]
fn a_seat_looks_while_the_resource_works(rt: HostRuntime) {
    run(&rt, rt.alloc(), false);
}

#[test]
fn a_seat_looks_and_surveys_while_the_resource_works(rt: HostRuntime) {
    run(&rt, rt.alloc(), true);
}
