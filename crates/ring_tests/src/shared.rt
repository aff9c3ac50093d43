//! Two seats of one ring, by its calls and its close.

mod calls;
mod groups;
mod readers;
mod threads;
mod watched;

ghost use Rattle.std.specs.Prelude.{◌≡◌, ◌≢◌, ◌<◌, ◌≤◌, ◌∷◌, [], eqb, length, map, vec_capacity, IfSome, IfOk, IfErr};
ghost use Rattle.std.specs.List.{IsDistinct};
ghost use Rattle.ring_model.specs.Resources.{till};
ghost use Rattle.ring_shared.specs.Holding.{MeansLegal};

use crate::events::{corrupted, granted, refused, told};
use calls::{
    Act, Call, End, ends, glanced, is_told, looked, made, pass_often, play, seen, surveyed,
    told_by, with_room,
};
use ring_book::{Book, BookError, Till};
use ring_model::{Event, Survey};
use ring_shared::{CloseReason, Draft, Entry, Name, OpenReason, Ring, Seat};
use ring_state::{Params, RingState};
use std::alloc::Global;
use std::marker::Brand;
use std::process::Abort;
use std::sync::Wait;
use std::thread::Threads;
use threads::pass_at_once;

/// A use of a ring over a till that has two seats. Its machines have as many values as there are machines.
#[derive(Clone, Copy)]
enum Script {
    Calls { scene: Scene, scarce: bool },
    CallInTwoThreads,
    CloseOneSeatShort,
    CallUntilFull,
}

/// Calls one after another. Memory may be refused once where it is scarce.
#[derive(Clone, Copy)]
enum Scene {
    InTurn,
    Unsettled,
    AtOnePlace,
}

/// The values that the ring's machines start with.
fn start_of(script: Script) -> &'static [u32] {
    match script {
        Script::Calls {
            scene: Scene::Unsettled,
            ..
        } => &[0, 2, 0],
        _ => &[0, 0],
    }
}

/// A book over a till that starts with these values, as many as K.
fn book_of(rt: &impl Abort, alloc: Global, start: &[u32]) -> Book<Till>
    ensures size { length result.start.values ≡ length start.now }
    ensures machines { 2 ≤ length result.start.values }
    ensures values { 2 ≤ result.start.k }
    ensures many { length start.now ≤ result.start.k }
    ensures empty { result.history ≡ [] }
{
    assert!(rt; start.len() >= 2 && start.len() <= 4);
    let Ok(params) = Params::new(start.len() as u32, start.len() as u32) else {
        panic!(rt; "the size is allowed");
    };
    let state = match RingState::from_values(alloc, &params, start) {
        Ok(state) => state,
        Err(_) => RingState::from_values(alloc, &params, start).expect(
            rt,
            "the values are allowed",
        ),
    };
    match Book::new(alloc, state, Till::new()) {
        Ok(book) => book,
        Err(refused) => match Book::new(alloc, refused.state, refused.resource) {
            Ok(book) => book,
            Err(_) => panic!(rt; "memory is refused twice"),
        },
    }
}

/// Plays the script on a new ring; where there was no memory to open one, on one over the book that was handed back.
fn run<W: Threads + Wait + Abort + Sync>(rt: &W, alloc: Global, script: Script) {
    let book = book_of(rt, alloc, start_of(script));
    if let Some(book) = run_over(rt, alloc, book, script) {
        let again = run_over(rt, alloc, book, script);
        assert!(rt; again.is_none());
    }
}

/// The book is handed back where no ring was opened.
fn run_over<W: Threads + Wait + Abort + Sync>(
    rt: &W,
    alloc: Global,
    book: Book<Till>,
    script: Script,
) -> Option<Book<Till>>
    requires machines { 2 ≤ length book.start.values }
    requires values { 2 ≤ book.start.k }
    requires empty { book.history ≡ [] }
    ensures { IfSome result (λ b. b ≡ book) }
{
    let Ok(draft) = Draft::new(book, 2) else {
        panic!(rt; "a draft takes no memory");
    };
    run_named::<Brand, W>(rt, alloc, draft, script)
}

/// A ring of two seats that did nothing yet, and the two; or the book, where there was no memory.
fn opened<N: Name, W: Wait + Abort>(
    rt: &W,
    alloc: Global,
    draft: Draft<Till>,
) -> Result<(Ring<N, Till>, (Seat<N>, Seat<N>)), Book<Till>>
    requires start { draft.book.start ≡ N.start }
    requires seats { draft.seats ≡ N.seats }
    requires log { draft.log ≡ N.log }
    requires legal { MeansLegal till 0 N.start N.legal }
    ensures first { IfOk result (λ t. t.1.0.number ≡ 0) }
    ensures second { IfOk result (λ t. t.1.1.number ≡ 1) }
    ensures back { IfErr result (λ b. b ≡ draft.book) }
{
    let (ring, mut seats) = match Ring::<N, Till>::open(alloc, draft) {
        Ok(opened) => opened,
        Err(fault) => {
            assert_eq!(rt; fault.reason, OpenReason::OutOfMemory);
            return Err(fault.into_book(rt));
        }
    };
    let (Some(second), Some(first)) = (seats.pop(), seats.pop()) else {
        panic!(rt; "there are two seats");
    };
    assert_eq!(rt; first.number(), 0);
    assert_eq!(rt; second.number(), 1);
    assert_eq!(rt; (first.log().len(), second.log().len()), (0, 0));
    Ok((ring, (first, second)))
}

fn run_named<N: Name + Send + Sync, W: Threads + Wait + Abort + Sync>(
    rt: &W,
    alloc: Global,
    draft: Draft<Till>,
    script: Script,
) -> Option<Book<Till>>
    requires start { draft.book.start ≡ N.start }
    requires seats { draft.seats ≡ N.seats }
    requires log { draft.log ≡ N.log }
    requires legal { MeansLegal till 0 N.start N.legal }
    requires machines { 2 ≤ length N.start.values }
    requires values { 2 ≤ N.start.k }
    ensures { IfSome result (λ b. b ≡ draft.book) }
{
    let (ring, seats) = match opened::<N, W>(rt, alloc, draft) {
        Ok(opened) => opened,
        Err(book) => return Some(book),
    };
    match script {
        Script::Calls { scene, scarce } => call(rt, alloc, ring, seats, scene, scarce),
        Script::CallInTwoThreads => call_in_two_threads(rt, alloc, ring, seats),
        Script::CloseOneSeatShort => close_one_seat_short(rt, alloc, ring, seats),
        Script::CallUntilFull => call_until_full(rt, alloc, ring, seats),
    }
    None
}

/// Room for two seats; where there was no memory, it is asked for again.
fn room_for_two<N: Name>(rt: &impl Abort, alloc: Global) -> Vec<Seat<N>>
    ensures room { 2 ≤ vec_capacity result }
    ensures empty { result.items ≡ [] }
{
    match Vec::with_capacity(alloc, 2) {
        Ok(seats) => seats,
        Err(_) => Vec::with_capacity(alloc, 2).expect(rt, "memory the second time"),
    }
}

/// Two seats, to be given back.
pub(crate) fn both<N: Name>(
    rt: &impl Abort,
    alloc: Global,
    one: Seat<N>,
    other: Seat<N>,
) -> Vec<Seat<N>>
    requires { one.number ≢ other.number }
    ensures { IsDistinct eqb (map (λ s. s.number) result.items) }
{
    let mut seats = room_for_two(rt, alloc);
    seats.push_reserved(one);
    seats.push_reserved(other);
    seats
}

/// One seat, to be given back.
fn alone<N: Name>(rt: &impl Abort, alloc: Global, one: Seat<N>) -> Vec<Seat<N>>
    ensures { IsDistinct eqb (map (λ s. s.number) result.items) }
{
    let Ok(seats) = vec![in alloc; one] else {
        panic!(rt; "there is memory");
    };
    seats
}

fn call<N: Name, W: Wait + Abort>(
    rt: &W,
    alloc: Global,
    ring: Ring<N, Till>,
    seats: (Seat<N>, Seat<N>),
    scene: Scene,
    scarce: bool,
)
    requires machines { 2 ≤ length N.start.values }
    requires values { 2 ≤ N.start.k }
    requires first { seats.0.number ≡ 0 }
    requires second { seats.1.number ≡ 1 }
{
    match scene {
        Scene::InTurn => call_in_turn(rt, alloc, ring, seats, scarce),
        Scene::Unsettled => call_unsettled(rt, alloc, ring, seats, scarce),
        Scene::AtOnePlace => survey_at_one_place(rt, alloc, ring, seats, scarce),
    }
}

/// The machines hold 0, 0, then 1, 0, then 0, 0.
fn in_turn(events: [Event; 2]) -> [Call; 7] {
    let survey = seen(1, 1, 1, 1, 0);
    let survey_behind_both = seen(2, 1, 0, 0, 0);
    [
        made(0, events[0]),
        surveyed(0, survey),
        surveyed(1, survey),
        looked(1, survey),
        made(1, events[1]),
        looked(0, survey_behind_both),
        looked(1, survey_behind_both),
    ]
}

fn call_in_turn<N: Name, W: Wait + Abort>(
    rt: &W,
    alloc: Global,
    ring: Ring<N, Till>,
    seats: (Seat<N>, Seat<N>),
    scarce: bool,
)
    requires machines { 2 ≤ length N.start.values }
    requires values { 2 ≤ N.start.k }
    requires first { seats.0.number ≡ 0 }
    requires second { seats.1.number ≡ 1 }
{
    let events = [granted(0, 0, 3, 1, 3), corrupted(1, 0, 0, 1)];
    let calls = in_turn(events);
    let (first, second) = play(rt, alloc, &ring, seats, &calls[..2], scarce);
    let first = with_room(rt, first, scarce);
    let seats = play(rt, alloc, &ring, (first, second), &calls[2..], scarce);
    let end = End {
        calls: &calls,
        events: &events,
        survey: seen(2, 1, 0, 0, 0),
    };
    ends(rt, alloc, ring, seats, end, scarce)
}

/// The machines hold 0, 2, 0, then 1, 2, 0, then 1, 1, 0.
fn unsettled(events: [Event; 2]) -> [Call; 6] {
    let survey_between = seen(1, 2, 1, 1, 3);
    [
        surveyed(0, seen(0, 3, 0, 0, 6)),
        made(0, events[0]),
        surveyed(0, survey_between),
        surveyed(1, survey_between),
        made(1, events[1]),
        surveyed(1, seen(2, 1, 2, 2, 0)),
    ]
}

fn call_unsettled<N: Name, W: Wait + Abort>(
    rt: &W,
    alloc: Global,
    ring: Ring<N, Till>,
    seats: (Seat<N>, Seat<N>),
    scarce: bool,
)
    requires machines { 2 ≤ length N.start.values }
    requires values { 2 ≤ N.start.k }
    requires first { seats.0.number ≡ 0 }
    requires second { seats.1.number ≡ 1 }
{
    let events = [granted(0, 0, 1, 1, 1), granted(1, 1, 1, 2, 2)];
    let calls = unsettled(events);
    let seats = play(rt, alloc, &ring, seats, &calls, scarce);
    let end = End {
        calls: &calls,
        events: &events,
        survey: seen(2, 1, 2, 2, 0),
    };
    ends(rt, alloc, ring, seats, end, scarce)
}

/// Both seats survey the start and the end of the history, one of them twice.
fn at_one_place(pass: Event) -> [Call; 7] {
    let start = seen(0, 1, 0, 0, 0);
    let end = seen(1, 1, 1, 1, 0);
    [
        surveyed(0, start),
        surveyed(0, start),
        surveyed(1, start),
        made(0, pass),
        surveyed(0, end),
        surveyed(1, end),
        surveyed(1, end),
    ]
}

fn survey_at_one_place<N: Name, W: Wait + Abort>(
    rt: &W,
    alloc: Global,
    ring: Ring<N, Till>,
    seats: (Seat<N>, Seat<N>),
    scarce: bool,
)
    requires machines { 2 ≤ length N.start.values }
    requires values { 2 ≤ N.start.k }
    requires first { seats.0.number ≡ 0 }
    requires second { seats.1.number ≡ 1 }
{
    let pass = granted(0, 0, 3, 1, 3);
    let calls = at_one_place(pass);
    let seats = play(rt, alloc, &ring, seats, &calls, scarce);
    let end = End {
        calls: &calls,
        events: &[pass],
        survey: seen(1, 1, 1, 1, 0),
    };
    ends(rt, alloc, ring, seats, end, scarce)
}

fn call_in_two_threads<N: Name + Send + Sync, W: Threads + Wait + Abort + Sync>(
    rt: &W,
    alloc: Global,
    ring: Ring<N, Till>,
    seats: (Seat<N>, Seat<N>),
)
    requires machines { 2 ≤ length N.start.values }
    requires values { 2 ≤ N.start.k }
    requires first { seats.0.number ≡ 0 }
    requires second { seats.1.number ≡ 1 }
{
    let (mut first, mut second) = pass_at_once(rt, &ring, seats.0, seats.1);
    let one = told_by(rt, alloc, &ring, &mut first, Act::Survey);
    let other = told_by(rt, alloc, &ring, &mut second, Act::Survey);
    assert_eq!(rt; one, other);
    assert!(rt;
        matches!(
            one,
            Some(Entry::Survey(Survey {
                position: 200,
                privileged: 1,
                rest: 0,
                ..
            }))
        )
    );
    let seats = both(rt, alloc, first, second);
    match ring.close(rt, alloc, seats) {
        Ok(closed) => {
            assert_eq!(rt;
                (closed.book.calls_of(0), closed.book.calls_of(1)),
                (100, 100)
            );
            assert_eq!(rt; closed.logs.len(), 2);
            let entries = (closed.logs[0].entries.len(), closed.logs[1].entries.len());
            assert_eq!(rt; entries, (101, 101));
        }
        Err(fault) => panic!(rt; "{:?}", fault.reason),
    }
}

fn close_one_seat_short<N: Name, W: Wait + Abort>(
    rt: &W,
    alloc: Global,
    ring: Ring<N, Till>,
    seats: (Seat<N>, Seat<N>),
)
    requires machines { 2 ≤ length N.start.values }
    requires values { 2 ≤ N.start.k }
{
    let idle = refused(0, 1, 5);
    let calls = [made(0, idle)];
    let (first, _second) = play(rt, alloc, &ring, seats, &calls, false);
    let seats = alone(rt, alloc, first);
    match ring.close(rt, alloc, seats) {
        Ok(_) => panic!(rt; "a seat is missing"),
        Err(fault) => {
            assert_eq!(rt; fault.reason, CloseReason::SeatsMissing);
            assert_eq!(rt; fault.book.history(), [idle].as_slice());
            assert_eq!(rt; fault.seats.len(), 1);
            assert_eq!(rt; fault.seats[0].number(), 0);
            is_told(rt, fault.seats[0].log(), 0, &calls);
        }
    }
}

/// No further call is taken, and each is refused with the reason; the seat's log and what it sees stay.
fn stays_full<N: Name, W: Wait + Abort>(rt: &W, ring: &Ring<N, Till>, seat: Seat<N>) -> Seat<N>
    requires machines { 2 ≤ length N.start.values }
    requires values { 2 ≤ N.start.k }
    ensures { result.number ≡ seat.number }
{
    let survey = seen(4_000_000, 1, 1, 1, 0);
    let last = told(3_999_999, refused(0, 0, 1));
    let mut seat = glanced(rt, ring, seat, survey);
    assert_eq!(rt; ring.pass(rt, &mut seat, 0, 1), Err(BookError::HistoryFull));
    assert_eq!(rt;
        ring.corrupt(rt, &mut seat, 0, 1),
        Err(BookError::HistoryFull)
    );
    assert_eq!(rt;
        (seat.log().len(), seat.log().last().copied()),
        (4_000_000, Some(last))
    );
    glanced(rt, ring, seat, survey)
}

fn call_until_full<N: Name, W: Wait + Abort>(
    rt: &W,
    alloc: Global,
    ring: Ring<N, Till>,
    seats: (Seat<N>, Seat<N>),
)
    requires machines { 2 ≤ length N.start.values }
    requires values { 2 ≤ N.start.k }
    requires first { seats.0.number ≡ 0 }
    requires second { seats.1.number ≡ 1 }
{
    let (first, second) = seats;
    let first = pass_often(rt, &ring, first, 0, 4_000_000);
    let first = stays_full(rt, &ring, first);
    let seats = both(rt, alloc, first, second);
    match ring.close(rt, alloc, seats) {
        Ok(closed) => {
            assert_eq!(rt; closed.logs.len(), 2);
            let entries = (closed.logs[0].entries.len(), closed.logs[1].entries.len());
            assert_eq!(rt;
                (closed.book.history().len(), entries),
                (4_000_000, (4_000_000, 0))
            );
        }
        Err(fault) => panic!(rt; "{:?}", fault.reason),
    }
}

/// Plays this scene.
fn run_calls<W: Threads + Wait + Abort + Sync>(rt: &W, alloc: Global, scene: Scene, scarce: bool) {
    run(rt, alloc, Script::Calls { scene, scarce });
}

#[test]
fn two_seats_call_in_turn(rt: HostRuntime) {
    run_calls(&rt, rt.alloc(), Scene::InTurn, false);
}

// Passes too where any one request for memory is refused, and where each is between the marks round a glance and a
// book's survey, as `trials/refused_memory.sh` has both.
#[test]
fn lack_of_memory_changes_nothing(rt: HostRuntime) {
    run_calls(&rt, rt.alloc(), Scene::InTurn, true);
}

#[test]
fn two_seats_survey_an_unsettled_ring(rt: HostRuntime) {
    run_calls(&rt, rt.alloc(), Scene::Unsettled, false);
}

#[test]
fn two_seats_survey_at_one_place(rt: HostRuntime) {
    run_calls(&rt, rt.alloc(), Scene::AtOnePlace, false);
}

#[test]
fn two_seats_call_in_two_threads(rt: HostRuntime) {
    run(&rt, rt.alloc(), Script::CallInTwoThreads);
}

#[test]
fn a_seat_is_missing_at_the_end(rt: HostRuntime) {
    run(&rt, rt.alloc(), Script::CloseOneSeatShort);
}

#[test]
fn a_full_history_takes_no_call(rt: HostRuntime) {
    run(&rt, rt.alloc(), Script::CallUntilFull);
}
