//! Calls of two seats, one after another, and what comes of them.

ghost use Rattle.std.specs.Prelude.{◌≡◌, ◌≢◌, ◌<◌, ◌≤◌, length};
ghost use Rattle.ring_shared.specs.Client.{IsUnchanged};

use super::both;
use crate::events::told;
use ring_book::{Book, BookError, Resource, Till};
use ring_model::{Event, Op, Survey};
use ring_shared::{CloseFault, CloseReason, Closed, Entry, Name, Ring, Seat};
use std::alloc::Global;
use std::process::Abort;
use std::sync::Wait;

/// The call of a seat.
#[derive(Clone, Copy)]
pub(super) enum Act {
    Call(Op),
    Survey,
    /// Takes no memory, so none is to be had meanwhile; it is not logged.
    Glance,
}

/// One call: the seat's number, its request, and its answer.
#[derive(Clone, Copy)]
pub(super) struct Call {
    seat: u32,
    act: Act,
    told: Entry,
}

/// The call that was recorded as this event, at this position.
pub(super) fn made(position: u64, event: Event) -> Call {
    Call {
        seat: event.seat,
        act: Act::Call(event.op),
        told: told(position, event),
    }
}

/// A survey by this seat.
pub(super) fn surveyed(seat: u32, told: Entry) -> Call {
    Call {
        seat,
        act: Act::Survey,
        told,
    }
}

/// A glance by this seat.
pub(super) fn looked(seat: u32, told: Entry) -> Call {
    Call {
        seat,
        act: Act::Glance,
        told,
    }
}

/// A request for this many bytes, and one for a byte more, enclose calls that take no memory: `trials/refused_memory.sh`
/// refuses each request from the one to the other.
const MARK: usize = 1_234_567;

fn memory_ends(alloc: Global) {
    let _ = "x".repeat(alloc, MARK);
}

fn memory_is_back(alloc: Global) {
    let _ = "x".repeat(alloc, MARK + 1);
}

/// Passes or corrupts by one of the first two machines; returns the seat's answer, or nothing where memory was refused.
fn recorded<N: Name, W: Wait + Abort>(
    rt: &W,
    ring: &Ring<N, Till>,
    seat: &mut Seat<N>,
    op: Op,
) -> Option<Entry>
    requires machines { 2 ≤ length N.start.values }
    requires values { 2 ≤ N.start.k }
    ensures { seat.new.number ≡ seat.old.number }
{
    let result = match op {
        Op::Pass { machine, order } => {
            assert!(rt; machine < 2);
            ring.pass(rt, seat, machine, order)
        }
        Op::Corrupt { machine, value } => {
            assert!(rt; machine < 2);
            assert!(rt; value < 2);
            ring.corrupt(rt, seat, machine, value)
        }
        Op::Member { .. } => panic!(rt; "a member makes no call"),
    };
    match result {
        Ok(receipt) => Some(Entry::Receipt(receipt)),
        Err(refused) => {
            assert_eq!(rt; refused, BookError::OutOfMemory);
            None
        }
    }
}

/// Makes the seat's call; returns its answer, or nothing where memory was refused.
pub(super) fn told_by<N: Name, W: Wait + Abort>(
    rt: &W,
    alloc: Global,
    ring: &Ring<N, Till>,
    seat: &mut Seat<N>,
    act: Act,
) -> Option<Entry>
    requires machines { 2 ≤ length N.start.values }
    requires values { 2 ≤ N.start.k }
    ensures { seat.new.number ≡ seat.old.number }
{
    match act {
        Act::Call(op) => recorded(rt, ring, seat, op),
        Act::Survey => match ring.survey(seat) {
            Ok(survey) => Some(Entry::Survey(survey)),
            Err(_) => None,
        },
        Act::Glance => {
            memory_ends(alloc);
            let glance = ring.glance(seat);
            memory_is_back(alloc);
            Some(Entry::Survey(glance))
        }
    }
}

/// The call; where memory is scarce and was refused, nothing has changed, and it is made again.
fn called<N: Name, W: Wait + Abort>(
    rt: &W,
    alloc: Global,
    ring: &Ring<N, Till>,
    seat: &mut Seat<N>,
    act: Act,
    scarce: bool,
) -> Entry
    requires machines { 2 ≤ length N.start.values }
    requires values { 2 ≤ N.start.k }
    ensures { seat.new.number ≡ seat.old.number }
{
    let before = seat.log().len();
    if let Some(entry) = told_by(rt, alloc, ring, seat, act) {
        return entry;
    }
    assert!(rt; scarce);
    assert_eq!(rt; seat.log().len(), before);
    match told_by(rt, alloc, ring, seat, act) {
        Some(entry) => entry,
        None => panic!(rt; "memory is refused twice"),
    }
}

/// The call, by the seat that it names.
fn called_by<N: Name, W: Wait + Abort>(
    rt: &W,
    alloc: Global,
    ring: &Ring<N, Till>,
    first: &mut Seat<N>,
    second: &mut Seat<N>,
    call: &Call,
    scarce: bool,
) -> Entry
    requires machines { 2 ≤ length N.start.values }
    requires values { 2 ≤ N.start.k }
    ensures first { first.new.number ≡ first.old.number }
    ensures second { second.new.number ≡ second.old.number }
{
    match call.seat {
        0 => called(rt, alloc, ring, first, call.act, scarce),
        _ => called(rt, alloc, ring, second, call.act, scarce),
    }
}

/// Makes these calls by the two seats, and compares their answers.
pub(super) fn play<N: Name, W: Wait + Abort>(
    rt: &W,
    alloc: Global,
    ring: &Ring<N, Till>,
    seats: (Seat<N>, Seat<N>),
    calls: &[Call],
    scarce: bool,
) -> (Seat<N>, Seat<N>)
    requires machines { 2 ≤ length N.start.values }
    requires values { 2 ≤ N.start.k }
    ensures first { result.0.number ≡ seats.0.number }
    ensures second { result.1.number ≡ seats.1.number }
{
    let (mut first, mut second) = seats;
    for call in calls {
        let told = called_by(rt, alloc, ring, &mut first, &mut second, call, scarce);
        assert_eq!(rt; told, call.told);
    }
    (first, second)
}

/// Takes room for three entries more in the seat's log, and then for one, which is there: the log's entries stay.
pub(super) fn with_room<N: Name>(rt: &impl Abort, seat: Seat<N>, scarce: bool) -> Seat<N>
    ensures { IsUnchanged seat result }
{
    let mut seat = seat;
    let first = seat.reserve(3);
    let room = match first {
        Ok(room) => room,
        Err(_) => {
            assert!(rt; scarce);
            seat.reserve(3).expect(rt, "memory the second time")
        }
    };
    assert_eq!(rt; room, 3);
    assert_eq!(rt; seat.reserve(1).ok(), Some(3));
    seat
}

/// Glances, and compares the answer, which is not logged.
pub(super) fn glanced<N: Name, R: Resource + Drop>(
    rt: &impl Abort,
    ring: &Ring<N, R>,
    seat: Seat<N>,
    want: Entry,
) -> Seat<N>
    ensures { result.number ≡ seat.number }
{
    let mut seat = seat;
    let logged = seat.log().len();
    let glance = ring.glance(&mut seat);
    assert_eq!(rt; Entry::Survey(glance), want);
    assert_eq!(rt; seat.log().len(), logged);
    seat
}

/// Whether a seat's log holds the answer to this call.
fn is_logged(call: &Call, seat: u32) -> bool {
    call.seat == seat && !matches!(call.act, Act::Glance)
}

/// A log holds the answers to this seat's calls, and no more.
pub(super) fn is_told(rt: &impl Abort, log: &[Entry], seat: u32, calls: &[Call]) {
    let mut at = 0usize;
    for call in calls {
        if is_logged(call, seat) {
            assert!(rt; at < log.len());
            assert_eq!(rt; log[at], call.told);
            at += 1;
        }
    }
    assert_eq!(rt; log.len(), at);
}

/// The book has these events, and its survey, which takes no memory, is this.
fn is_booked(rt: &impl Abort, alloc: Global, book: &Book<Till>, events: &[Event], want: Entry) {
    assert_eq!(rt; book.history(), events);
    memory_ends(alloc);
    let survey = book.survey();
    memory_is_back(alloc);
    assert_eq!(rt; Entry::Survey(survey), want);
}

/// The outcome of a ring of two seats at its end.
fn closed_well(rt: &impl Abort, closed: &Closed<Till>, calls: &[Call]) {
    assert_eq!(rt; closed.logs.len(), 2);
    assert_eq!(rt; closed.logs[0].seat, 0);
    assert_eq!(rt; closed.logs[1].seat, 1);
    is_told(rt, closed.logs[0].entries.as_slice(), 0, calls);
    is_told(rt, closed.logs[1].entries.as_slice(), 1, calls);
}

/// The parts that come back where there was no memory to close a ring whose second seat was given first.
fn handed_back<N: Name>(rt: &impl Abort, fault: &CloseFault<N, Till>, calls: &[Call]) {
    assert_eq!(rt; fault.reason, CloseReason::OutOfMemory);
    assert_eq!(rt; fault.seats.len(), 2);
    assert_eq!(rt; fault.seats[0].number(), 1);
    is_told(rt, fault.seats[0].log(), 1, calls);
    is_told(rt, fault.seats[1].log(), 0, calls);
}

/// The state after all calls.
#[derive(Clone, Copy)]
pub(super) struct End<'a> {
    pub(super) calls: &'a [Call],
    pub(super) events: &'a [Event],
    pub(super) survey: Entry,
}

/// Ends the ring, which leaves this; where memory is scarce it may be handed back with the same.
pub(super) fn ends<N: Name, W: Wait + Abort>(
    rt: &W,
    alloc: Global,
    ring: Ring<N, Till>,
    seats: (Seat<N>, Seat<N>),
    end: End,
    scarce: bool,
)
    requires { seats.0.number ≢ seats.1.number }
{
    let (first, second) = seats;
    let seats = both(rt, alloc, second, first);
    match ring.close(rt, alloc, seats) {
        Ok(closed) => {
            is_booked(rt, alloc, &closed.book, end.events, end.survey);
            closed_well(rt, &closed, end.calls);
        }
        Err(fault) => {
            assert!(rt; scarce);
            is_booked(rt, alloc, &fault.book, end.events, end.survey);
            handed_back(rt, &fault, end.calls);
        }
    }
}

/// A survey, as a log has it.
pub(super) fn seen(position: u64, privileged: u32, first: u32, calm: u64, rest: u64) -> Entry {
    Entry::Survey(Survey {
        position,
        privileged,
        first,
        calm,
        rest,
    })
}

/// Makes this many passes with order 1.
pub(super) fn pass_often<N: Name, W: Wait + Abort>(
    rt: &W,
    ring: &Ring<N, Till>,
    seat: Seat<N>,
    machine: u32,
    times: u32,
) -> Seat<N>
    requires { machine < length N.start.values }
    ensures { result.number ≡ seat.number }
{
    let mut seat = seat;
    for _ in 0..times {
        let passed = ring.pass(rt, &mut seat, machine, 1);
        assert!(rt; passed.is_ok());
    }
    seat
}
