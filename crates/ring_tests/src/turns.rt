//! Two clients of a ring of two machines, by their calls and the close.

mod threads;

ghost use Rattle.std.specs.Prelude.{◌≡◌, ◌≢◌, ◌<◌, ◌≤◌, length};
ghost use Rattle.ring_model.specs.Resources.{till};
ghost use Rattle.ring_model.specs.Ring.{IsRing};
ghost use Rattle.ring_shared.specs.Holding.{MeansLegal};
ghost use Rattle.ring_turns.specs.Spared.{spared};

use crate::events::granted;
use crate::shared::both;
use ring_book::{Book, BookError, Till};
use ring_model::{Entry, Event, Op, Receipt, Reply};
use ring_shared::{Draft, Name, Ring, Seat};
use ring_state::{Params, RingState};
use ring_turns::{PASS_ON, Spared, TooFewMachines, Turn, Turns};
use std::alloc::Global;
use std::marker::Brand;
use std::process::Abort;
use std::sync::Wait;

/// The work of the two clients.
#[derive(Clone, Copy)]
enum Scene {
    /// The first takes two turns, and the other wants nothing.
    OneAlone,
    /// The first takes a turn after a fault.
    BehindAFault,
    /// The other had passed before there were turns, which the first has not seen. Then the first takes a turn.
    AfterAPass,
    /// The other filled the history up to two events before there were turns. Each takes a turn, and then no call is taken.
    UntilFull,
    /// There are to be three clients of the two machines.
    TooMany,
}

/// A ring of two machines that hold 0, over a till that spares, with two seats.
fn draft(rt: &impl Abort, alloc: Global) -> Draft<Spared<Till>>
    ensures machines { length result.book.start.values ≡ 2 }
    ensures values { result.book.start.k ≡ 2 }
    ensures ring { IsRing result.book.start }
    ensures seats { result.seats ≡ 2 }
{
    let Ok(params) = Params::new(2, 2) else {
        panic!(rt; "the size is allowed");
    };
    let state = RingState::from_values(alloc, &params, &[0, 0]).expect(
        rt,
        "the values are allowed",
    );
    let Ok(book) = Book::new(alloc, state, Spared::new(Till::new())) else {
        panic!(rt; "there is memory");
    };
    let Ok(draft) = Draft::new(book, 2) else {
        panic!(rt; "a draft takes no memory");
    };
    draft
}

/// A turn of the first client, whose machine is machine 0.
fn turn(asked_at: u64, position: u64, order: u64, number: u64, answer: u64) -> Turn {
    Turn {
        asked_at,
        receipt: Receipt {
            position,
            event: granted(0, 0, order, number, answer),
        },
    }
}

/// Only the first client: machine 0 is its own, and machine 1 is passed on for the other, which wants nothing.
fn alone<N: Name, W: Wait + Abort>(rt: &W, turns: &Turns<N, Till>, seat: &mut Seat<N>)
    requires clients { 2 ≤ turns.now }
    requires first { seat.old.number ≡ 0 }
    ensures { seat.new.number ≡ seat.old.number }
{
    let first = turns.take_turn(rt, seat, 7).expect(rt, "a turn");
    assert_eq!(rt; first, turn(0, 0, 7, 1, 7));
    let second = turns.take_turn(rt, seat, 5).expect(rt, "a turn");
    assert_eq!(rt; second, turn(1, 2, 5, 3, 12));
}

/// The first client after a fault, which makes machine 1 privileged instead of machine 0.
fn behind_a_fault<N: Name, W: Wait + Abort>(rt: &W, turns: &Turns<N, Till>, seat: &mut Seat<N>)
    requires clients { 2 ≤ turns.now }
    requires machines { length N.start.values ≡ 2 }
    requires values { N.start.k ≡ 2 }
    requires first { seat.old.number ≡ 0 }
    ensures { seat.new.number ≡ seat.old.number }
{
    let fault = turns.corrupt(rt, seat, 0, 1).expect(rt, "a fault");
    assert_eq!(rt; fault.position, 0);
    assert_eq!(rt; fault.event.reply, Reply::Corrupted { old: 0 });
    let behind = turns.take_turn(rt, seat, 4).expect(rt, "a turn");
    assert_eq!(rt; behind, turn(1, 2, 4, 2, 4));
}

/// The first client after a pass of the other, before there were turns, which made machine 1 privileged.
fn after_a_pass<N: Name, W: Wait + Abort>(rt: &W, turns: &Turns<N, Till>, seat: &mut Seat<N>)
    requires clients { 2 ≤ turns.now }
    requires first { seat.old.number ≡ 0 }
    ensures { seat.new.number ≡ seat.old.number }
{
    let after = turns.take_turn(rt, seat, 4).expect(rt, "a turn");
    assert_eq!(rt; after, turn(1, 2, 4, 3, 7));
}

/// The client is refused, since the history is full, and has left no more than the survey by which it asked.
fn stays_full<N: Name, W: Wait + Abort>(rt: &W, turns: &Turns<N, Till>, seat: &mut Seat<N>)
    requires client { seat.old.number < turns.now }
    ensures { seat.new.number ≡ seat.old.number }
{
    let before = seat.log().len();
    let refused = turns.take_turn(rt, seat, 1);
    assert_eq!(rt; refused, Err(BookError::HistoryFull));
    assert!(rt; seat.log().len() > before && seat.log().len() - before == 1);
    let Some(Entry::Survey(survey)) = seat.log().last() else {
        panic!(rt; "the client asked");
    };
    assert_eq!(rt; (survey.position, survey.first), (4_000_000, 0));
}

/// Each client has a turn, and then the history is full. Machine 0 is the one that comes up: if its client were still to wait
/// after it was refused, the other would not be refused, but wait for it.
fn until_full<N: Name, W: Wait + Abort>(
    rt: &W,
    turns: &Turns<N, Till>,
    first: &mut Seat<N>,
    second: &mut Seat<N>,
)
    requires clients { 2 ≤ turns.now }
    requires machines { length N.start.values ≡ 2 }
    requires values { N.start.k ≡ 2 }
    requires one { first.old.number ≡ 0 }
    requires other { second.old.number ≡ 1 }
    ensures one { first.new.number ≡ first.old.number }
    ensures other { second.new.number ≡ second.old.number }
{
    let own = turns.take_turn(rt, first, 7).expect(rt, "a turn");
    assert_eq!(rt; own, turn(3_999_998, 3_999_998, 7, 1, 7));
    let others = turns.take_turn(rt, second, 5).expect(rt, "a turn");
    assert_eq!(rt;
        (others.asked_at, others.receipt.position),
        (3_999_999, 3_999_999)
    );
    assert_eq!(rt; others.receipt.event, granted(1, 1, 5, 2, 12));
    stays_full(rt, turns, first);
    stays_full(rt, turns, second);
    stays_full(rt, turns, first);
    let fault = turns.corrupt(rt, second, 0, 1);
    assert_eq!(rt; fault, Err(BookError::HistoryFull));
}

/// How many turns each client had, and how many events the history has.
fn end_of(scene: Scene) -> ([usize; 2], usize) {
    match scene {
        Scene::OneAlone => ([2, 0], 3),
        Scene::BehindAFault | Scene::AfterAPass => ([1, 0], 3),
        Scene::UntilFull => ([1, 1], 4_000_000),
        Scene::TooMany => ([0, 0], 0),
    }
}

/// How many of the entries are receipts of granted passes of the client's own machine.
fn turns_in(entries: &[Entry], client: u32) -> usize {
    let mut turns: usize = 0;
    for entry in entries {
        if let Entry::Receipt(receipt) = entry
            && is_turn(&receipt.event, client)
        {
            turns = turns.saturating_add(1);
        }
    }
    turns
}

/// Whether an event is a granted pass of this machine on an order that does work.
fn is_turn(event: &Event, client: u32) -> bool {
    match (event.op, event.reply) {
        (Op::Pass { machine, order }, Reply::Granted { .. }) => {
            machine == client && order != PASS_ON
        }
        _ => false,
    }
}

/// How many clients there are to be.
fn clients_of(scene: Scene) -> u32
    ensures { 2 ≤ result }
{
    match scene {
        Scene::TooMany => 3,
        _ => 2,
    }
}

/// What the second client passes before there are turns: a machine, and how often.
fn passes_before(scene: Scene) -> (u32, u32)
    ensures { result.0 < 2 }
{
    match scene {
        Scene::AfterAPass => (0, 1),
        Scene::UntilFull => (1, 3_999_998),
        _ => (0, 0),
    }
}

/// The passes of the second client before there are turns.
fn pass_before<N: Name, W: Wait + Abort>(
    rt: &W,
    ring: &Ring<N, Spared<Till>>,
    seat: &mut Seat<N>,
    scene: Scene,
)
    requires machines { length N.start.values ≡ 2 }
    ensures { seat.new.number ≡ seat.old.number }
{
    let (machine, times) = passes_before(scene);
    for _ in 0..times {
        let passed = ring.pass(rt, seat, machine, 3);
        assert!(rt; passed.is_ok());
    }
}

/// Plays the scene at a ring of this name, and closes it.
fn run_named<N: Name, W: Wait + Abort>(
    rt: &W,
    alloc: Global,
    draft: Draft<Spared<Till>>,
    scene: Scene,
)
    requires start { draft.book.start ≡ N.start }
    requires seats { draft.seats ≡ N.seats }
    requires log { draft.log ≡ N.log }
    requires legal { MeansLegal (spared till) 0 N.start N.legal }
    requires machines { length N.start.values ≡ 2 }
    requires values { N.start.k ≡ 2 }
    requires ring { IsRing N.start }
{
    let (ring, mut seats) = match Ring::<N, Spared<Till>>::open(alloc, draft) {
        Ok(opened) => opened,
        Err(fault) => {
            fault.into_book(rt);
            panic!(rt; "a ring is opened");
        }
    };
    let (Some(mut second), Some(first)) = (seats.pop(), seats.pop()) else {
        panic!(rt; "there are two seats");
    };
    assert_eq!(rt; (first.number(), second.number()), (0, 1));
    pass_before(rt, &ring, &mut second, scene);
    let turns = match Turns::new(ring, clients_of(scene), 2) {
        Ok(turns) => turns,
        Err(TooFewMachines { ring }) => return hand_back(rt, alloc, ring, first, second, scene),
    };
    play(rt, alloc, turns, first, second, scene)
}

/// Closes a ring that was handed back.
fn hand_back<N: Name, W: Wait + Abort>(
    rt: &W,
    alloc: Global,
    ring: Ring<N, Spared<Till>>,
    first: Seat<N>,
    second: Seat<N>,
    scene: Scene,
)
    requires { first.number ≢ second.number }
{
    assert_eq!(rt; clients_of(scene), 3);
    let seats = both(rt, alloc, first, second);
    let Ok(closed) = ring.close(rt, alloc, seats) else {
        panic!(rt; "a ring is closed");
    };
    assert_eq!(rt; closed.book.history().len(), 0);
}

/// Plays the scene, and closes the ring.
fn play<N: Name, W: Wait + Abort>(
    rt: &W,
    alloc: Global,
    turns: Turns<N, Till>,
    first: Seat<N>,
    second: Seat<N>,
    scene: Scene,
)
    requires clients { 2 ≤ turns }
    requires one { first.number ≡ 0 }
    requires other { second.number ≡ 1 }
    requires machines { length N.start.values ≡ 2 }
    requires values { N.start.k ≡ 2 }
{
    let (mut first, mut second) = (first, second);
    match scene {
        Scene::OneAlone | Scene::TooMany => alone(rt, &turns, &mut first),
        Scene::BehindAFault => behind_a_fault(rt, &turns, &mut first),
        Scene::AfterAPass => after_a_pass(rt, &turns, &mut first),
        Scene::UntilFull => until_full(rt, &turns, &mut first, &mut second),
    }
    let seats = both(rt, alloc, first, second);
    let Ok(closed) = turns.close(rt, alloc, seats) else {
        panic!(rt; "a ring is closed");
    };
    let (turns, events) = end_of(scene);
    assert_eq!(rt; closed.logs.len(), 2);
    assert_eq!(rt; turns_in(&closed.logs[0].entries, 0), turns[0]);
    assert_eq!(rt; turns_in(&closed.logs[1].entries, 1), turns[1]);
    let history = closed.book.history();
    assert_eq!(rt; history.len(), events);
}

/// Plays the scene at a new ring.
fn run<W: Wait + Abort>(rt: &W, alloc: Global, scene: Scene) {
    let draft = draft(rt, alloc);
    run_named::<Brand, W>(rt, alloc, draft, scene);
}

#[test]
fn a_machine_whose_client_wants_nothing_is_passed_on(rt: HostRuntime) {
    assert_eq!(&rt; PASS_ON, u64::MAX);
    run(&rt, rt.alloc(), Scene::OneAlone);
}

#[test]
fn a_turn_behind_a_fault(rt: HostRuntime) {
    run(&rt, rt.alloc(), Scene::BehindAFault);
}

#[test]
fn a_turn_after_a_pass_that_its_seat_has_not_seen(rt: HostRuntime) {
    run(&rt, rt.alloc(), Scene::AfterAPass);
}

#[test]
fn who_is_refused_leaves_the_desk(rt: HostRuntime) {
    run(&rt, rt.alloc(), Scene::UntilFull);
}

#[test]
fn more_clients_than_machines_are_refused(rt: HostRuntime) {
    run(&rt, rt.alloc(), Scene::TooMany);
}
