//! Passes by groups of the machines of a ring of four machines and two seats.

ghost use Rattle.std.specs.Prelude.{◌≡◌, ◌≢◌, ◌<◌, ◌≤◌, [], length, IfSome};
ghost use Rattle.ring_model.specs.Groups.{Rises};
ghost use Rattle.ring_model.specs.Resources.{till};
ghost use Rattle.ring_shared.specs.Holding.{MeansLegal};

use super::calls::{Call, End, ends, looked, made, play, seen, surveyed};
use super::threads::HandsBack;
use super::{book_of, both, opened};
use crate::events::{granted, member};
use ring_book::{Book, GroupError, GroupReceipt, Till};
use ring_model::{Event, Op};
use ring_shared::{Draft, Name, Ring, Seat};
use std::alloc::Global;
use std::marker::Brand;
use std::process::Abort;
use std::sync::Wait;
use std::thread;
use std::thread::{PromisedHandle, Scope, Threads};

/// Machines of four.
#[derive(Clone, Copy)]
enum Group {
    AllButTwo,
    FirstTwo,
    MiddleTwo,
    LastTwo,
    All,
}

fn machines_of(group: Group) -> &'static [u32]
    ensures rising { Rises 0 4 result.now }
    ensures some { 1 ≤ length result.now }
{
    match group {
        Group::AllButTwo => &[0, 1, 3],
        Group::FirstTwo => &[0, 1],
        Group::MiddleTwo => &[1, 2],
        Group::LastTwo => &[2, 3],
        Group::All => &[0, 1, 2, 3],
    }
}

/// Passes a group with order 2. It is passed a second time where there was no memory, after a look that nothing has changed.
fn passed<N: Name, W: Wait + Abort>(
    rt: &W,
    ring: &Ring<N, Till>,
    seat: &mut Seat<N>,
    group: Group,
) -> Result<GroupReceipt, GroupError>
    requires { length N.start.values ≡ 4 }
    ensures { seat.new.number ≡ seat.old.number }
{
    let logged = seat.log().len();
    let before = ring.glance(seat);
    let result = ring.pass_group(rt, seat, machines_of(group), 2);
    if result != Err(GroupError::OutOfMemory) {
        return result;
    }
    assert_eq!(rt; seat.log().len(), logged);
    assert_eq!(rt; ring.glance(seat), before);
    ring.pass_group(rt, seat, machines_of(group), 2)
}

/// A group is passed by this seat, with this answer.
fn passes<N: Name, W: Wait + Abort>(
    rt: &W,
    ring: &Ring<N, Till>,
    seat: Seat<N>,
    group: Group,
    want: GroupReceipt,
) -> Seat<N>
    requires { length N.start.values ≡ 4 }
    ensures { result.number ≡ seat.number }
{
    let mut seat = seat;
    let told = passed(rt, ring, &mut seat, group);
    assert_eq!(rt; told, Ok(want));
    seat
}

/// Groups are refused, and nothing changes.
fn refuses<N: Name, W: Wait + Abort>(
    rt: &W,
    ring: &Ring<N, Till>,
    seat: Seat<N>,
    scene: &[(Group, GroupError)],
) -> Seat<N>
    requires { length N.start.values ≡ 4 }
    ensures { result.number ≡ seat.number }
{
    let mut seat = seat;
    let logged = seat.log().len();
    let before = ring.glance(&mut seat);
    for case in scene {
        let (group, error) = *case;
        assert_eq!(rt; passed(rt, ring, &mut seat, group), Err(error));
        assert_eq!(rt; seat.log().len(), logged);
        assert_eq!(rt; ring.glance(&mut seat), before);
    }
    seat
}

/// The machines hold 0, 2, 1, 0, then 1, 0, 1, 1, then 2, 0, 1, 1, then 2, 2, 0, 1.
fn events_in_turn() -> [Event; 6] {
    [
        member(0, 1, 2, 1, 2),
        member(0, 0, 1, 2, 4),
        member(0, 3, 0, 3, 6),
        granted(1, 0, 5, 4, 11),
        member(1, 2, 1, 5, 13),
        member(1, 1, 0, 6, 15),
    ]
}

/// The answers of the two seats: the group's members, looks after it, a pass, members, and looks.
fn told_in_turn(events: [Event; 6]) -> [Call; 13] {
    let behind_group = seen(3, 3, 0, 3, 9);
    let behind_both = seen(6, 2, 2, 6, 3);
    [
        made(0, events[0]),
        made(1, events[1]),
        made(2, events[2]),
        looked(0, behind_group),
        surveyed(0, behind_group),
        looked(1, behind_group),
        surveyed(1, behind_group),
        made(3, events[3]),
        made(4, events[4]),
        made(5, events[5]),
        looked(1, behind_both),
        surveyed(0, behind_both),
        surveyed(1, behind_both),
    ]
}

fn pass_in_turn<N: Name, W: Wait + Abort>(
    rt: &W,
    alloc: Global,
    ring: Ring<N, Till>,
    seats: (Seat<N>, Seat<N>),
    scarce: bool,
)
    requires machines { length N.start.values ≡ 4 }
    requires values { 2 ≤ N.start.k }
    requires first { seats.0.number ≡ 0 }
    requires second { seats.1.number ≡ 1 }
{
    let (first, second) = seats;
    let events = events_in_turn();
    let told = told_in_turn(events);
    let one = GroupReceipt { first: 0, count: 3 };
    let other = GroupReceipt { first: 4, count: 2 };
    let all = (Group::All, GroupError::WholeRing);
    let last = (Group::LastTwo, GroupError::NotPrivileged(3));
    let first = refuses(rt, &ring, first, &[all]);
    let first = passes(rt, &ring, first, Group::AllButTwo, one);
    let (first, second) = play(rt, alloc, &ring, (first, second), &told[3..7], scarce);
    let first = refuses(rt, &ring, first, &[all, last]);
    let (first, second) = play(rt, alloc, &ring, (first, second), &told[7..8], scarce);
    let second = passes(rt, &ring, second, Group::MiddleTwo, other);
    let seats = play(rt, alloc, &ring, (first, second), &told[10..], scarce);
    let end = End {
        calls: &told,
        events: &events,
        survey: seen(6, 2, 2, 6, 3),
    };
    ends(rt, alloc, ring, seats, end, scarce)
}

/// How many groups one thread passes.
const GROUPS: u32 = 2_000;

/// How often another looks meanwhile.
const LOOKS: usize = 4_000;

/// Passes the first two machines at once, again and again: a corruption of the last machine after each group makes them
/// privileged again, whatever machine 2 does.
fn pass_groups<N: Name, W: Wait + Abort>(rt: &W, ring: &Ring<N, Till>, seat: Seat<N>) -> Seat<N>
    requires machines { length N.start.values ≡ 4 }
    requires values { 4 ≤ N.start.k }
    ensures { result.number ≡ seat.number }
{
    let mut seat = seat;
    let mut least = 0;
    for turn in 0..GROUPS {
        let told = passed(rt, ring, &mut seat, Group::FirstTwo);
        assert!(rt; matches!(told, Ok(GroupReceipt { count: 2, .. })));
        if let Ok(receipt) = told {
            assert!(rt; least <= receipt.first);
            least = receipt.first;
        }
        let corrupted = ring.corrupt(rt, &mut seat, 3, (turn + 1) % 4);
        assert!(rt; corrupted.is_ok());
    }
    seat
}

/// Passes by machine 2, and looks after each pass; the positions of the looks.
fn pass_and_look<N: Name, W: Wait + Abort>(
    rt: &W,
    ring: &Ring<N, Till>,
    seat: Seat<N>,
) -> (Seat<N>, [u64; 4_000])
    requires { length N.start.values ≡ 4 }
    ensures { result.0.number ≡ seat.number }
{
    let mut seat = seat;
    let mut places = [0; LOOKS];
    for turn in 0..LOOKS {
        if turn % 8 == 0 {
            assert!(rt; ring.pass(rt, &mut seat, 2, 1).is_ok());
        }
        thread::yield_now();
        places[turn] = ring.glance(&mut seat).position;
    }
    (seat, places)
}

/// Starts a thread of a scope that passes groups.
fn start<'s, E: 's, N: Name + Send + Sync + 's, W: Threads + Wait + Abort + Sync + 's>(
    scope: &Scope<'s, E>,
    rt: &'s W,
    ring: &'s Ring<N, Till>,
    seat: Seat<N>,
) -> PromisedHandle<Seat<N>, HandsBack>
    requires machines { length N.start.values ≡ 4 }
    requires values { 4 ≤ N.start.k }
    ensures { result.promise.number ≡ seat.number }
{
    let promise = HandsBack {
        number: seat.number(),
    };
    let job = move || -> Seat<N>
        requires { (length N.start.values ≡ 4) × (4 ≤ N.start.k) }
        ensures { result.number ≡ seat.number }
    { pass_groups(rt, ring, seat) };
    match scope.spawn_with(promise, job) {
        Ok(handle) => handle,
        Err(_) => panic!(rt; "a thread was not started"),
    }
}

/// The first seat passes groups on a thread of its own; the second passes and looks meanwhile.
fn at_once<N: Name + Send + Sync, W: Threads + Wait + Abort + Sync>(
    rt: &W,
    ring: &Ring<N, Till>,
    first: Seat<N>,
    second: Seat<N>,
) -> (Seat<N>, (Seat<N>, [u64; 4_000]))
    requires machines { length N.start.values ≡ 4 }
    requires values { 4 ≤ N.start.k }
    ensures first { result.0.number ≡ first.number }
    ensures second { result.1.0.number ≡ second.number }
{
    thread::scope(
        thread::scope_env(),
        rt,
        |scope| -> (Seat<N>, (Seat<N>, [u64; 4_000]))
            requires { (length N.start.values ≡ 4) × (4 ≤ N.start.k) }
            ensures { (result.0.number ≡ first.number) × (result.1.0.number ≡ second.number) }
        {
            let passing = start(scope, rt, ring, first);
            let looked = pass_and_look(rt, ring, second);
            (passing.join(rt), looked)
        },
    )
}

/// Each place is inside no block of the history.
fn are_between(rt: &impl Abort, history: &[Event], places: &[u64]) {
    for place in places {
        let at = *place as usize;
        assert!(rt; at <= history.len());
        if at > 0 {
            let event = history[at - 1];
            let op = event.op;
            let inside = matches!(op, Op::Member { left, .. } if left > 0);
            assert!(rt; !inside, "{at}");
        }
    }
}

fn pass_at_once<N: Name + Send + Sync, W: Threads + Wait + Abort + Sync>(
    rt: &W,
    alloc: Global,
    ring: Ring<N, Till>,
    seats: (Seat<N>, Seat<N>),
)
    requires machines { length N.start.values ≡ 4 }
    requires values { 4 ≤ N.start.k }
    requires first { seats.0.number ≡ 0 }
    requires second { seats.1.number ≡ 1 }
{
    let (first, looked) = at_once(rt, &ring, seats.0, seats.1);
    let (second, places) = looked;
    let seats = both(rt, alloc, first, second);
    match ring.close(rt, alloc, seats) {
        Ok(closed) => {
            assert_eq!(rt; closed.book.history().len(), 6_500);
            are_between(rt, closed.book.history(), &places);
            assert_eq!(rt; closed.logs.len(), 2);
            let entries = (closed.logs[0].entries.len(), closed.logs[1].entries.len());
            assert_eq!(rt; entries, (6_000, 500));
        }
        Err(fault) => panic!(rt; "{:?}", fault.reason),
    }
}

/// The use of the ring.
#[derive(Clone, Copy)]
enum Script {
    PassInTurn { scarce: bool },
    PassAtOnce,
}

fn run_named<N: Name + Send + Sync, W: Threads + Wait + Abort + Sync>(
    rt: &W,
    alloc: Global,
    draft: Draft<Till>,
    script: Script,
) -> Option<Book<Till>>
    requires start { draft.book.start ≡ N.start }
    requires seats { draft.seats ≡ N.seats }
    requires log { draft.log ≡ N.log }
    requires legal { MeansLegal till 0 N.start N.legal }
    requires machines { length N.start.values ≡ 4 }
    requires values { 4 ≤ N.start.k }
    ensures { IfSome result (λ b. b ≡ draft.book) }
{
    let (ring, seats) = match opened::<N, W>(rt, alloc, draft) {
        Ok(opened) => opened,
        Err(book) => return Some(book),
    };
    match script {
        Script::PassInTurn { scarce } => pass_in_turn(rt, alloc, ring, seats, scarce),
        Script::PassAtOnce => pass_at_once(rt, alloc, ring, seats),
    }
    None
}

/// The book is handed back where no ring was opened.
fn run_over<W: Threads + Wait + Abort + Sync>(
    rt: &W,
    alloc: Global,
    book: Book<Till>,
    script: Script,
) -> Option<Book<Till>>
    requires machines { length book.start.values ≡ 4 }
    requires values { 4 ≤ book.start.k }
    requires empty { book.history ≡ [] }
    ensures { IfSome result (λ b. b ≡ book) }
{
    let Ok(draft) = Draft::new(book, 2) else {
        panic!(rt; "a draft takes no memory");
    };
    run_named::<Brand, W>(rt, alloc, draft, script)
}

/// Plays the script on a new ring; where there was no memory to open one, on one over the book that was handed back.
fn run<W: Threads + Wait + Abort + Sync>(rt: &W, alloc: Global, script: Script) {
    let book = book_of(rt, alloc, &[0, 2, 1, 0]);
    if let Some(book) = run_over(rt, alloc, book, script) {
        let again = run_over(rt, alloc, book, script);
        assert!(rt; again.is_none());
    }
}

#[test]
fn groups_and_other_calls_follow_one_another(rt: HostRuntime) {
    run(&rt, rt.alloc(), Script::PassInTurn { scarce: false });
}

// Passes too where any one request for memory is refused, as `trials/refused_memory.sh` has it.
#[test]
fn lack_of_memory_leaves_groups_as_they_were(rt: HostRuntime) {
    run(&rt, rt.alloc(), Script::PassInTurn { scarce: true });
}

#[test]
fn no_look_is_inside_a_group(rt: HostRuntime) {
    run(&rt, rt.alloc(), Script::PassAtOnce);
}
