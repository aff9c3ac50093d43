//! Scenes: a ring that begins so, and a table of calls and looks with the answer to each, which one loop plays on a book.

ghost use Rattle.std.specs.Prelude.{◌≡◌};

mod calls;
mod fitting;
mod groups;
mod histories;
mod limits;

use crate::groups::rises;
use crate::rings::{has_values, memory_ends, memory_is_back, state_of};
use ring_book::{
    Book, BookError, Event, GroupError, GroupReceipt, Op, Receipt, Reply, Resource, Survey, Till,
};
use std::alloc::Global;
use std::process::Abort;

/// The calls of a book, and their answers. Seat 0 passes, seat 9 corrupts, and seat 3 has the ring settled.
#[derive(Clone, Copy)]
pub enum Step<'a> {
    /// A pass that is granted: its position, the machine, the order, the number of the grant, and the resource's answer.
    Granted(u64, u32, u64, u64, u64),
    /// The same of a machine that is privileged, for which there is room: it cannot be refused.
    SurelyGranted(u64, u32, u64, u64, u64),
    /// A pass that is not granted: its position, the machine, and the order.
    NotPrivileged(u64, u32, u64),
    /// A corruption: its position, the machine, and the values that it writes and writes over.
    Corrupted(u64, u32, u32, u32),
    /// A call that a full history refuses.
    Refused(Op),
    /// A pass by a group with an order. Where it is refused, nothing changes.
    Group(&'a [u32], u64, Result<GroupReceipt, GroupError>),
    /// Memory for this many events.
    Reserve(u32, Result<(), BookError>),
    /// To be settled, by this many passes.
    Settle(Result<u64, BookError>),
    /// A survey: the position, how many machines are privileged, the first of them, the calm and the rest.
    Survey(u64, u32, u32, u64, u64),
    /// The values now.
    Values(&'a [u32]),
    /// The granted passes of each of its three machines, in all and in the settled run.
    Grants([u64; 3], [u64; 3]),
    /// How many calls of seats 9, 0 and 5 there are, how many grants, and how many events.
    Counts([u64; 3], u64, usize),
    /// The last events.
    Ends(&'a [Event]),
}

/// A ring over a till.
#[derive(Clone, Copy)]
pub struct Scene<'a> {
    pub k: u32,
    pub start: &'a [u32],
    /// How many events come first: corruptions of machine 0, which holds 0, to 0, after a request for memory for all that
    /// a history may have.
    pub filled: u32,
    pub steps: &'a [Step<'a>],
}

// Each call is made a second time where there was no memory, after a look that nothing has changed. So the
// tests also pass where any one request for memory is refused.

/// A book with no events, on a ring of these values.
fn book_of<R: Resource + Drop>(
    rt: &impl Abort,
    alloc: Global,
    k: u32,
    values: &[u32],
    resource: R,
) -> Book<R>
    requires { resource ≡ R.first }
{
    let state = state_of(rt, alloc, k, values);
    match Book::new(alloc, state, resource) {
        Ok(book) => book,
        Err(refused) => match Book::new(alloc, refused.state, refused.resource) {
            Ok(book) => book,
            Err(_) => panic!(rt; "memory is refused twice"),
        },
    }
}

/// A pass by seat 0, or a corruption by seat 9.
fn call<R: Resource + Drop>(
    rt: &impl Abort,
    book: &mut Book<R>,
    op: Op,
) -> Result<Receipt, BookError> {
    let size = book.state().params();
    match op {
        Op::Pass { machine, order } => {
            assert!(rt; machine < size.n());
            book.pass(0, machine, order)
        }
        Op::Corrupt { machine, value } => {
            assert!(rt; machine < size.n() && value < size.k());
            book.corrupt(9, machine, value)
        }
        Op::Member { .. } => panic!(rt; "a member makes no call"),
    }
}

/// The same with a second try.
fn called<R: Resource + Drop>(
    rt: &impl Abort,
    book: &mut Book<R>,
    op: Op,
) -> Result<Receipt, BookError> {
    let before = book.survey();
    match call(rt, book, op) {
        Err(BookError::OutOfMemory) => {
            assert!(rt; book.survey() == before);
            call(rt, book, op)
        }
        made => made,
    }
}

/// Whether the call is recorded at this position, by its seat and with its words, and answered so.
fn is_recorded<R: Resource + Drop>(
    rt: &impl Abort,
    book: &mut Book<R>,
    op: Op,
    position: u64,
    reply: Reply,
) -> bool {
    let seat = if matches!(op, Op::Pass { .. }) { 0 } else { 9 };
    let event = Event { seat, op, reply };
    called(rt, book, op) == Ok(Receipt { position, event })
}

/// A grant by seat 0 to a machine that is privileged, with room for its event, which is asked for a second time if it is refused.
fn grant<R: Resource + Drop>(
    rt: &impl Abort,
    book: &mut Book<R>,
    machine: u32,
    order: u64,
) -> Receipt {
    assert!(rt; machine < book.state().params().n());
    assert!(rt; book.state().is_privileged(machine));
    match book.reserve(1) {
        Ok(()) => book.grant(0, machine, order),
        Err(_) => match book.reserve(1) {
            Ok(()) => book.grant(0, machine, order),
            Err(_) => panic!(rt; "memory is refused twice"),
        },
    }
}

/// A pass by a group, with a second try. Nothing has changed where it is refused.
fn pass_group<R: Resource + Drop>(
    rt: &impl Abort,
    book: &mut Book<R>,
    machines: &[u32],
    order: u64,
) -> Result<GroupReceipt, GroupError> {
    let n = book.state().params().n();
    assert!(rt; rises(n, machines) && !machines.is_empty());
    let before = book.survey();
    let made = book.pass_group(0, machines, order);
    assert!(rt; made.is_ok() || book.survey() == before);
    match made {
        Err(GroupError::OutOfMemory) => book.pass_group(0, machines, order),
        made => made,
    }
}

/// Memory for this many events, with a second try.
fn reserve<R: Resource + Drop>(
    rt: &impl Abort,
    book: &mut Book<R>,
    more: u32,
) -> Result<(), BookError> {
    let before = book.survey();
    let made = match book.reserve(more) {
        Err(BookError::OutOfMemory) => book.reserve(more),
        made => made,
    };
    assert!(rt; book.survey() == before);
    made
}

/// Settled by seat 3, with a second try: by this many passes.
fn settle<R: Resource + Drop>(book: &mut Book<R>) -> Result<u64, BookError> {
    let before = book.survey().position;
    let made = match book.settle(3) {
        Err(BookError::OutOfMemory) => book.settle(3),
        made => made,
    };
    match made {
        Ok(_) => Ok(book.survey().position - before),
        Err(error) => Err(error),
    }
}

/// Whether a look at the book shows this.
fn shows<R: Resource + Drop>(book: &Book<R>, look: Step) -> bool {
    match look {
        Step::Survey(position, privileged, first, calm, rest) => {
            book.survey()
                == Survey {
                    position,
                    privileged,
                    first,
                    calm,
                    rest,
                }
        }
        Step::Values(values) => has_values(book.state(), values),
        Step::Grants(all, settled) => has_grants(book, all, settled),
        Step::Counts(calls, grants, events) => {
            [book.calls_of(9), book.calls_of(0), book.calls_of(5)] == calls
                && book.grants().total() == grants
                && book.history().len() == events
        }
        Step::Ends(events) => book.history().ends_with(events),
        _ => false,
    }
}

/// Whether the three machines have these grants, in all and in the settled run.
fn has_grants<R: Resource + Drop>(book: &Book<R>, all: [u64; 3], settled: [u64; 3]) -> bool {
    if book.start().params().n() != 3 {
        return false;
    }
    let grants = book.grants();
    for machine in 0..3u32 {
        let place = machine as usize;
        if grants.of(machine) != all[place] || grants.settled_of(machine) != settled[place] {
            return false;
        }
    }
    true
}

/// Whether a call, or a look, is answered so.
fn is_answered<R: Resource + Drop>(rt: &impl Abort, book: &mut Book<R>, step: Step) -> bool {
    match step {
        Step::Granted(position, machine, order, number, result) => {
            let op = Op::Pass { machine, order };
            is_recorded(rt, book, op, position, Reply::Granted { number, result })
        }
        Step::SurelyGranted(position, machine, order, number, result) => {
            let event = Event {
                seat: 0,
                op: Op::Pass { machine, order },
                reply: Reply::Granted { number, result },
            };
            grant(rt, book, machine, order) == Receipt { position, event }
        }
        Step::NotPrivileged(position, machine, order) => {
            let op = Op::Pass { machine, order };
            is_recorded(rt, book, op, position, Reply::NotPrivileged)
        }
        Step::Corrupted(position, machine, value, old) => {
            let op = Op::Corrupt { machine, value };
            is_recorded(rt, book, op, position, Reply::Corrupted { old })
        }
        Step::Refused(op) => called(rt, book, op) == Err(BookError::HistoryFull),
        Step::Group(machines, order, answer) => pass_group(rt, book, machines, order) == answer,
        Step::Reserve(more, answer) => reserve(rt, book, more) == answer,
        Step::Settle(answer) => settle(book) == answer,
        look => shows(book, look),
    }
}

/// Plays a table of calls and looks, and compares each answer.
fn play<R: Resource + Drop>(rt: &impl Abort, book: &mut Book<R>, steps: &[Step]) {
    for (place, step) in steps.iter().enumerate() {
        assert!(rt; is_answered(rt, book, *step), "step {place}");
    }
}

/// Has the book make this many events.
fn fill<R: Resource + Drop>(rt: &impl Abort, book: &mut Book<R>, events: u32) {
    assert!(rt; reserve(rt, book, 4_000_000).is_ok());
    let fault = Op::Corrupt {
        machine: 0,
        value: 0,
    };
    for _ in 0..events {
        assert!(rt; call(rt, book, fault).is_ok());
    }
}

/// Plays scenes.
fn play_all(rt: &impl Abort, alloc: Global, scenes: &[Scene]) {
    for scene in scenes {
        let mut book = book_of(rt, alloc, scene.k, scene.start, Till::new());
        if scene.filled > 0 {
            fill(rt, &mut book, scene.filled);
        }
        play(rt, &mut book, scene.steps);
        assert!(rt; has_values(book.start(), scene.start));
    }
}

// Passes too where each request for memory between the marks is refused, as `trials/refused_memory.sh` has it: of the
// room for five events a group of three leaves that for two.
#[test]
fn calls_with_room_and_surveys_take_no_memory(rt: HostRuntime) {
    let mut book = book_of(&rt, rt.alloc(), 4, &[0, 2, 1, 0], Till::new());
    assert!(rt; reserve(&rt, &mut book, 5).is_ok());
    assert!(rt; book.state().params().n() == 4);
    memory_ends(rt.alloc());
    let group = book.pass_group(0, &[0, 1, 3], 2);
    let passed = book.pass(0, 2, 2).is_ok() && book.pass(0, 2, 2).is_ok();
    let survey = book.survey();
    memory_is_back(rt.alloc());
    assert!(rt; group == Ok(GroupReceipt { first: 0, count: 3 }) && passed);
    assert!(rt; book.history().len() == 5);
    // 1, 0, 0, 1: the weight is 3 + 1, and the lead 1.
    let wanted = Survey {
        position: 5,
        privileged: 3,
        first: 0,
        calm: 4,
        rest: 8,
    };
    assert!(rt; survey == wanted);
}
