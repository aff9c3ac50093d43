//! Rings whose books and logs are made by hand: two clients call them in turn.

use ring_book::{Book, Entry, Till};
use ring_farm::{Log, Outcome, RingOutcome};
use ring_state::{Params, RingState};
use std::alloc::Global;
use std::process::Abort;
use std::test::Fail;

/// The act of a client.
#[derive(Clone, Copy)]
pub(super) enum Act {
    /// It passes at a machine, with an order.
    Pass(u32, u64),
    /// It corrupts a machine to a value.
    Corrupt(u32, u32),
    Survey,
    /// Machines 0, 1 and 3 pass at once with order 2, and the log has nothing of it.
    Group,
}

/// A ring from its start to its end.
#[derive(Clone, Copy)]
pub(super) struct Scene<'a> {
    pub(super) k: u32,
    pub(super) start: &'a [u32],
    /// The seats of the two clients, in the order of their logs.
    pub(super) seats: (u32, u32),
    /// Each act with the seat of its client.
    pub(super) acts: &'a [(u32, Act)],
}

pub(super) fn book_of(
    rt: &impl Abort,
    alloc: Global,
    k: u32,
    values: &[u32],
) -> Result<Book<Till>, Fail> {
    assert!(rt; values.len() <= 256);
    let size = Params::new(values.len() as u32, k)?;
    let state = RingState::from_values(alloc, &size, values)?;
    match Book::new(alloc, state, Till::new()) {
        Ok(book) => Ok(book),
        Err(_) => panic!(rt; "there is no memory for a book"),
    }
}

/// The entry in the log of the client of a seat when the act is done.
fn done(
    rt: &impl Abort,
    book: &mut Book<Till>,
    seat: u32,
    act: Act,
) -> Result<Option<Entry>, Fail> {
    let size = book.state().params();
    assert!(rt; seat <= 9);
    match act {
        Act::Pass(machine, order) => {
            assert!(rt; machine < size.n());
            Ok(Some(Entry::Receipt(book.pass(seat, machine, order)?)))
        }
        Act::Corrupt(machine, value) => {
            assert!(rt; machine < size.n() && value < size.k());
            Ok(Some(Entry::Receipt(book.corrupt(seat, machine, value)?)))
        }
        Act::Survey => Ok(Some(Entry::Survey(book.survey()))),
        Act::Group => {
            assert!(rt; size.n() == 4);
            book.pass_group(seat, &[0, 1, 3], 2)?;
            Ok(None)
        }
    }
}

/// The outcome of the ring at the end of the scene.
fn played(rt: &impl Abort, alloc: Global, scene: Scene) -> Result<RingOutcome, Fail> {
    let mut book = book_of(rt, alloc, scene.k, scene.start)?;
    let mut first = Vec::new(alloc);
    let mut second = Vec::new(alloc);
    for (seat, act) in scene.acts {
        if let Some(entry) = done(rt, &mut book, *seat, *act)? {
            if *seat == scene.seats.0 {
                first.push(entry)?;
            } else {
                second.push(entry)?;
            }
        }
    }
    let mut logs = Vec::new(alloc);
    logs.push(Log {
        seat: scene.seats.0,
        entries: first,
    })?;
    logs.push(Log {
        seat: scene.seats.1,
        entries: second,
    })?;
    Ok(RingOutcome { book, logs })
}

/// The outcome of the rings of these scenes.
pub(super) fn outcome_of(
    rt: &impl Abort,
    alloc: Global,
    scenes: &[Scene],
) -> Result<Outcome, Fail> {
    let mut rings = Vec::new(alloc);
    for scene in scenes {
        rings.push(played(rt, alloc, *scene)?)?;
    }
    Ok(Outcome { rings })
}
