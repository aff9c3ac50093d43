//! One ring from its opening to its closing.
ghost use Rattle.std.specs.Prelude.{◌≡◌, ◌≤◌, [], All, vec_len, IfOk};
ghost use Rattle.ring_model.specs.Limits.{seat_limit};
ghost use Rattle.ring_model.specs.History.{opening};
ghost use Rattle.ring_shared.specs.Holding.{MeansLegal};
ghost use Rattle.ring_farm.specs.Plans.{IsShort, IsPlanOn};
ghost use Rattle.ring_farm.specs.Refusals.{told_of, told_of_close};
ghost use Rattle.ring_farm.specs.Runs.{IsRun};

use crate::faults::{FarmError, out_of_memory};
use crate::gates::Gate;
use crate::rooms::Room;
use crate::threads::run_threads;
use ring_book::{Book, Resource, Till};
use ring_logs::RingOutcome;
use ring_settings::Plan;
use ring_shared::{CloseReason, Closed, Draft, Name, OpenReason, Ring};
use std::alloc::Global;
use std::marker::Brand;
use std::sync::Wait;
use std::thread::Threads;

/// Opens a ring of name `N` over the draft, with this room in its seats' logs, runs the plans on it, and closes it.
fn run_named<N: Name + Send + Sync, G: Gate + Sync, W: Threads + Wait + Sync>(
    rt: &W,
    alloc: Global,
    gate: &G,
    number: u32,
    plans: &Vec<Plan>,
    room: &Room,
    draft: Draft<Till>,
) -> Result<RingOutcome, FarmError>
    requires start { draft.book.start ≡ N.start }
    requires seats { draft.seats ≡ N.seats }
    requires log { draft.log ≡ N.log }
    requires legal { MeansLegal ⟦<Till as Resource>⟧.works ⟦<Till as Resource>⟧.first N.start
        N.legal }
    requires count { draft.seats ≡ vec_len plans.now }
    requires few { All IsShort plans.now.items }
    requires possible { All (IsPlanOn number N.start) plans.now.items }
    ensures { IfOk result (λ o. IsRun plans.now.items number draft.book.start o.book o.logs.items) }
{
    let (ring, mut seats) = match Ring::<N, Till>::open(alloc, draft) {
        Ok(opened) => opened,
        Err(fault) => {
            let refusal = refusal_of(fault.reason);
            fault.into_book(rt);
            return Err(refusal);
        }
    };
    if let Err(fault) = room.reserve_entries(&mut seats) {
        end(ring, rt, alloc);
        return Err(fault);
    }
    let seats = match run_threads(rt, alloc, &ring, gate, number, plans, seats) {
        Ok(seats) => seats,
        Err(fault) => {
            end(ring, rt, alloc);
            return Err(fault);
        }
    };
    match ring.close(rt, alloc, seats) {
        Ok(Closed { book, logs }) => Ok(RingOutcome { book, logs }),
        Err(fault) => Err(refusal_of_close(fault.reason)),
    }
}

/// Returns the refusal of a farm where a ring was not opened.
fn refusal_of(reason: OpenReason) -> FarmError
    ensures { result ≡ told_of reason }
{
    match reason {
        OpenReason::OutOfMemory => FarmError::OutOfMemory,
        OpenReason::NoSeat => FarmError::NoSeat,
    }
}

/// Returns the refusal of a farm where a ring was not closed well.
fn refusal_of_close(reason: CloseReason) -> FarmError
    ensures { result ≡ told_of_close reason }
{
    match reason {
        CloseReason::OutOfMemory => FarmError::OutOfMemory,
        CloseReason::SeatsMissing | CloseReason::Mismatch => FarmError::Mismatch,
    }
}

/// Ends a ring whose run was refused; nothing of it is kept.
fn end<N: Name, W: Wait>(ring: Ring<N, Till>, rt: &W, alloc: Global) {
    let _ = ring.close(rt, alloc, Vec::new(alloc));
}

/// Runs the plans' parts for the ring of this number, over a book with no events. The room is taken before any thread
/// starts.
///
/// # Errors
///
/// In the order of time: `NoSeat` or out of memory for opening, `Spawn`, the refusal of the least seat that met one,
/// and the refusal of closing.
pub(crate) fn run_ring<G: Gate + Sync, W: Threads + Wait + Sync>(
    rt: &W,
    alloc: Global,
    gate: &G,
    number: u32,
    plans: &Vec<Plan>,
    room: &Room,
    mut book: Book<Till>,
) -> Result<RingOutcome, FarmError>
    requires empty { book.history ≡ [] }
    requires some { 1 ≤ vec_len plans.now }
    requires count { vec_len plans.now ≤ seat_limit }
    requires few { All IsShort plans.now.items }
    requires possible { All (IsPlanOn number book.start) plans.now.items }
    ensures { IfOk result (λ o. IsRun plans.now.items number book.start o.book o.logs.items) }
{
    room.reserve_events(&mut book)?;
    let seats = plans.len() as u32;
    let draft = match Draft::new(book, seats) {
        Ok(draft) => draft,
        Err(_) => return Err(out_of_memory()),
    };
    run_named::<Brand, G, W>(rt, alloc, gate, number, plans, room, draft)
}
