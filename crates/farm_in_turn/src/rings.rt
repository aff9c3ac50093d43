//! One ring of the settings, from its opening to its closing.
ghost use Rattle.std.specs.Prelude.{◌≡◌, ◌<◌, ◌≤◌, [], All, IfOk, IfErr, map, length};
ghost use Rattle.ring_model.specs.Limits.{seat_limit};
ghost use Rattle.ring_model.specs.Resources.{till};
ghost use Rattle.ring_settings.specs.Limits.{action_limit, ring_limit};
ghost use Rattle.ring_settings.specs.Contents.{plans_of};
ghost use Rattle.ring_settings.specs.Views.{plan_actions};
ghost use Rattle.ring_farm.specs.Plans.{IsShort};
ghost use Rattle.one_thread_ring.specs.Rings.{IsOneThreadRing, IsSameRing};
ghost use Rattle.farm_in_turn.specs.InTurn.{parts_of};
ghost use Rattle.farm_in_turn.specs.Rings.{IsBegun, IsRunInTurn};
ghost use Rattle.farm_in_turn.specs.Refusals.{IsRingFault};

use crate::parts::{Part, call_count, parts_of};
use crate::turns::take_turns;
use one_thread_ring::{CallError, OneThreadRing};
use ring_book::Till;
use ring_farm::FarmError;
use ring_logs::RingOutcome;
use ring_repairs::generator;
use ring_settings::{Plan, Settings};
use std::alloc::{AllocError, Global};

/// A ring that starts as this one of the settings, with this many seats.
fn open_ring(
    alloc: Global,
    settings: &Settings,
    ring: usize,
    seats: usize,
) -> Result<OneThreadRing<Till>, AllocError>
    requires within { ring < length settings.now.rings }
    requires seats { seats ≤ seat_limit }
    ensures ring { IfOk result (λ r. IsOneThreadRing till 0 r) }
    ensures begun { IfOk result (λ r. IsBegun settings.now ring seats r) }
{
    let size = settings.params(ring);
    let start = settings.start(ring);
    match OneThreadRing::open(alloc, size.n(), size.k(), start, seats as u32, Till::new()) {
        Ok(ring) => Ok(ring),
        Err(_) => Err(AllocError),
    }
}

/// Takes room on a ring without events for the events that are to come.
///
/// # Errors
///
/// `HistoryFull` where they are more than a history may have, else `OutOfMemory`.
fn make_room(ring: &mut OneThreadRing<Till>, parts: &[Part]) -> Result<(), FarmError>
    requires fresh { ring.old.book.history ≡ [] }
    requires seats { length parts.now ≤ seat_limit }
    requires few { All (λ p. length p ≤ action_limit) parts.now }
    ensures same { IsSameRing ring.old ring.new }
    ensures ring { IsOneThreadRing till 0 ring.new }
    ensures err { IfErr result (λ e. IsRingFault parts.now e) }
{
    match ring.reserve(call_count(parts)) {
        Ok(()) => Ok(()),
        Err(CallError::HistoryFull) => Err(FarmError::HistoryFull),
        Err(_) => Err(FarmError::OutOfMemory),
    }
}

/// Runs the parts of the plans on this ring of the settings, in turns.
pub(crate) fn run_ring(
    alloc: Global,
    settings: &Settings,
    plans: &[Plan],
    seed: u64,
    ring: usize,
) -> Result<RingOutcome, FarmError>
    requires within { ring < length settings.now.rings }
    requires most { length settings.now.rings ≤ ring_limit }
    requires seats { length plans.now ≡ length settings.now.seats }
    requires few_seats { length plans.now ≤ seat_limit }
    requires few { All IsShort plans.now }
    requires plans { map plan_actions plans.now ≡ plans_of settings.now }
    ensures ok { IfOk result (λ o. IsRunInTurn settings.now plans.now seed ring o) }
    ensures err { IfErr result (λ e. IsRingFault (parts_of settings.now ring) e) }
{
    let Ok(mut parts) = parts_of(alloc, plans, ring as u32) else {
        return Err(FarmError::OutOfMemory);
    };
    let Ok(mut open) = open_ring(alloc, settings, ring, plans.len()) else {
        return Err(FarmError::OutOfMemory);
    };
    match make_room(&mut open, parts.as_slice()) {
        Ok(()) => {}
        Err(fault) => return Err(fault),
    }
    let mut words = generator(seed, ring as u64);
    let Ok(()) = take_turns(alloc, &mut words, &mut parts, &mut open) else {
        return Err(FarmError::OutOfMemory);
    };
    match open.close(alloc) {
        Ok(outcome) => Ok(outcome),
        Err(_) => Err(FarmError::OutOfMemory),
    }
}
