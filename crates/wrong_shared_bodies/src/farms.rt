//! Farms, each broken: the outcome of a run of the settings, with one thing wrong.

ghost use Rattle.std.specs.Prelude.{◌≡◌, ◌≢◌, ◌≤◌, ◌-◌, true, length, vec_len, IfOk, IfSome};
ghost use Rattle.ring_settings.specs.Contents.{ring_at, plan_of};
ghost use Rattle.ring_farm.specs.Plans.{planned};
ghost use Rattle.ring_farm.specs.Headline.{IsFarmOf};
ghost use Rattle.wrong_shared_bodies.specs.LastRing.{IsLastRing};

use ring_farm::{FarmError, Gate, Open, Outcome, RingOutcome, run_farm, run_rings};
use ring_model::Entry;
use ring_settings::Settings;
use ring_shared::Log;
use std::alloc::{AllocError, Global};
use std::sync::Wait;
use std::thread::Threads;

/// Runs a farm, and hands out its last ring.
fn last_ring<G: Gate + Sync, W: Threads + Wait + Sync>(
    rt: &W,
    alloc: Global,
    settings: &Settings,
    gate: &G,
) -> Option<RingOutcome>
    ensures promised { IfSome result (IsLastRing settings.now) }
    ensures seats { 1 ≤ length settings.now.seats }
{
    settings.seat_count();
    let Ok(mut outcome) = run_farm(rt, alloc, settings, gate) else {
        return None;
    };
    outcome.rings.pop()
}

/// The outcomes of a farm are in the order of its rings: the last two, which start otherwise, are exchanged.
pub fn rings_in_another_order<G: Gate + Sync, W: Threads + Wait + Sync>(
    rt: &W,
    alloc: Global,
    settings: &Settings,
    gate: &G,
) -> Option<Outcome>
    requires two { 2 ≤ length settings.now.rings }
    requires apart { (ring_at settings.now (length settings.now.rings - 2)).start
        ≢ (ring_at settings.now (length settings.now.rings - 1)).start }
    ensures wrong { IfSome result (λ o. IsFarmOf settings.now o → ⊥) }
{
    let Ok(mut outcome) = run_farm(rt, alloc, settings, gate) else {
        return None;
    };
    let last = outcome.rings.pop()?;
    let before = outcome.rings.pop()?;
    let Ok(()) = outcome.rings.push(last) else {
        return None;
    };
    let Ok(()) = outcome.rings.push(before) else {
        return None;
    };
    Some(outcome)
}

/// A farm hands out each of its rings: the last one is left out.
pub fn ring_that_is_not_handed_out<G: Gate + Sync, W: Threads + Wait + Sync>(
    rt: &W,
    alloc: Global,
    settings: &Settings,
    gate: &G,
) -> Result<Outcome, FarmError>
    ensures wrong { IfOk result (λ o. IsFarmOf settings.now o → ⊥) }
{
    let mut outcome = run_farm(rt, alloc, settings, gate)?;
    outcome.rings.pop();
    Ok(outcome)
}

/// A ring's history holds the calls of its plans and no others: one more of seat 0 is made.
pub fn event_that_no_plan_has<G: Gate + Sync, W: Threads + Wait + Sync>(
    rt: &W,
    alloc: Global,
    settings: &Settings,
    gate: &G,
) -> Option<RingOutcome>
    ensures wrong { IfSome result (λ r. IsLastRing settings.now r → ⊥) }
{
    let mut ring = last_ring(rt, alloc, settings, gate)?;
    ring.book.history(); // says: the book is one
    let Ok(_) = ring.book.pass(0, 0, 0) else {
        return None;
    };
    Some(ring)
}

/// A client makes each action of its plan once: the last entry of the last log is there twice.
pub fn action_that_is_made_twice<G: Gate + Sync, W: Threads + Wait + Sync>(
    rt: &W,
    alloc: Global,
    settings: &Settings,
    gate: &G,
) -> Option<RingOutcome>
    ensures wrong { IfSome result (λ r. IsLastRing settings.now r → ⊥) }
{
    let mut ring = last_ring(rt, alloc, settings, gate)?;
    let mut log = ring.logs.pop()?;
    let entry = *log.entries.last()?;
    let Ok(()) = log.entries.push(entry) else {
        return None;
    };
    let Ok(()) = ring.logs.push(log) else {
        return None;
    };
    Some(ring)
}

/// A client makes all the actions of its plan: the last entry of the last log is left out.
pub fn action_that_is_left_out<G: Gate + Sync, W: Threads + Wait + Sync>(
    rt: &W,
    alloc: Global,
    settings: &Settings,
    gate: &G,
) -> Option<RingOutcome>
    ensures wrong { IfSome result (λ r. IsLastRing settings.now r → ⊥) }
{
    let mut ring = last_ring(rt, alloc, settings, gate)?;
    let mut log = ring.logs.pop()?;
    let _last = log.entries.pop()?;
    let Ok(()) = ring.logs.push(log) else {
        return None;
    };
    Some(ring)
}

/// A client's actions are made in the order of its plan: a call and the survey after it are exchanged in the last log.
pub fn actions_in_another_order<G: Gate + Sync, W: Threads + Wait + Sync>(
    rt: &W,
    alloc: Global,
    settings: &Settings,
    gate: &G,
) -> Option<RingOutcome>
    ensures wrong { IfSome result (λ r. IsLastRing settings.now r → ⊥) }
{
    let mut ring = last_ring(rt, alloc, settings, gate)?;
    let mut log = ring.logs.pop()?;
    let last = log.entries.pop()?;
    let Entry::Survey(survey) = last else {
        return None;
    };
    let before = log.entries.pop()?;
    let Entry::Receipt(receipt) = before else {
        return None;
    };
    let Ok(()) = log.entries.push(Entry::Survey(survey)) else {
        return None;
    };
    let Ok(()) = log.entries.push(Entry::Receipt(receipt)) else {
        return None;
    };
    let Ok(()) = ring.logs.push(log) else {
        return None;
    };
    Some(ring)
}

/// The log at a place is that of the seat of this number: the last two logs are exchanged.
pub fn logs_of_a_farm_in_another_order<G: Gate + Sync, W: Threads + Wait + Sync>(
    rt: &W,
    alloc: Global,
    settings: &Settings,
    gate: &G,
) -> Option<RingOutcome>
    ensures wrong { IfSome result (λ r. IsLastRing settings.now r → ⊥) }
{
    let mut ring = last_ring(rt, alloc, settings, gate)?;
    let last = ring.logs.pop()?;
    let before = ring.logs.pop()?;
    let Ok(()) = ring.logs.push(last) else {
        return None;
    };
    let Ok(()) = ring.logs.push(before) else {
        return None;
    };
    Some(ring)
}

/// Each seat follows the plan of its own number: the last two seats, whose plans are apart, have each other's entries.
pub fn seat_with_anothers_plan<G: Gate + Sync, W: Threads + Wait + Sync>(
    rt: &W,
    alloc: Global,
    settings: &Settings,
    gate: &G,
) -> Option<RingOutcome>
    requires apart { planned (length settings.now.rings - 1)
        (plan_of settings.now (length settings.now.seats - 2))
        ≢ planned (length settings.now.rings - 1)
        (plan_of settings.now (length settings.now.seats - 1)) }
    ensures wrong { IfSome result (λ r. IsLastRing settings.now r → ⊥) }
{
    let mut ring = last_ring(rt, alloc, settings, gate)?;
    let last = ring.logs.pop()?;
    let before = ring.logs.pop()?;
    let first = Log {
        seat: before.seat,
        entries: last.entries,
    };
    let second = Log {
        seat: last.seat,
        entries: before.entries,
    };
    let Ok(()) = ring.logs.push(first) else {
        return None;
    };
    let Ok(()) = ring.logs.push(second) else {
        return None;
    };
    Some(ring)
}

/// There is a result for each ring: the last one is left out.
pub fn result_that_is_left_out<G: Gate + Sync, W: Threads + Wait + Sync>(
    rt: &W,
    alloc: Global,
    settings: &Settings,
    gate: &G,
) -> Result<Vec<Result<RingOutcome, FarmError>>, AllocError>
    requires some { 1 ≤ length settings.now.rings }
    ensures wrong { IfOk result (λ v. vec_len v ≡ length settings.now.rings → ⊥) }
{
    let mut results = run_rings(rt, alloc, settings, gate)?;
    results.pop();
    Ok(results)
}

/// The open gate lets all pass: it lets nobody on.
pub fn open_gate_that_is_shut(ring: u32, worker: u32, call: u32) -> bool
    ensures wrong { result ≡ true → ⊥ }
{
    !Open.arrive(ring, worker, call)
}
