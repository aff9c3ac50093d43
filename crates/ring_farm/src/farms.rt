//! All rings of the settings.
ghost use Rattle.std.specs.Prelude.{◌≡◌, ◌<◌, ◌≤◌, [], All, Some, map, length, vec_len, vec_capacity, IfOk, IfErr};
ghost use Rattle.ring_settings.specs.Limits.{ring_limit};
ghost use Rattle.ring_model.specs.Limits.{seat_limit};
ghost use Rattle.ring_state.specs.Sizes.{size_of};
ghost use Rattle.ring_settings.specs.Actions.{size_at};
ghost use Rattle.ring_settings.specs.Contents.{ring_at, sizes_of, plan_of, plans_of, IsSettings};
ghost use Rattle.ring_settings.specs.Views.{plan_actions};
ghost use Rattle.ring_farm.specs.Plans.{IsShort, IsPlanFor};
ghost use Rattle.ring_farm.specs.Runs.{IsRunOf, AreRunsOf, CanRun, ring_of_data, first_refusal};
ghost use Rattle.ring_farm.specs.Headline.{EachDone, IsFarmRing, IsFarmOf};
ghost use Rattle.ring_farm.specs.Consequences.{IsLawfulAt, IsLawfulFarm};

use crate::faults::{FarmError, out_of_memory};
use crate::gates::Gate;
use crate::outcomes::Outcome;
use crate::rings::run_ring;
use crate::rooms::{Rooms, rooms_for};
use ring_book::{Book, Till};
use ring_logs::RingOutcome;
use ring_settings::{Plan, Settings, plans};
use ring_state::RingState;
use std::alloc::{AllocError, Global};
use std::sync::Wait;
use std::thread;
use std::thread::Threads;

/// A book over the start of this ring of the settings, and an empty till.
fn book_of(alloc: Global, settings: &Settings, ring: usize) -> Result<Book<Till>, FarmError>
    requires { ring < length settings.now.rings }
    ensures start { IfOk result (λ b. b.start ≡ ring_of_data (ring_at settings.now ring)) }
    ensures size { IfOk result (λ b. size_of b.start ≡ size_at (sizes_of settings.now.rings) ring) }
    ensures empty { IfOk result (λ b. b.history ≡ []) }
{
    let params = settings.params(ring);
    let Ok(state) = RingState::from_values(alloc, &params, settings.start(ring)) else {
        return Err(out_of_memory());
    };
    match Book::new(alloc, state, Till::new()) {
        Ok(book) => Ok(book),
        Err(_) => Err(out_of_memory()),
    }
}

/// Runs one ring of the settings.
fn run_at<G: Gate + Sync, W: Threads + Wait + Sync>(
    rt: &W,
    alloc: Global,
    gate: &G,
    ring: usize,
    settings: &Settings,
    plans: &Vec<Plan>,
    rooms: &Rooms,
) -> Result<RingOutcome, FarmError>
    requires within { ring < length settings.now.rings }
    requires most { length settings.now.rings ≤ ring_limit }
    requires some { 1 ≤ vec_len plans.now }
    requires count { vec_len plans.now ≤ seat_limit }
    requires few { All IsShort plans.now.items }
    requires fits { All (IsPlanFor (sizes_of settings.now.rings)) plans.now.items }
    ensures { IfOk result (λ o. IsRunOf settings.now plans.now.items ring o) }
{
    let book = book_of(alloc, settings, ring)?;
    run_ring(rt, alloc, gate, ring as u32, plans, &rooms[ring], book)
}

/// All outcomes, or the refusal of the least ring that met one.
fn collect(
    results: Vec<Result<RingOutcome, FarmError>>,
    mut rings: Vec<RingOutcome>,
) -> Result<Outcome, FarmError>
    requires room { vec_len results ≤ vec_capacity rings }
    requires empty { rings.items ≡ [] }
    ensures ok { IfOk result (λ o. results.items ≡ map (λ r. Ok r) o.rings.items) }
    ensures err { IfErr result (λ e. first_refusal results.items ≡ Some e) }
{
    for result in results {
        match result {
            Ok(ring) => rings.push_reserved(ring),
            Err(fault) => return Err(fault),
        }
    }
    Ok(Outcome { rings })
}

/// Runs each ring, several at once where threads can be had. The results are in the order of the rings.
fn run_each<G: Gate + Sync, W: Threads + Wait + Sync>(
    rt: &W,
    alloc: Global,
    gate: &G,
    settings: &Settings,
    plans: &Vec<Plan>,
) -> Result<Vec<Result<RingOutcome, FarmError>>, AllocError>
    requires some { 1 ≤ vec_len plans.now }
    requires count { vec_len plans.now ≤ seat_limit }
    requires few { All IsShort plans.now.items }
    requires fits { All (IsPlanFor (sizes_of settings.now.rings)) plans.now.items }
    ensures settings { IsSettings settings.now }
    ensures len { IfOk result (λ v. vec_len v ≡ length settings.now.rings) }
    ensures each { IfOk result (λ v. AreRunsOf settings.now plans.now.items v.items) }
{
    let rings = settings.ring_count();
    let rooms = rooms_for(plans.as_slice(), rings);
    let run = |ring: usize| -> Result<RingOutcome, FarmError>
        requires { (ring < length settings.now.rings)
            × (length settings.now.rings ≤ ring_limit)
            × CanRun settings.now plans.now.items }
        ensures { IfOk result (λ o. IsRunOf settings.entry.now plans.entry.now.items ring o) }
    { run_at(rt, alloc, gate, ring, settings, plans, &rooms) };
    thread::map_indices(rt, alloc, rings, &run)
}

/// Runs the rings of the settings as `run_farm` does, and hands out each ring's own outcome or refusal, in the order of
/// the settings. A ring that is not refused has all that `run_farm` promises of a ring, whatever became of the others.
///
/// # Errors
///
/// If there is no memory for the plans and the list of the results.
pub fn run_rings<G: Gate + Sync, W: Threads + Wait + Sync>(
    rt: &W,
    alloc: Global,
    settings: &Settings,
    gate: &G,
) -> Result<Vec<Result<RingOutcome, FarmError>>, AllocError>
    ensures count { IfOk result (λ v. vec_len v ≡ length settings.now.rings) }
    ensures each { IfOk result (λ v. EachDone (IsFarmRing settings.now) settings.now v.items) }
    ensures lawful { IfOk result (λ v. EachDone IsLawfulAt settings.now v.items) }
{
    let plans = plans(alloc, settings)?;
    run_each(rt, alloc, gate, settings, &plans)
}

/// Runs the rings of the settings, each driven by one thread for each plan, and hands out their histories.
///
/// For every number n of machines from 2, every K from n, every start and every plan, each ring's passes and
/// corruptions form one history of a one-thread ring, which holds each client's calls once, in its order;
/// every reply and survey is that ring's at its point; and wherever 3n(n-1)/2 granted passes have followed
/// the last corruption, exactly one machine is privileged, and grants go round the ring until the next one.
/// The record `IsFarmOf` says it part by part: that there is one outcome for each ring of the settings (`count`), and
/// of each (`IsFarmRing`): `one_history`, `calls` and `logs` by the plans, and `right` receipts and surveys. The consequences are
/// in `IsLawfulFarm`, of each ring: `repaired`, `turns`, the laws of `settlement` and `progress` from every place, the `size` of
/// the settings, a `whole` history with every call `alone`, and as many `receipts` as calls.
///
/// # Errors
///
/// Out of memory for the plans and the lists of the farm comes first, then the refusal of the least ring
/// that met one, the first of those that `run_rings` answers: in the order of time, that of opening (`NoSeat`,
/// `OutOfMemory`), `Spawn`, the refusal of the least seat (`GateShut`, `HistoryFull`, `OutOfMemory`), and that of
/// closing (`Mismatch`, `OutOfMemory`). A worker that meets a refusal stops, the others continue to their ends; all
/// are joined. Nothing of a refused run is kept.
pub fn run_farm<G: Gate + Sync, W: Threads + Wait + Sync>(
    rt: &W,
    alloc: Global,
    settings: &Settings,
    gate: &G,
) -> Result<Outcome, FarmError>
    ensures headline { IfOk result (IsFarmOf settings.now) }
    ensures lawful { IfOk result (IsLawfulFarm settings.now) }
{
    let Ok(rings) = Vec::with_capacity(alloc, settings.ring_count()) else {
        return Err(out_of_memory());
    };
    let Ok(results) = run_rings(rt, alloc, settings, gate) else {
        return Err(out_of_memory());
    };
    collect(results, rings)
}
