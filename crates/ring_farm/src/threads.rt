//! The threads of one ring: one for each plan, all joined.
ghost use Rattle.std.specs.Prelude.{◌≡◌, ℕ, ◌<◌, ◌≤◌, [], None, All, Some, map, slice_get, length, vec_len, vec_capacity, IfOk, IfSome, IsTrue};
ghost use Rattle.ring_shared.specs.Opening.{AreFresh};
ghost use Rattle.ring_farm.specs.Plans.{Pairs, actions_of, planned, IsShort, IsPlanOn};
ghost use Rattle.ring_farm.specs.Promises.{IsPromised, DidAsPromised, IsDone, AreReady};
ghost use Rattle.ring_settings.specs.declared.actions.Plan.{Plan};

use crate::faults::{FarmError, first_fault, out_of_memory};
use crate::gates::Gate;
use crate::workers::{Work, run_plan};
use ring_book::Resource;
use ring_settings::Plan;
use ring_shared::{Name, Ring, Seat};
use std::alloc::Global;
use std::snapshot::Snapshot;
use std::sync::Wait;
use std::thread;
use std::thread::{Promise, PromisedHandle, Scope, Threads};

/// The promise of a thread: to hand back the seat of this number, with its plan's part for this ring.
#[derive(Drop)]
pub(crate) struct Does {
    ring: u32,
    number: u32,
    plan: Snapshot<Plan>,
}

impl<N: Name> Promise<Work<N>> for Does {
    ghost use Rattle.std.specs.Prelude.{◌≡◌, None};
    ghost use Rattle.ring_farm.specs.Plans.{actions_of, planned};

    ghost kept_by = { λ p w. (w.seat.number ≡ p.number)
        × (w.fault ≡ None
        → actions_of p.ring w.seat.log ≡ planned p.ring p.plan.value.actions.items) };
}

/// The ring that threads drive, the gate that they come to before each action, and the ring's number among those of the farm.
#[derive_where(Clone, Copy)]
struct DrivenRing<'a, N: Name, R: Resource + Drop, G: Gate> {
    ring: &'a Ring<N, R>,
    gate: &'a G,
    number: u32,
}

/// Starts a thread for the seat, with this plan. None where it could not be started.
fn spawn_one<
    's,
    E: 's,
    N: Name + Send + Sync + 's,
    R: Resource + Drop + Send + 's,
    G: Gate + Sync + 's,
    W: Threads + Wait + Sync + 's,
>(
    scope: &Scope<'s, E>,
    rt: &'s W,
    driven: &DrivenRing<'s, N, R, G>,
    plan: &'s Plan,
    seat: Seat<N>,
) -> Option<PromisedHandle<Work<N>, Does>>
    requires few { IsShort plan.now }
    requires possible { IsPlanOn driven.now.number N.start plan.now }
    requires new { seat.log ≡ [] }
    ensures { IfSome result
        (λ h. IsPromised driven.now.number seat.number plan.entry.now h.promise) }
{
    let ring = driven.ring;
    let gate = driven.gate;
    let number = driven.number;
    let promise = Does {
        ring: number,
        number: seat.number(),
        plan: Snapshot::of(plan),
    };
    let job = move || -> Work<N>
        requires { IsShort plan.now × IsPlanOn number N.start plan.now × (seat.log ≡ []) }
        ensures number { result.seat.number ≡ seat.number }
        ensures log { result.fault ≡ None
            → actions_of number result.seat.log ≡ planned number plan.entry.now.actions.items }
    { run_plan(rt, ring, gate, number, plan, seat) };
    scope.spawn_with(promise, job).ok()
}

/// Starts a thread for each seat, with the plan of its number. False where one could not be started; the
/// others continue.
fn spawn_all<
    's,
    E: 's,
    N: Name + Send + Sync + 's,
    R: Resource + Drop + Send + 's,
    G: Gate + Sync + 's,
    W: Threads + Wait + Sync + 's,
>(
    scope: &Scope<'s, E>,
    rt: &'s W,
    driven: &DrivenRing<'s, N, R, G>,
    plans: &'s Vec<Plan>,
    seats: Vec<Seat<N>>,
    mut handles: Vec<PromisedHandle<Work<N>, Does>>,
) -> (Vec<PromisedHandle<Work<N>, Does>>, bool)
    requires room { vec_len seats ≤ vec_capacity handles }
    requires empty { handles.items ≡ [] }
    requires few { All IsShort plans.now.items }
    requires possible { All (IsPlanOn driven.now.number N.start) plans.now.items }
    requires fresh { AreFresh (length plans.now.items) seats.items }
    ensures room { vec_len result.0 ≤ vec_len plans.entry.now }
    ensures all { IsTrue result.1 → vec_len result.0 ≡ vec_len plans.entry.now }
    ensures promises { IsTrue result.1
        → Pairs (IsPromised driven.now.number) plans.entry.now.items
        (map (λ h. h.promise) result.0.items) }
{
    let mut all = true;
    let mut i = 0;
    for seat in seats {
        let plan = &plans[i];
        match spawn_one(scope, rt, driven, plan, seat) {
            Some(handle) => handles.push_reserved(handle),
            None => all = false,
        }
        i += 1;
    }
    (handles, all)
}

/// Joins all threads, also where one met a refusal: their seats, or the refusal of the least seat.
fn join_all<N: Name + Send, W: Threads>(
    rt: &W,
    handles: Vec<PromisedHandle<Work<N>, Does>>,
    mut seats: Vec<Seat<N>>,
) -> Result<Vec<Seat<N>>, FarmError>
    requires room { vec_len handles ≤ vec_capacity seats }
    requires empty { seats.items ≡ [] }
    ensures count { IfOk result (λ v. vec_len v ≡ vec_len handles) }
    ensures kept { IfOk result
        (λ v. Pairs DidAsPromised (map (λ h. h.promise) handles.items) v.items) }
{
    let mut fault = None;
    for handle in handles {
        let Work { seat, fault: found } = handle.join(rt);
        fault = first_fault(fault, found);
        seats.push_reserved(seat);
    }
    match fault {
        Some(fault) => Err(fault),
        None => Ok(seats),
    }
}

/// Runs each plan's part on a thread of its own, and hands back the seats, by these empty lists of threads and seats.
fn run_in_scope<
    N: Name + Send + Sync,
    R: Resource + Drop + Send,
    G: Gate + Sync,
    W: Threads + Wait + Sync,
>(
    rt: &W,
    driven: &DrivenRing<'_, N, R, G>,
    plans: &Vec<Plan>,
    seats: Vec<Seat<N>>,
    handles: Vec<PromisedHandle<Work<N>, Does>>,
    back: Vec<Seat<N>>,
) -> Result<Vec<Seat<N>>, FarmError>
    requires ready { AreReady driven.now.number N.start plans.now.items seats.items }
    requires room { (vec_len seats ≤ vec_capacity handles) × (vec_len seats ≤ vec_capacity back) }
    requires empty { (handles.items ≡ []) × (back.items ≡ []) }
    ensures { IfOk result (λ v. (vec_len v ≡ vec_len plans.now)
        × Pairs (IsDone driven.now.number) plans.now.items v.items) }
{
    thread::scope(
        thread::scope_env(),
        rt,
        |scope| -> Result<Vec<Seat<N>>, FarmError>
            requires { AreReady driven.now.number N.start plans.now.items seats.items
                × (vec_len seats ≤ vec_capacity handles)
                × (vec_len seats ≤ vec_capacity back)
                × (handles.items ≡ [])
                × (back.items ≡ []) }
            ensures { IfOk result (λ v. (vec_len v ≡ vec_len plans.entry.now)
                × Pairs (IsDone driven.entry.now.number) plans.entry.now.items v.items) }
        {
            let (handles, all) = spawn_all(scope, rt, driven, plans, seats, handles);
            let joined = join_all(rt, handles, back);
            if !all {
                return Err(FarmError::Spawn);
            }
            joined
        },
    )
}

/// Runs each plan's part for the ring of this number on a thread of its own, and hands back the seats.
///
/// # Errors
///
/// `Spawn` where a thread could not be started, else the refusal of the least seat that met one. Out of
/// memory for the lists of threads and seats comes before any thread is started. All threads are joined.
pub(crate) fn run_threads<
    N: Name + Send + Sync,
    R: Resource + Drop + Send,
    G: Gate + Sync,
    W: Threads + Wait + Sync,
>(
    rt: &W,
    alloc: Global,
    ring: &Ring<N, R>,
    gate: &G,
    number: u32,
    plans: &Vec<Plan>,
    seats: Vec<Seat<N>>,
) -> Result<Vec<Seat<N>>, FarmError>
    requires few { All IsShort plans.now.items }
    requires possible { All (IsPlanOn number N.start) plans.now.items }
    requires fresh { AreFresh (length plans.now.items) seats.items }
    ensures count { IfOk result (λ v. vec_len v ≡ vec_len plans.now) }
    ensures each { IfOk result (λ v. Pairs (IsDone number) plans.now.items v.items) }
{
    let Ok(handles) = Vec::with_capacity(alloc, plans.len()) else {
        return Err(out_of_memory());
    };
    let Ok(back) = Vec::with_capacity(alloc, plans.len()) else {
        return Err(out_of_memory());
    };
    let driven = DrivenRing { ring, gate, number };
    run_in_scope(rt, &driven, plans, seats, handles, back)
}
