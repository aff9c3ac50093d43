//! Two seats on two scoped threads.

ghost use Rattle.std.specs.Prelude.{◌≡◌, ◌<◌, ◌≤◌, length};

use super::calls::pass_often;
use ring_book::Till;
use ring_shared::{Name, Ring, Seat};
use std::process::Abort;
use std::sync::Wait;
use std::thread;
use std::thread::{Promise, PromisedHandle, Scope, Threads};

/// The promise of a thread: to hand back the seat of this number.
#[derive(Drop)]
pub(super) struct HandsBack {
    pub(super) number: u32,
}

impl<N: Name> Promise<Seat<N>> for HandsBack {
    ghost use Rattle.std.specs.Prelude.{◌≡◌};

    ghost kept_by = { λ p s. s.number ≡ p.number };
}

/// Starts a thread of a scope that makes 100 passes by this machine for the seat.
fn start<'s, E: 's, N: Name + Send + Sync + 's, W: Threads + Wait + Abort + Sync + 's>(
    scope: &Scope<'s, E>,
    rt: &'s W,
    ring: &'s Ring<N, Till>,
    seat: Seat<N>,
    machine: u32,
) -> PromisedHandle<Seat<N>, HandsBack>
    requires { machine < length N.start.values }
    ensures { result.promise.number ≡ seat.number }
{
    let promise = HandsBack {
        number: seat.number(),
    };
    let job = move || -> Seat<N>
        requires { machine < length N.start.values }
        ensures { result.number ≡ seat.number }
    { pass_often(rt, ring, seat, machine, 100) };
    match scope.spawn_with(promise, job) {
        Ok(handle) => handle,
        Err(_) => panic!(rt; "a thread was not started"),
    }
}

/// Makes 100 passes by machine 0 for the first seat and 100 by machine 1 for the second, on two threads.
pub(super) fn pass_at_once<N: Name + Send + Sync, W: Threads + Wait + Abort + Sync>(
    rt: &W,
    ring: &Ring<N, Till>,
    first: Seat<N>,
    second: Seat<N>,
) -> (Seat<N>, Seat<N>)
    requires { 2 ≤ length N.start.values }
    ensures first { result.0.number ≡ first.number }
    ensures second { result.1.number ≡ second.number }
{
    thread::scope(
        thread::scope_env(),
        rt,
        |scope| -> (Seat<N>, Seat<N>)
            requires { 2 ≤ length N.start.values }
            ensures { (result.0.number ≡ first.number) × (result.1.number ≡ second.number) }
        {
            let one = start(scope, rt, ring, first, 0);
            let other = start(scope, rt, ring, second, 1);
            (one.join(rt), other.join(rt))
        },
    )
}
