//! A ring that is cut after its first three calls.

ghost use Rattle.std.specs.Prelude.{◌≡◌, ◌<◌, length};
ghost use Rattle.ring_model.specs.Resources.{till};
ghost use Rattle.one_thread_ring.specs.Rings.{IsOneThreadRing};

use endless_ring::EndlessRing;
use one_thread_ring::{CallError, OneThreadRing};
use ring_book::Till;
use ring_model::{Base, Receipt, Reply, Survey};
use std::alloc::Global;
use std::process::Abort;

/// Three machines with three values, and two seats.
fn opened(rt: &impl Abort, alloc: Global) -> OneThreadRing<Till>
    ensures ring { IsOneThreadRing till 0 result }
    ensures seats { length result.clients ≡ 2 }
{
    match OneThreadRing::open(alloc, 3, 3, &[0, 2, 0], 2, Till::new()) {
        Ok(ring) => ring,
        Err(_) => panic!(rt; "the ring is opened"),
    }
}

/// The position and the reply of a call.
fn told(rt: &impl Abort, call: Result<Receipt, CallError>) -> (u64, Reply) {
    match call {
        Ok(receipt) => (receipt.position, receipt.event.reply),
        Err(_) => panic!(rt; "the call is recorded"),
    }
}

// The history that is worked by hand in `ring_model`: positions, grants, amounts and calm continue over the cut.
#[test]
fn goes_on_over_a_cut(rt: HostRuntime) {
    let granted = |number, amount| Reply::Granted {
        number,
        result: amount,
    };
    let mut ring = EndlessRing::after(Base::none(), opened(&rt, rt.alloc()));
    assert!(rt; told(&rt, ring.pass(0, 0, 10)) == (0, granted(1, 10)));
    assert!(rt; told(&rt, ring.pass(1, 0, 5)) == (1, Reply::NotPrivileged));
    assert!(rt; told(&rt, ring.pass(0, 2, 7)) == (2, granted(2, 17)));
    let Ok(mut next) = ring.cut(rt.alloc()) else {
        panic!(rt; "there is memory");
    };
    let base = Base {
        events: 3,
        grants: 2,
        amount: 17,
        calm: 2,
    };
    let at_cut = Survey {
        position: 3,
        privileged: 1,
        first: 1,
        calm: 2,
        rest: 0,
    };
    assert!(rt; *next.base() == base && next.segment().history_length() == 0);
    assert!(rt; next.survey(1).is_ok_and(|survey| survey == at_cut));
    assert!(rt; told(&rt, next.corrupt(1, 1, 0)) == (3, Reply::Corrupted { old: 2 }));
    assert!(rt; told(&rt, next.pass(1, 1, 1)) == (4, granted(3, 18)));
    match next.pass_group(0, &[2], 4) {
        Ok(block) => assert!(rt; block.first == 5 && block.count == 1),
        Err(_) => panic!(rt; "the group passes"),
    }
    let end = Survey {
        position: 6,
        privileged: 1,
        first: 0,
        calm: 2,
        rest: 0,
    };
    assert!(rt; next.glance() == end && next.segment().history_length() == 3);
}

/// The position and the reply of a grant to a machine that is privileged, with room for its event.
fn surely_granted(
    rt: &impl Abort,
    ring: &mut EndlessRing,
    seat: u32,
    machine: u32,
    order: u64,
) -> (u64, Reply)
    requires { seat < length ring.old.ring.clients }
{
    assert!(rt; machine < ring.segment().machines());
    assert!(rt; ring.segment().is_privileged(machine));
    let Ok(()) = ring.reserve(1) else {
        panic!(rt; "there is memory");
    };
    let receipt = ring.grant(seat, machine, order);
    (receipt.position, receipt.event.reply)
}

// A pass that cannot be refused: its receipt counts what came before the segment.
#[test]
fn grants_count_what_came_before(rt: HostRuntime) {
    let mut ring = EndlessRing::after(Base::none(), opened(&rt, rt.alloc()));
    let first = Reply::Granted {
        number: 1,
        result: 10,
    };
    assert!(rt; surely_granted(&rt, &mut ring, 0, 0, 10) == (0, first));
    let Ok(next) = ring.cut(rt.alloc()) else {
        panic!(rt; "there is memory");
    };
    let mut after = EndlessRing::after(*next.base(), opened(&rt, rt.alloc()));
    let second = Reply::Granted {
        number: 2,
        result: 17,
    };
    assert!(rt; surely_granted(&rt, &mut after, 1, 2, 7) == (1, second));
}
