//! A short history of three machines with three values, worked by hand from the rule.

ghost use Rattle.std.specs.Prelude.{◌≡◌};
ghost use Rattle.ring_model.specs.Replay.{machine_of};

use ring_model::replay::{calm, step_with_till};
use ring_model::{Event, Op, Reply};

/// The machine that a call names.
fn machine_of(op: Op) -> u32
    ensures { result ≡ machine_of op }
{
    match op {
        Op::Pass { machine, .. } => machine,
        Op::Member { machine, .. } => machine,
        Op::Corrupt { machine, .. } => machine,
    }
}

const FIRST: (Op, Reply) = (
    Op::Pass {
        machine: 0,
        order: 10,
    },
    Reply::Granted {
        number: 1,
        result: 10,
    },
);

const SECOND: (Op, Reply) = (
    Op::Pass {
        machine: 0,
        order: 5,
    },
    Reply::NotPrivileged,
);

const THIRD: (Op, Reply) = (
    Op::Pass {
        machine: 2,
        order: 7,
    },
    Reply::Granted {
        number: 2,
        result: 17,
    },
);

const FAULT: (Op, Reply) = (
    Op::Corrupt {
        machine: 1,
        value: 0,
    },
    Reply::Corrupted { old: 2 },
);
/// The till stays at its top.
const LAST: (Op, Reply) = (
    Op::Pass {
        machine: 1,
        order: u64::MAX - 1,
    },
    Reply::Granted {
        number: 3,
        result: u64::MAX,
    },
);

// Each step with its reply, and the values, the amount and the grants after it.
#[test]
fn steps_with_a_till(rt: HostRuntime) {
    let mut ring = [0, 2, 0];
    let mut amount = 0;
    let mut grants = 0;
    for ((op, reply), values, held, passed) in [
        (FIRST, [1, 2, 0], 10, 1),
        (SECOND, [1, 2, 0], 10, 1),
        (THIRD, [1, 2, 2], 17, 2),
        (FAULT, [1, 0, 2], 17, 2),
        (LAST, [1, 1, 2], u64::MAX, 3),
    ] {
        assert!(rt; machine_of(op) < 3 && grants < 10);
        assert!(rt;
            step_with_till(3, &mut ring, &mut amount, &mut grants, op) == reply,
            "grants {grants}"
        );
        assert!(rt;
            ring == values && amount == held && grants == passed,
            "grants {grants}"
        );
    }
}

#[test]
fn counts_the_calm(rt: HostRuntime) {
    let [granted, refused, fault] = [FIRST, SECOND, FAULT].map(|(op, reply)| Event {
        seat: 0,
        op,
        reply,
    });
    assert!(rt; calm(&[]) == 0);
    assert!(rt; calm(&[granted, refused, granted]) == 2);
    assert!(rt; calm(&[granted, granted, fault]) == 0);
    assert!(rt; calm(&[granted, fault, refused, granted, granted, granted]) == 3);
}
