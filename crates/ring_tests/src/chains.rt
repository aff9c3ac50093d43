//! Replies and receipts after a base: of the chain that is worked by hand in `ring_model` (`specs/WorkedChains.antt`), and of a full till.
//! The bases themselves are rows of `tests/rows` (`bases`).

use crate::events::granted;
use ring_model::{Base, Event, Op, Receipt, Reply};

#[test]
fn shifts_replies_and_receipts(rt: HostRuntime) {
    let base = Base {
        events: 3,
        grants: 2,
        amount: 17,
        calm: 2,
    };
    let full = Base {
        amount: u64::MAX - 4,
        ..base
    };
    let reply = |number, amount| Reply::Granted {
        number,
        result: amount,
    };
    assert!(rt; base.shift_reply(reply(1, 1)) == reply(3, 18));
    assert!(rt; full.shift_reply(reply(1, 4)) == reply(3, u64::MAX));
    assert!(rt; full.shift_reply(reply(2, 5)) == reply(4, u64::MAX));
    assert!(rt; base.shift_reply(Reply::NotPrivileged) == Reply::NotPrivileged);
    let fault = Reply::Corrupted { old: 2 };
    assert!(rt; base.shift_reply(fault) == fault);
    let receipt = Receipt {
        position: 2,
        event: Event {
            seat: 1,
            op: Op::Pass {
                machine: 2,
                order: 4,
            },
            reply: Reply::Granted {
                number: 2,
                result: 5,
            },
        },
    };
    let shifted = Receipt {
        position: 5,
        event: granted(1, 2, 4, 4, 22),
    };
    assert!(rt; base.shift_receipt(receipt) == shifted);
}
