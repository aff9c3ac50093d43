//! Events as tests write them.

use ring_model::{Entry, Event, Op, Receipt, Reply};

/// A pass that was granted.
pub(crate) fn granted(seat: u32, machine: u32, order: u64, number: u64, answer: u64) -> Event {
    Event {
        seat,
        op: Op::Pass { machine, order },
        reply: Reply::Granted {
            number,
            result: answer,
        },
    }
}

/// A pass by a machine that was not privileged.
pub(crate) fn refused(seat: u32, machine: u32, order: u64) -> Event {
    Event {
        seat,
        op: Op::Pass { machine, order },
        reply: Reply::NotPrivileged,
    }
}

/// A corruption of a machine that held this old value.
pub(crate) fn corrupted(seat: u32, machine: u32, value: u32, old: u32) -> Event {
    Event {
        seat,
        op: Op::Corrupt { machine, value },
        reply: Reply::Corrupted { old },
    }
}

/// The receipt of an event at this position, as a log has it.
pub(crate) fn told(position: u64, event: Event) -> Entry {
    Entry::Receipt(Receipt { position, event })
}

/// A member of a group that passes with order 2, with this many more after it.
pub(crate) fn member(seat: u32, machine: u32, left: u32, number: u64, answer: u64) -> Event {
    Event {
        seat,
        op: Op::Member {
            machine,
            order: 2,
            left,
        },
        reply: Reply::Granted {
            number,
            result: answer,
        },
    }
}
