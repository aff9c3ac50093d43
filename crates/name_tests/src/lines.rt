//! Answers that no row of `tests/rows` causes, with their lines.

use held_locks::{Answer, Holder, Refusal, Stats};
use lock_protocol::put_answer;
use std::alloc::Global;
use std::process::Abort;

/// A name of as many bytes as one can have.
const LONG: &[u8] =
    b"xxxxxxxxxxxxxxxxxxxxxxxxxxxxxxxxxxxxxxxxxxxxxxxxxxxxxxxxxxxxxxxxxxxxxxxxxxxxxxxxxxxxxxxxxxxxxxxxxxxxxxxxxxxxxxxxxxxxxxxxxxxxxxxx";

fn says(rt: &impl Abort, alloc: Global, name: &[u8], answer: Answer, line: &[u8]) {
    let mut text = Vec::new(alloc);
    assert!(rt; put_answer(&mut text, 12, name, answer).is_ok());
    assert!(rt; text.as_slice() == line);
}

/// The line of a lock with the longest name.
fn long_line(rt: &impl Abort, alloc: Global, before: &[u8], after: &[u8]) -> Vec<u8> {
    let mut line = Vec::new(alloc);
    for part in [before, LONG, after] {
        assert!(rt; line.extend_from_slice(part).is_ok());
    }
    line
}

// The greatest numbers, and the longest name.
#[test]
fn writes_stats(rt: HostRuntime) {
    let alloc = rt.alloc();
    let held = Stats {
        machines: u32::MAX,
        waiters: u64::MAX,
        passes: u64::MAX,
        holder: Some(Holder {
            client: u64::MAX,
            token: u64::MAX,
        }),
    };
    let after =
        b" 4294967295 18446744073709551615 18446744073709551615 18446744073709551615 18446744073709551615\n";
    let line = long_line(&rt, alloc, b"12 stats ", after);
    says(&rt, alloc, LONG, Answer::Stats(held), line.as_slice());
}

#[test]
fn writes_grants(rt: HostRuntime) {
    let alloc = rt.alloc();
    let answer = Answer::Granted(u64::MAX);
    let line = long_line(&rt, alloc, b"12 granted ", b" 18446744073709551615\n");
    says(&rt, alloc, LONG, answer, line.as_slice());
}

// For lack of room, and for lack of memory.
#[test]
fn writes_refusals(rt: HostRuntime) {
    says(
        &rt,
        rt.alloc(),
        b"gpu/0",
        Answer::Refused(Refusal::Full),
        b"12 refused full gpu/0\n",
    );
    says(
        &rt,
        rt.alloc(),
        b"3",
        Answer::Refused(Refusal::Memory),
        b"12 refused memory 3\n",
    );
}
