//! Histories of locks that are not legal, which the command `holds` refuses before it reads them, and the sums of a chain.

use chain_readers::{ChainHoldError, HoldChain, holds_of_saved};
use saved_history::{Saved, read_saved};
use std::alloc::Global;
use std::process::Abort;

/// The saved history of one ring of three machines with these lines after its start.
fn saved_of(rt: &impl Abort, alloc: Global, lines: &str) -> Saved {
    let mut text = Vec::new(alloc);
    assert!(rt;
        text.extend_from_slice(b"ringfarm 2\nring 0 3 3\nstart 0 0 0\n")
            .is_ok()
    );
    assert!(rt; text.extend_from_slice(lines.as_bytes()).is_ok());
    assert!(rt; text.extend_from_slice(b"done 1\n").is_ok());
    let Ok(saved) = read_saved(alloc, &text) else {
        panic!(rt; "no saved text");
    };
    saved
}

fn refuses(rt: &impl Abort, alloc: Global, history: &str, place: u64) {
    let saved = saved_of(rt, alloc, history);
    let Err(error) = holds_of_saved(alloc, &saved) else {
        panic!(rt; "held");
    };
    assert!(rt; error == ChainHoldError::NoHold { lock: 0, at: place });
}

#[test]
fn refuses_what_no_lock_has(rt: HostRuntime) {
    let rows = [
        // A grant with no greater token, while a hold is open and at the start.
        ("p 0 0 7 g 1 7\np 0 1 8 g 1 15\nend 2\ns 1 1 1 1 1 0\n", 1),
        ("p 0 0 7 g 0 7\nend 1\n", 0),
        // A hold that continues, before which another event came.
        ("c 8 0 0 0\np 3 0 2 n\nend 2\n", 1),
    ];
    for (history, place) in rows {
        refuses(&rt, rt.alloc(), history, place);
    }
}

// The lock is held when the second segment begins. The digest is that of another program.
const FIRST: &str = "ringsegment 1 1 1\n\
    behind 0000000000000000000000000000000000000000000000000000000000000000\n\
    base 0 0 0 0\n\
    ringjournal 1\n\
    ringfarm 2\n\
    ring 0 3 3\n\
    start 0 0 0\n\
    end 0\n\
    done 1\n\
    0 p 0 0 77 g 1 77\n";

const SECOND: &str = "ringsegment 1 2 1\n\
    behind 9ad286b8e43a78599b8adab9f610c9368bd06d2dcc6d670183c7a564d9d1d79b\n\
    base 1 1 77 1\n\
    ringjournal 1\n\
    ringfarm 2\n\
    ring 0 3 3\n\
    start 1 0 0\n\
    end 0\n\
    done 1\n\
    0 p 3 0 1 n\n\
    0 s 1 1 1 1 0 0\n\
    0 p 0 1 78 g 1 78\n";

#[test]
fn a_chain_has_sums(rt: HostRuntime) {
    let Ok(one) = HoldChain::new(rt.alloc()).with_file(rt.alloc(), FIRST.as_bytes(), false) else {
        panic!(&rt; "first");
    };
    let Ok(two) = one.with_file(rt.alloc(), SECOND.as_bytes(), true) else {
        panic!(&rt; "second");
    };
    assert!(&rt; two.sums().segments == 2 && two.sums().events == 3);
}
