//! Locks by any name: a fixed lock and a pool of two rings.

ghost use Rattle.ring_model.specs.Bases.{IsBase};

use crate::dialogues::{acquire, begun, opened, release, three_locks};
use held_locks::{Locks, OneAsk};
use lock_names::{NotBegun, NotGrown, TOP_LIMIT, wanted_pool};
use ring_model::Base;

/// What comes before a segment if as many grants were made as may be.
fn used_up() -> Base
    ensures { IsBase result }
{
    Base {
        events: TOP_LIMIT,
        grants: TOP_LIMIT,
        amount: 0,
        calm: 0,
    }
}

#[test]
fn begins_with_names_of_its_own(rt: HostRuntime) {
    let alloc = rt.alloc();
    let rows = [(["a", "b"], None), (["a", "a"], Some(NotBegun::Twice))];
    for (fixed, why) in rows {
        let names = begun(&rt, alloc, three_locks(&rt, alloc), &fixed);
        assert!(&rt; names.err() == why);
    }
    let names = begun(&rt, alloc, Locks::none(alloc), &["a"]);
    assert!(&rt; names.err() == Some(NotBegun::Locks));
    let mut locks = three_locks(&rt, alloc);
    locks.acquire(7, 2, 1);
    let names = begun(&rt, alloc, locks, &["a"]);
    assert!(&rt; names.err() == Some(NotBegun::Held));
    let mut locks = three_locks(&rt, alloc);
    assert!(&rt; locks.add(alloc, opened(&rt, alloc, used_up())).is_ok());
    let names = begun(&rt, alloc, locks, &["a"]);
    assert!(&rt; names.err() == Some(NotBegun::Full));
}

// An ask reaches the ring of its name; the lowest free one, if it is for a hold and no ring has the name; or none. It says how many
// events the segment of that ring had before, and has now.
#[test]
fn asks_reach_rings(rt: HostRuntime) {
    let alloc = rt.alloc();
    let Ok(mut names) = begun(&rt, alloc, three_locks(&rt, alloc), &["deploy"]) else {
        panic!(&rt; "refused");
    };
    let rows: [(&str, OneAsk, Option<u32>, usize, usize); 9] = [
        ("order/1", acquire(10), Some(1), 0, 1),
        ("deploy", OneAsk::Stats, Some(0), 0, 0),
        ("order/1", release(9), Some(1), 1, 1),
        ("order/2", release(2), None, 0, 0),
        ("order/2", OneAsk::Cancel, None, 0, 0),
        ("order/2", OneAsk::Stats, None, 0, 0),
        ("order/2", OneAsk::Try { label: 20 }, Some(2), 0, 1),
        ("order/3", acquire(30), None, 0, 0),
        ("order/2", OneAsk::Cancel, Some(2), 1, 1),
    ];
    for (name, ask, ring, before, after) in rows {
        let asked = names.ask(alloc, 8, name, ask);
        assert!(&rt; asked.answers.ring == ring);
        assert!(&rt; asked.before == before && asked.after == after);
    }
    names.are_kept();
}

// A ring that was granted as often as may be is not added.
#[test]
fn a_pool_does_not_grow_past_all_grants(rt: HostRuntime) {
    let alloc = rt.alloc();
    let Ok(names) = begun(&rt, alloc, three_locks(&rt, alloc), &["deploy"]) else {
        panic!(&rt; "refused");
    };
    let full = names.add(alloc, opened(&rt, alloc, used_up()));
    assert!(&rt; full.err() == Some(NotGrown::Full));
}

#[test]
fn pools_have_sizes(rt: HostRuntime) {
    let rows = [
        (0, 1024),
        (768, 1024),
        (769, 2048),
        (1536, 2048),
        (1537, 4096),
    ];
    for (used, size) in rows {
        assert!(&rt; wanted_pool(used) == size);
    }
}
