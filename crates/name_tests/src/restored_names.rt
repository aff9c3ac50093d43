//! Names that do not come back: a fixed lock and a pool of two rings.

use crate::dialogues::{text, texts, three_locks};
use lock_names::{Binding, Names, NotRestored, TOP_LIMIT};
use std::alloc::Global;
use std::process::Abort;

fn bind(rt: &impl Abort, alloc: Global, name: &str, before: u64, floor: u64) -> Binding {
    Binding {
        name: text(rt, alloc, name),
        before,
        floor,
    }
}

/// Why three locks, of which the first one is fixed and the second one is held, are not restored so.
fn not_restored(
    rt: &impl Abort,
    alloc: Global,
    pool: &[Option<(&str, u64, u64)>],
    top: u64,
) -> Option<NotRestored> {
    let mut locks = three_locks(rt, alloc);
    locks.acquire(7, 1, 10);
    let mut all = Vec::new(alloc);
    for one in pool {
        let one = match one {
            Some((name, before, floor)) => Some(bind(rt, alloc, *name, *before, *floor)),
            None => None,
        };
        assert!(rt; all.push(one).is_ok());
    }
    let fixed = texts(rt, alloc, &["a"]);
    Names::restore(alloc, locks, &fixed, &all, top).err()
}

#[test]
fn what_is_wrong_does_not_come_back(rt: HostRuntime) {
    let alloc = rt.alloc();
    let held = [Some(("b", 0, 0)), None];
    assert!(&rt; not_restored(&rt, alloc, &held, 1).is_none());
    assert!(&rt; not_restored(&rt, alloc, &held[..1], 1) == Some(NotRestored::Locks));
    let rows = [
        (held, TOP_LIMIT, NotRestored::Full),
        (held, 0, NotRestored::Top),
        ([Some(("a", 0, 0)), None], 1, NotRestored::Twice),
        ([None, None], 1, NotRestored::Unnamed),
        ([Some(("b", 0, 0)), Some(("c", 0, 0))], 1, NotRestored::Free),
        ([Some(("b", 2, 0)), None], 1, NotRestored::Before),
        ([Some(("b", 0, 1)), None], 1, NotRestored::Token),
        ([Some(("b", 1, 0)), None], 1, NotRestored::Hold),
    ];
    for (pool, top, why) in rows {
        assert!(&rt; not_restored(&rt, alloc, &pool, top) == Some(why));
    }
}
