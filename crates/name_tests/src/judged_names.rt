//! The judge of names: a fixed lock and a pool of two rings.

use name_check::{Judge, Line, NotJudged, Refused, Ring, Wrong};
use std::alloc::Global;
use std::process::Abort;

fn ring(grants: u64) -> Ring {
    Ring { grants, held: None }
}

fn bind(ring: u32, before: u64, floor: u64, name: &str) -> Line<'_> {
    Line::Bind {
        ring,
        before,
        floor,
        name,
    }
}

/// The judge of a folder with these fixed locks, whose first file begins with these rings.
fn judged(
    rt: &impl Abort,
    alloc: Global,
    fixed: &[&str],
    rings: &[Ring],
) -> Result<Judge, NotJudged> {
    let mut names = Vec::new(alloc);
    for name in fixed {
        let Ok(name) = String::from_str(alloc, *name) else {
            panic!(rt; "there is memory");
        };
        assert!(rt; names.push(name).is_ok());
    }
    Judge::begin(alloc, &names, rings)
}

/// Each line is accepted, or refused for this.
fn are_judged(
    rt: &impl Abort,
    alloc: Global,
    judge: &mut Judge,
    rows: &[(Line<'_>, Option<Wrong>)],
) {
    for row in rows {
        let wanted = match row.1 {
            Some(wrong) => Some(Refused::Wrong(wrong)),
            None => None,
        };
        assert!(rt; judge.line(alloc, row.0).err() == wanted);
    }
}

// What no files have whose rings are a chain: a grant of a ring that is not there, and fewer rings in the next file.
#[test]
fn lines_of_no_chain_are_refused(rt: HostRuntime) {
    let alloc = rt.alloc();
    let fresh = ring(0);
    let Ok(mut judge) = judged(&rt, alloc, &["deploy"], &[fresh, fresh, fresh]) else {
        panic!(&rt; "refused");
    };
    let rows = [(Line::Top(0), None), (Line::Grant(3), Some(Wrong::NoRing))];
    are_judged(&rt, alloc, &mut judge, &rows);
    let fewer = judge.next(2);
    assert!(&rt; fewer.err() == Some(Refused::Wrong(Wrong::FewerRings)));
}

#[test]
fn folders_are_not_judged(rt: HostRuntime) {
    let alloc = rt.alloc();
    let fresh = ring(0);
    let most = ring(u64::MAX);
    let few = judged(&rt, alloc, &["a", "b"], &[fresh]);
    assert!(&rt; few.err() == Some(NotJudged::Rings));
    let twice = judged(&rt, alloc, &["a", "a"], &[fresh, fresh]);
    assert!(&rt; twice.err() == Some(NotJudged::Twice));
    let full = judged(&rt, alloc, &["a"], &[most, ring(1)]);
    assert!(&rt; full.err() == Some(NotJudged::Full));
    let Ok(mut judge) = judged(&rt, alloc, &["a"], &[most]) else {
        panic!(&rt; "refused");
    };
    let rows = [
        (Line::Top(u64::MAX), None),
        (Line::Grant(0), Some(Wrong::Full)),
        (Line::Repair(0), Some(Wrong::Full)),
    ];
    are_judged(&rt, alloc, &mut judge, &rows);
}
