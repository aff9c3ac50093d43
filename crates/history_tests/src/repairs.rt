//! The repairs of saved histories, as they are found and as lines. The lines and the numbers are those of another program.

use history_repairs::{Repair, Spread, repairs_lines, repairs_of, spread_over};
use ring_check::check_saved;
use ring_model::limits::MACHINE_LIMIT;
use saved_history::{Saved, read_saved};
use std::alloc::Global;
use std::process::Abort;

/// Faults after which the ring is settled at once, after some passes, and not before the next fault or the end; refused passes; a
/// repair that ends inside a group; and a ring without a fault.
const FAULTS: &str = "ringfarm 2\n\
    ring 0 3 3\nstart 0 0 0\n\
    c 0 1 2 0\np 0 1 0 g 1 0\nc 0 2 1 0\nc 0 1 1 0\nc 0 2 2 1\np 0 2 0 g 2 0\n\
    c 0 1 2 1\np 0 0 0 n\nc 0 0 1 0\np 0 0 0 g 3 0\nc 0 1 0 2\nend 11\n\
    ring 1 4 4\nstart 0 0 0 0\n\
    c 0 2 3 0\np 0 0 0 g 1 0\np 0 3 0 g 2 0\np 0 2 0 g 3 0\np 0 3 0 g 4 0\nc 0 1 1 0\nend 6\n\
    ring 2 4 4\nstart 0 2 1 0\n\
    m 0 1 0 2 1 0\nm 0 0 0 1 2 0\nm 0 3 0 0 3 0\nend 3\n\
    ring 3 4 4\nstart 0 0 0 0\n\
    c 0 1 2 0\nm 0 1 0 1 1 0\nm 0 0 0 0 2 0\nend 3\n\
    done 4\n";

const LINES: &str = "\
    repairs ring 0 n 3 k 3 faults 7 ended 5 least 0 median 1 greatest 1 privileged 3 bound 9\n\
    repairs ring 1 n 4 k 4 faults 2 ended 2 least 0 median 0 greatest 4 privileged 3 bound 18\n\
    repairs ring 2 n 4 k 4 faults 0 ended 0 least - median - greatest - privileged - bound 18\n\
    repairs ring 3 n 4 k 4 faults 1 ended 1 least 1 median 1 greatest 1 privileged 3 bound 18\n";

/// The repairs of the first ring: the passes of each, and the machines that its fault left privileged.
const FIRST: [(u64, u64); 5] = [(1, 3), (0, 1), (0, 1), (1, 2), (1, 3)];

fn saved_of(rt: &impl Abort, alloc: Global) -> Saved {
    let Ok(saved) = read_saved(alloc, FAULTS.as_bytes()) else {
        panic!(rt; "no saved text");
    };
    saved
}

/// The lines of a saved text, if it is legal.
fn lines_of(alloc: Global, text: &[u8]) -> Option<Vec<u8>> {
    match read_saved(alloc, text) {
        Ok(saved) => match check_saved(alloc, &saved) {
            Ok(_) => repairs_lines(alloc, &saved).ok(),
            Err(_) => None,
        },
        Err(_) => None,
    }
}

/// The repairs of the first ring, if there is one.
fn first_repairs(alloc: Global, saved: &Saved) -> Option<Vec<Repair>> {
    let ring = saved.rings.first()?;
    if ring.k == 0 || ring.n > MACHINE_LIMIT {
        return None;
    }
    repairs_of(alloc, ring).ok()
}

#[test]
fn lines_say_what_came_of_the_faults(rt: HostRuntime) {
    let Some(lines) = lines_of(rt.alloc(), FAULTS.as_bytes()) else {
        panic!(rt; "no lines");
    };
    assert!(rt; lines.as_slice() == LINES.as_bytes());
}

#[test]
fn repairs_are_found_in_their_order(rt: HostRuntime) {
    let saved = saved_of(&rt, rt.alloc());
    let Some(found) = first_repairs(rt.alloc(), &saved) else {
        panic!(rt; "no repairs");
    };
    assert!(rt; found.len() == FIRST.len());
    for (repair, (passes, privileged)) in found.iter().zip(FIRST) {
        assert!(rt; *repair == Repair { passes, privileged });
    }
}

#[test]
fn spreads_are_those_of_the_numbers_in_order(rt: HostRuntime) {
    let one = Repair {
        passes: 9,
        privileged: 2,
    };
    let other = Repair {
        passes: 4,
        privileged: 5,
    };
    let rows = [
        (vec_of(&rt, rt.alloc(), &[]), None),
        (
            vec_of(&rt, rt.alloc(), &[one]),
            Some(Spread {
                least: 9,
                median: 9,
                greatest: 9,
                privileged: 2,
            }),
        ),
        (
            vec_of(&rt, rt.alloc(), &[one, other]),
            Some(Spread {
                least: 4,
                median: 4,
                greatest: 9,
                privileged: 5,
            }),
        ),
        (
            vec_of(&rt, rt.alloc(), &[one, other, one]),
            Some(Spread {
                least: 4,
                median: 9,
                greatest: 9,
                privileged: 5,
            }),
        ),
    ];
    for (repairs, spread) in rows {
        assert!(rt; spread_over(rt.alloc(), &repairs).ok() == Some(spread));
    }
}

fn vec_of(rt: &impl Abort, alloc: Global, repairs: &[Repair]) -> Vec<Repair> {
    let Ok(all) = Vec::from_slice(alloc, repairs) else {
        panic!(rt; "no memory");
    };
    all
}
