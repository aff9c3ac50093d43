//! Farms in turns: their outcomes are those of the settings and the seed. The expected ones are those of `models/in_turn.py`.

use crate::farm::settings_of;
use farm_in_turn::run_in_turn;
use ring_text::write_outcome;
use std::alloc::Global;
use std::process::Abort;

/// Two rings, two workers and an injector.
const TWO: &str =
    r#"{"rings":[{"n":3,"k":3,"start":[0,2,0]},{"n":2,"k":3,"start":[1,1]}],"workers":[{"script":[["pass",0,0,5],["pass",1,0,7],["pass",0,0,1],["survey",0]]},{"script":[["pass",0,2,4],["survey",0],["pass",1,1,2],["pass",0,1,6]]}],"injector":{"script":[["corrupt",0,1,1],["corrupt",1,0,2]]}}"#;

/// What is saved of them with the seed 0, and with the seed 2.
const SAVED: [(u64, &str); 2] = [
    (
        0,
        "ringfarm 2\nring 0 3 3\nstart 0 2 0\np 1 2 4 g 1 4\np 1 1 6 g 2 10\np 0 0 5 n\np 0 0 1 n\nc 2 1 1 0\nend 5\ns 0 4 1 2 2 0\ns 1 1 1 1 1 0\nring 1 2 3\nstart 1 1\nc 2 0 2 1\np 1 1 2 g 1 2\np 0 0 7 g 2 9\nend 3\ndone 2\n",
    ),
    (
        2,
        "ringfarm 2\nring 0 3 3\nstart 0 2 0\nc 2 1 1 2\np 0 0 5 g 1 5\np 1 2 4 g 2 9\np 1 1 6 n\np 0 0 1 g 3 10\nend 5\ns 0 5 1 1 3 0\ns 1 3 1 0 2 0\nring 1 2 3\nstart 1 1\np 0 0 7 g 1 7\np 1 1 2 g 2 9\nc 2 0 2 2\nend 3\ndone 2\n",
    ),
];

/// The saved text of the settings in turns.
fn saved(rt: &impl Abort, alloc: Global, text: &str, seed: u64) -> Vec<u8> {
    let settings = settings_of(rt, alloc, text);
    let mut saved = Vec::new(alloc);
    match run_in_turn(alloc, &settings, seed) {
        Ok(outcome) => {
            if write_outcome(&outcome, &mut saved).is_err() {
                panic!(rt; "not written")
            }
        }
        Err(fault) => panic!(rt; "refused: {fault}"),
    }
    saved
}

#[test]
fn a_run_is_that_of_its_seed(rt: HostRuntime) {
    let alloc = rt.alloc();
    for (seed, text) in SAVED {
        assert_eq!(rt;
            saved(&rt, alloc, TWO, seed).as_slice(),
            text.as_bytes(),
            "of the seed {seed}"
        );
    }
}
