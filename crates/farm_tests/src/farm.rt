//! Farms: their outcomes, how their threads run, and their refusals.

mod arrivals;
mod gates;
mod outcomes;
mod refusals;

ghost use Rattle.std.specs.Prelude.{◌≡◌, vec_len};

use ring_farm::{FarmError, Gate, Outcome, run_farm};
use ring_settings::{Settings, read_settings};
use std::alloc::{AllocError, Global};
use std::process::Abort;
use std::sync::Wait;
use std::thread::Threads;

/// One ring of three machines, and one worker with a script of four actions.
const SCRIPTED: &str =
    r#"{"rings":[{"n":3,"k":3,"start":[0,2,0]}],"workers":[{"script":[["pass",0,0,5],["pass",0,0,1],["pass",0,2,4],["survey",0]]}]}"#;

/// One ring of two machines, and ten seats with nothing to do.
const IDLE: &str =
    r#"{"rings":[{"n":2,"k":2,"start":[0,0]}],"workers":[{"script":[]},{"script":[]},{"script":[]},{"script":[]},{"script":[]},{"script":[]},{"script":[]},{"script":[]},{"script":[]}],"injector":{"script":[]}}"#;

/// One ring of two machines, and one pass by each.
const CROSSING: &str =
    r#"{"rings":[{"n":2,"k":2,"start":[0,0]}],"workers":[{"script":[["pass",0,0,7]]},{"script":[["pass",0,1,7]]}]}"#;

/// The result of a farm with settings under a gate.
fn ran<G: Gate + Sync, W: Threads + Wait + Abort + Sync>(
    rt: &W,
    alloc: Global,
    text: &str,
    gate: &G,
) -> Result<Outcome, FarmError> {
    run_farm(rt, alloc, &settings_of(rt, alloc, text), gate)
}

/// The outcome, of this many rings.
fn outcome(rt: &impl Abort, ran: Result<Outcome, FarmError>, rings: usize) -> Outcome
    ensures { vec_len result.rings ≡ rings }
{
    match ran {
        Ok(outcome) => {
            assert_eq!(rt; outcome.rings.len(), rings);
            outcome
        }
        Err(fault) => panic!(rt; "refused: {fault}"),
    }
}

/// The refusal of a run.
fn refusal(ran: Result<Outcome, FarmError>) -> Option<FarmError> {
    match ran {
        Ok(_) => None,
        Err(fault) => Some(fault),
    }
}

/// The settings that a text is.
pub(crate) fn settings_of(rt: &impl Abort, alloc: Global, text: &str) -> Settings {
    match read_settings(alloc, text.as_bytes()) {
        Ok(settings) => settings,
        Err(e) => panic!(rt; "refused: {e}"),
    }
}

/// A list of as many copies of an entry.
fn array_of(alloc: Global, entry: &str, count: usize) -> Result<String, AllocError> {
    let mut text = String::new(alloc);
    text.push_str("[")?;
    for i in 0..count {
        if i > 0 {
            text.push_str(",")?;
        }
        text.push_str(entry)?;
    }
    text.push_str("]")?;
    Ok(text)
}
