//! The outcomes of a farm.

use super::gates::{Crossed, waiting};
use super::{CROSSING, SCRIPTED, array_of, outcome, ran, settings_of};
use crate::events::{granted, refused, told};
use ring_book::{Book, Till};
use ring_farm::{FarmError, Open, Outcome, run_farm, run_rings};
use ring_model::Survey;
use ring_settings::{Action, Plan, SettingsError, plans, read_settings};
use ring_shared::Entry;
use std::alloc::{AllocError, Global};
use std::process::Abort;
use std::sync::Wait;
use std::thread::Threads;

/// Two rings, four drawn workers and an injector.
const DRAWN: &str =
    r#"{"rings":[{"n":3,"k":3,"start":[0,0,0]},{"n":8,"k":16,"start":[0,0,0,0,0,0,0,0]}],"workers":[{"seed":1,"actions":500},{"seed":2,"actions":500},{"seed":3,"actions":500},{"seed":4,"actions":500}],"injector":{"seed":5,"actions":50}}"#;

/// A worker with one pass, and an injector that corrupts a million times.
const CORRUPTED: &str =
    r#"{"rings":[{"n":2,"k":2,"start":[0,0]}],"workers":[{"script":[["pass",0,0,1]]}],"injector":{"seed":5,"actions":1000000}}"#;

/// The outcome is that of the script.
fn follows_the_script(rt: &impl Abort, outcome: &Outcome) {
    assert_eq!(rt; outcome.rings.len(), 1);
    let ring = &outcome.rings[0];
    let events = [
        granted(0, 0, 5, 1, 5),
        refused(0, 0, 1),
        granted(0, 2, 4, 2, 9),
    ];
    assert_eq!(rt; ring.book.history(), events.as_slice());
    assert_eq!(rt; ring.logs.len(), 1);
    let survey = Survey {
        position: 3,
        privileged: 1,
        first: 1,
        calm: 2,
        rest: 0,
    };
    let entries = [
        told(0, events[0]),
        told(1, events[1]),
        told(2, events[2]),
        Entry::Survey(survey),
    ];
    assert_eq!(rt; ring.logs[0].entries.as_slice(), entries.as_slice());
}

#[test]
fn a_script_is_followed_at_each_run(rt: HostRuntime) {
    let alloc = rt.alloc();
    let settings = settings_of(&rt, alloc, SCRIPTED);
    for _ in 0..2 {
        let ran = run_farm(&rt, alloc, &settings, &Open);
        follows_the_script(&rt, &outcome(&rt, ran, 1));
    }
}

// Passes too where any one request for memory is refused, as `trials/refused_memory.sh` has it.
#[test]
fn lack_of_memory_is_told_as_such(rt: HostRuntime) {
    let alloc = rt.alloc();
    let settings = match read_settings(alloc, SCRIPTED.as_bytes()) {
        Ok(settings) => settings,
        Err(error) => {
            assert_eq!(rt; error, SettingsError::OutOfMemory);
            return;
        }
    };
    match run_farm(&rt, alloc, &settings, &Open) {
        Ok(outcome) => follows_the_script(&rt, &outcome),
        Err(fault) => assert!(rt; matches!(fault, FarmError::OutOfMemory | FarmError::Spawn)),
    }
}

#[test]
fn arrivals_wait_for_each_other(rt: HostRuntime) {
    let alloc = rt.alloc();
    let gate: Crossed = waiting();
    let outcome = outcome(&rt, ran(&rt, alloc, CROSSING, &gate), 1);
    let events = [refused(1, 1, 7), granted(0, 0, 7, 1, 7)];
    assert_eq!(rt; outcome.rings[0].book.history(), events.as_slice());
}

/// A farm of one ring makes this many events.
fn makes<W: Threads + Wait + Abort + Sync>(rt: &W, alloc: Global, text: &str, events: usize) {
    let outcome = outcome(rt, ran(rt, alloc, text, &Open), 1);
    assert_eq!(rt; outcome.rings[0].book.history().len(), events);
}

#[test]
fn a_history_goes_past_a_million_events(rt: HostRuntime) {
    makes(&rt, rt.alloc(), CORRUPTED, 1_000_001);
}

/// One of sixteen rings.
const EIGHT: &str = r#"{"n":8,"k":16,"start":[0,0,0,0,0,0,0,0]}"#;

/// Nine drawn workers and an injector.
const SEATS: &str =
    r#""workers":[{"seed":1,"actions":2000},{"seed":2,"actions":2000},{"seed":3,"actions":2000},{"seed":4,"actions":2000},{"seed":5,"actions":2000},{"seed":6,"actions":2000},{"seed":7,"actions":2000},{"seed":8,"actions":2000},{"seed":9,"actions":2000}],"injector":{"seed":10,"actions":2000}"#;

/// A script that passes once at each of this many rings: the order is one more than the ring's number.
fn one_pass_each(alloc: Global, rings: u32) -> Result<String, AllocError> {
    let mut text = String::new(alloc);
    for ring in 0..rings {
        let comma = if ring > 0 { "," } else { "" };
        let order = u64::from(ring) + 1;
        let pass = format!(in alloc; "{comma}[\"pass\",{ring},0,{order}]")?;
        text.push_str(pass.as_str())?;
    }
    Ok(text)
}

#[test]
fn each_of_sixteen_rings_is_run(rt: HostRuntime) -> Result<(), std::test::Fail> {
    let alloc = rt.alloc();
    let rings = array_of(alloc, EIGHT, 16)?;
    let script = one_pass_each(alloc, 16)?;
    let text = format!(in alloc; "{{\"rings\":{rings},\"workers\":[{{\"script\":[{script}]}}]}}")?;
    let settings = settings_of(&rt, alloc, text.as_str());
    let results = run_rings(&rt, alloc, &settings, &Open)?;
    assert_eq!(rt; results.len(), 16);
    for (ring, result) in results.iter().enumerate() {
        let order = (ring as u64).saturating_add(1);
        match result {
            Ok(outcome) => {
                let events = [granted(0, 0, order, 1, order)];
                assert_eq!(rt; outcome.book.history(), events.as_slice(), "ring {ring}");
                assert_eq!(rt; outcome.logs.len(), 1, "ring {ring}");
            }
            Err(fault) => panic!(rt; "ring {ring}: {fault}"),
        }
    }
    Ok(())
}

/// Settles a book that was handed out, by at most as many passes as its survey says.
fn settles(rt: &impl Abort, book: Book<Till>) {
    let mut book = book;
    let rest = book.survey().rest;
    match book.settle(0) {
        Ok(passes) => assert!(rt; passes <= rest),
        Err(fault) => panic!(rt; "{fault}"),
    }
    let survey = book.survey();
    assert_eq!(rt; (survey.privileged, survey.rest), (1, 0));
}

#[test]
fn books_that_are_handed_out_settle(rt: HostRuntime) -> Result<(), std::test::Fail> {
    let alloc = rt.alloc();
    let rings = array_of(alloc, EIGHT, 16)?;
    let text = format!(in alloc; "{{\"rings\":{rings},{SEATS}}}")?;
    let Outcome { rings } = outcome(&rt, ran(&rt, alloc, text.as_str(), &Open), 16);
    for ring in rings {
        settles(&rt, ring.book);
    }
    Ok(())
}

/// The calls of a log, and its surveys.
fn count(log: &[Entry]) -> (u64, u64) {
    let mut calls = 0u64;
    let mut surveys = 0u64;
    for entry in log {
        match entry {
            Entry::Receipt(_) => calls = calls.saturating_add(1),
            Entry::Survey(_) => surveys = surveys.saturating_add(1),
        }
    }
    (calls, surveys)
}

/// The work of a seat on all rings: its calls and its surveys by its logs, and its calls by the books.
fn made_by(rt: &impl Abort, outcome: &Outcome, seat: u32) -> (u64, u64, u64) {
    assert!(rt; seat <= 9);
    let mut made = (0u64, 0u64, 0u64);
    for ring in &outcome.rings {
        assert_eq!(rt; ring.logs.len(), 5);
        assert!(rt; (seat as usize) < ring.logs.len());
        let (calls, surveys) = count(ring.logs[seat as usize].entries.as_slice());
        let booked = ring.book.calls_of(seat);
        made = (
            made.0.saturating_add(calls),
            made.1.saturating_add(surveys),
            made.2.saturating_add(booked),
        );
    }
    made
}

/// How many calls a plan has, and how many surveys.
fn planned(plan: &Plan) -> (u64, u64) {
    let all = plan.actions.len() as u64;
    let surveys = plan
        .actions
        .iter()
        .filter(|action| matches!(action, Action::Survey { ring: _ }))
        .count() as u64;
    (all.saturating_sub(surveys), surveys)
}

#[test]
fn drawn_plans_are_made_whole(rt: HostRuntime) -> Result<(), std::test::Fail> {
    let alloc = rt.alloc();
    let settings = settings_of(&rt, alloc, DRAWN);
    let plans = plans(alloc, &settings)?;
    let outcome = outcome(&rt, run_farm(&rt, alloc, &settings, &Open), 2);
    assert_eq!(rt; (outcome.rings.len(), plans.len()), (2, 5));
    for (seat, plan) in plans.iter().enumerate() {
        let (calls, surveys) = planned(plan);
        assert!(rt; seat <= 9);
        assert_eq!(rt;
            made_by(&rt, &outcome, seat as u32),
            (calls, surveys, calls)
        );
    }
    Ok(())
}
