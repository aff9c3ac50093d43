//! Worked examples, with values found by hand from the rules, or by another program that follows them.

mod draws;
mod examples;
mod readers;
mod refusals;

use ring_settings::{Action, Plan, Settings, read_settings};
use std::alloc::Global;
use std::process::Abort;

/// One ring of three machines, and one worker with a script of four actions.
const SCRIPTED: &str =
    r#"{"rings":[{"n":3,"k":3,"start":[0,2,0]}],"workers":[{"script":[["pass",0,0,5],["pass",0,0,1],["pass",0,2,4],["survey",0]]}]}"#;

/// The settings that a text is.
fn settings_of(rt: &impl Abort, alloc: Global, text: &str) -> Settings {
    match read_settings(alloc, text.as_bytes()) {
        Ok(settings) => settings,
        Err(e) => panic!(rt; "refused: {e}"),
    }
}

/// A plan has these actions.
fn is_plan(rt: &impl Abort, plan: &Plan, actions: &[Action]) {
    assert_eq!(rt; plan.actions.as_slice(), actions);
}
