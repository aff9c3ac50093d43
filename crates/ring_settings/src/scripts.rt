ghost use Rattle.std.specs.Prelude.{◌≡◌, ◌≢◌, ◌<◌, ◌≤◌, IfOk, IfErr, Ok, Err, length, slice_index_or};
ghost use Rattle.ring_settings.specs.Actions.{size_at};
ghost use Rattle.ring_settings.specs.Scripts.{short_action, machine_action, long_action, action_of_items, action_from, script_entry, script_items};
ghost use Rattle.ring_settings.specs.Walk.{each_from};
ghost use Rattle.serde_json.specs.Find.{as_array};
ghost use Rattle.serde_json.specs.View.{view, items_view};
ghost use Rattle.ring_settings.specs.Limits.{ring_limit};

use crate::actions::Action;
use crate::faults::{Field, SettingsError};
use crate::limits::ACTION_LIMIT;
use ring_state::Params;
use serde_json::Value;
use std::alloc::Global;

/// The action `["survey", ring]`.
fn short_action(sizes: &[Params], name: &str, ring: u64) -> Option<Action>
    requires { length sizes.now ≤ ring_limit }
    ensures { result ≡ short_action sizes.now name.now ring }
{
    if name == "survey" && ring < sizes.len() as u64 {
        Some(Action::Survey { ring: ring as u32 })
    } else {
        None
    }
}

/// The action `["pass", ring, machine, order]` or `["corrupt", ring, machine, value]`.
fn long_action(sizes: &[Params], name: &str, ring: u64, machine: u64, last: u64) -> Option<Action>
    requires { length sizes.now ≤ ring_limit }
    ensures { result ≡ long_action sizes.now name.now ring machine last }
{
    if ring >= sizes.len() as u64 {
        return None;
    }
    let size = &sizes[ring as usize];
    if machine >= u64::from(size.n()) {
        return None;
    }
    let ring = ring as u32;
    let machine = machine as u32;
    if name == "pass" {
        return Some(Action::Pass {
            ring,
            machine,
            order: last,
        });
    }
    if name == "corrupt" && last < u64::from(size.k()) {
        return Some(Action::Corrupt {
            ring,
            machine,
            value: last as u32,
        });
    }
    None
}

/// The action that these entries of an array are.
#[tactic(auto, using(crate::proofs::ScriptLaws::action_of_items_none))]
fn action_of_entries(sizes: &[Params], entries: &[Value]) -> Option<Action>
    requires { length sizes.now ≤ ring_limit }
    ensures { result ≡ action_of_items sizes.now (items_view entries.now) }
{
    match entries {
        [kind, ring] => short_action(sizes, kind.as_str()?, ring.as_u64()?),
        [kind, ring, machine, last] => {
            long_action(
                sizes,
                kind.as_str()?,
                ring.as_u64()?,
                machine.as_u64()?,
                last.as_u64()?,
            )
        }
        _ => None,
    }
}

/// The action that a JSON value is, for rings of these sizes.
fn read_action(sizes: &[Params], value: &Value) -> Option<Action>
    requires { length sizes.now ≤ ring_limit }
    ensures { result ≡ action_from sizes.now (view value.now) }
{
    let list = value.as_array()?;
    action_of_entries(sizes, list.as_slice())
}

/// The actions of the script of the seat of this number.
fn read_actions(
    alloc: Global,
    sizes: &[Params],
    seat: usize,
    list: &[Value],
) -> Result<Vec<Action>, SettingsError>
    requires { length sizes.now ≤ ring_limit }
    ensures ok { IfOk result (λ v. each_from (script_entry sizes.now seat) 0 (items_view list.now)
        ≡ Ok v.items) }
    ensures err { IfErr result (λ e. e ≢ SettingsError.OutOfMemory
        → each_from (script_entry sizes.now seat) 0 (items_view list.now) ≡ Err e) }
{
    let mut actions = Vec::new(alloc);
    for (place, value) in list.iter().enumerate() {
        let Some(action) = read_action(sizes, value) else {
            return Err(SettingsError::Script(seat, place));
        };
        if actions.push(action).is_err() {
            return Err(SettingsError::OutOfMemory);
        }
    }
    Ok(actions)
}

/// The script of the seat of this number: at most `ACTION_LIMIT` actions.
#[tactic(auto, using(crate::proofs::Each::items_count_of_view))]
pub(crate) fn read_script(
    alloc: Global,
    sizes: &[Params],
    seat: usize,
    script: &Value,
) -> Result<Vec<Action>, SettingsError>
    requires { length sizes.now ≤ ring_limit }
    ensures ok { IfOk result (λ v. script_items sizes.now seat (as_array (view script.now))
        ≡ Ok v.items) }
    ensures err { IfErr result (λ e. e ≢ SettingsError.OutOfMemory
        → script_items sizes.now seat (as_array (view script.now)) ≡ Err e) }
{
    let Some(list) = script.as_array() else {
        return Err(SettingsError::Shape(Field::Script));
    };
    if list.len() > ACTION_LIMIT as usize {
        return Err(SettingsError::Limit(Field::Script));
    }
    read_actions(alloc, sizes, seat, list.as_slice())
}
