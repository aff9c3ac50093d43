//! The text of settings.

ghost use Rattle.std.specs.Prelude.{◌≡◌, IfOk, Ok, codes, map};
ghost use Rattle.ring_settings.specs.Seats.{settings_of};
ghost use Rattle.saved_history.specs.Content.{block_of};
ghost use Rattle.serde_json.specs.Data.{array, object, member, no_members};
ghost use Rattle.serde_json.specs.View.{view, items_view};
ghost use Rattle.setup_commands.specs.Rings.{blocks_from};
ghost use Rattle.setup_commands.specs.Settings.{number_json, ring_json, ring_in, seat_json, injector_json, workers_json, document_of, settings_text, settings_given, AreSettingsWords};

use saved_history::SavedRing;
use serde_json::{Value, json};
use std::alloc::{AllocError, Global};
use tool_requests::SettingsWords;

/// The numbers.
fn number_values(alloc: Global, numbers: &[u32]) -> Result<Vec<Value>, AllocError>
    ensures { IfOk result (λ values. map view values.items ≡ map number_json numbers.now) }
{
    let mut values = Vec::with_capacity(alloc, numbers.len())?;
    for number in numbers {
        values.push(Value::from(*number))?;
    }
    Ok(values)
}

/// A ring.
fn ring_value(alloc: Global, ring: &SavedRing) -> Result<Value, AllocError>
    ensures { IfOk result (λ value. view value ≡ ring_json (ring_in (block_of ring.now))) }
{
    let start = number_values(alloc, ring.start.as_slice())?;
    json!(in alloc; {"n": ring.n, "k": ring.k, "start": start})
}

/// The rings.
fn ring_values(alloc: Global, rings: &[SavedRing]) -> Result<Vec<Value>, AllocError>
    ensures { IfOk result (λ values.
        map view values.items ≡ map (λ ring. ring_json (ring_in (block_of ring))) rings.now) }
{
    let mut values = Vec::with_capacity(alloc, rings.len())?;
    for ring in rings {
        let value = ring_value(alloc, ring)?;
        values.push(value)?;
    }
    Ok(values)
}

/// A seat whose actions are drawn.
fn seat_value(alloc: Global, seed: u64, actions: u32) -> Result<Value, AllocError>
    ensures { IfOk result (λ value. view value ≡ seat_json seed actions) }
{
    json!(in alloc; {"seed": seed, "actions": actions})
}

/// The injector, or `null` for none.
fn injector_value(alloc: Global, seed: u64, actions: Option<u32>) -> Result<Value, AllocError>
    ensures { IfOk result (λ value. view value ≡ injector_json seed actions) }
{
    match actions {
        Some(actions) => seat_value(alloc, seed, actions),
        None => Ok(Value::Null),
    }
}

/// The workers.
fn worker_values(alloc: Global, words: &SettingsWords) -> Result<Vec<Value>, AllocError>
    ensures { IfOk result (λ values. map view values.items ≡ workers_json words.now) }
{
    let mut values = Vec::with_capacity(alloc, words.workers as usize)?;
    for worker in 0..words.workers {
        let value = seat_value(alloc, words.seed, words.actions)?;
        values.push(value)?;
    }
    Ok(values)
}

/// The document with these parts.
fn assembled(
    alloc: Global,
    injector: Value,
    rings: Vec<Value>,
    workers: Vec<Value>,
) -> Result<Value, AllocError>
    ensures { IfOk result (λ value. view value ≡ object (member (codes "injector") (view injector)
        (member (codes "rings") (array (items_view rings.items))
        (member (codes "workers") (array (items_view workers.items)) no_members)))) }
{
    json!(in alloc; {"injector": injector, "rings": rings, "workers": workers})
}

/// The document of the settings that the words give, whose rings are these.
fn document(alloc: Global, words: &SettingsWords, rings: &[SavedRing]) -> Result<Value, AllocError>
    requires { map block_of rings.now ≡ blocks_from 0 (settings_given words.now).rings }
    ensures { IfOk result (λ value. view value ≡ document_of words.now) }
{
    let injector = injector_value(alloc, words.seed, words.injector)?;
    let rings = ring_values(alloc, rings)?;
    let workers = worker_values(alloc, words)?;
    assembled(alloc, injector, rings, workers)
}

/// The text of the settings that the words give, whose rings are these.
///
/// # Errors
///
/// Only if memory runs out.
pub(crate) fn text_of(
    alloc: Global,
    words: &SettingsWords,
    rings: &[SavedRing],
) -> Result<Vec<u8>, AllocError>
    requires words { AreSettingsWords words.now }
    requires rings { map block_of rings.now ≡ blocks_from 0 (settings_given words.now).rings }
    ensures is { IfOk result (λ text. text.items ≡ settings_text words.now) }
    ensures read { IfOk result (λ text.
        settings_of (settings_text words.now) ≡ Ok (settings_given words.now)) }
{
    let document = document(alloc, words, rings)?;
    document.to_vec(alloc)
}
