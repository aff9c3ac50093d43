ghost use Rattle.std.specs.Prelude.{◌≡◌, ◌≢◌, IfOk, IfErr, Ok, Err, Some, map};
ghost use Rattle.serde_json.specs.View.{view, items_view};
ghost use Rattle.ring_settings.specs.Rings.{start_entry, start_values, start_member, size_from, first_over, values_fault, ring_from, rings_member};
ghost use Rattle.ring_settings.specs.Views.{ring_data};
ghost use Rattle.ring_settings.specs.Walk.{each_from};

use crate::contents::RingSetting;
use crate::faults::{Field, RingCause, SettingsError};
use crate::limits::RING_LIMIT;
use crate::members::read_u32;
use ring_state::{Params, ParamsError};
use serde_json::Value;
use std::alloc::Global;

/// The whole numbers of `start`.
fn read_numbers(alloc: Global, list: &[Value]) -> Result<Vec<u64>, SettingsError>
    ensures ok { IfOk result (λ v. each_from start_entry 0 (items_view list.now) ≡ Ok v.items) }
    ensures err { IfErr result (λ e. e ≢ SettingsError.OutOfMemory
        → each_from start_entry 0 (items_view list.now) ≡ Err e) }
{
    let mut numbers = Vec::new(alloc);
    for entry in list {
        let Some(number) = entry.as_u64() else {
            return Err(SettingsError::Shape(Field::Start));
        };
        if numbers.push(number).is_err() {
            return Err(SettingsError::OutOfMemory);
        }
    }
    Ok(numbers)
}

/// The same numbers as values of a ring, which are below 2 to the power 32.
fn read_values(alloc: Global, numbers: &[u64]) -> Result<Vec<u32>, SettingsError>
    ensures ok { IfOk result (λ v. start_values numbers.now ≡ Ok v.items) }
    ensures err { IfErr result (λ e. e ≢ SettingsError.OutOfMemory
        → start_values numbers.now ≡ Err e) }
{
    let mut values = Vec::new(alloc);
    for number in numbers {
        if *number > u64::from(u32::MAX) {
            return Err(SettingsError::Limit(Field::Start));
        }
        if values.push(*number as u32).is_err() {
            return Err(SettingsError::OutOfMemory);
        }
    }
    Ok(values)
}

/// The member `start` of a ring.
fn read_start(alloc: Global, ring: &Value) -> Result<Vec<u32>, SettingsError>
    ensures ok { IfOk result (λ v. start_member (view ring.now) ≡ Ok v.items) }
    ensures err { IfErr result (λ e. e ≢ SettingsError.OutOfMemory
        → start_member (view ring.now) ≡ Err e) }
{
    let Some(list) = ring.get("start").and_then(Value::as_array) else {
        return Err(SettingsError::Shape(Field::Start));
    };
    let numbers = read_numbers(alloc, list.as_slice())?;
    let values = read_values(alloc, numbers.as_slice())?;
    Ok(values)
}

/// The size of the ring at this place.
fn read_size(place: usize, n: u32, k: u32) -> Result<Params, SettingsError>
    ensures { result ≡ size_from place n k }
{
    match Params::new(n, k) {
        Ok(params) => Ok(params),
        Err(ParamsError::TooFew) => Err(SettingsError::Ring(place, RingCause::TooFew)),
        Err(ParamsError::TooMany) => Err(SettingsError::Ring(place, RingCause::TooMany)),
        Err(ParamsError::FewValues) => Err(SettingsError::Ring(place, RingCause::FewValues)),
        Err(ParamsError::ManyValues) => Err(SettingsError::Ring(place, RingCause::ManyValues)),
    }
}

/// The place of the first value that is not below k.
fn first_over(k: u32, values: &[u32]) -> Option<usize>
    ensures { result ≡ first_over k 0 values.now }
{
    for (i, v) in values.iter().enumerate() {
        if *v >= k {
            return Some(i);
        }
    }
    None
}

/// The fault of the start values of a ring, if they have one.
fn values_fault(params: Params, values: &[u32]) -> Option<RingCause>
    ensures { result ≡ values_fault params values.now }
{
    if values.len() != params.n() as usize {
        return Some(RingCause::Length);
    }
    first_over(params.k(), values).map(RingCause::Value)
}

/// The ring at this place.
fn read_ring(alloc: Global, place: usize, value: &Value) -> Result<RingSetting, SettingsError>
    ensures ok { IfOk result (λ r. ring_from place (view value.now) ≡ Ok (ring_data r)) }
    ensures err { IfErr result (λ e. e ≢ SettingsError.OutOfMemory
        → ring_from place (view value.now) ≡ Err e) }
{
    if !value.is_object() {
        return Err(SettingsError::Shape(Field::Rings));
    }
    let n = read_u32(value, "n", Field::N)?;
    let k = read_u32(value, "k", Field::K)?;
    let start = read_start(alloc, value)?;
    let params = read_size(place, n, k)?;
    if let Some(fault) = values_fault(params, start.as_slice()) {
        return Err(SettingsError::Ring(place, fault));
    }
    Ok(RingSetting { params, start })
}

/// Each ring of an array, in order.
fn read_each_ring(alloc: Global, list: &[Value]) -> Result<Vec<RingSetting>, SettingsError>
    ensures ok { IfOk result (λ v. each_from ring_from 0 (items_view list.now)
        ≡ Ok (map ring_data v.items)) }
    ensures err { IfErr result (λ e. e ≢ SettingsError.OutOfMemory
        → each_from ring_from 0 (items_view list.now) ≡ Err e) }
{
    let mut rings = Vec::new(alloc);
    for (place, value) in list.iter().enumerate() {
        let ring = read_ring(alloc, place, value)?;
        if rings.push(ring).is_err() {
            return Err(SettingsError::OutOfMemory);
        }
    }
    Ok(rings)
}

/// The member `rings` of a document: 1 to `RING_LIMIT` rings.
#[tactic(auto, using(crate::proofs::Each::items_count_of_view))]
pub(crate) fn read_rings(alloc: Global, document: &Value) -> Result<Vec<RingSetting>, SettingsError>
    ensures ok { IfOk result (λ v. rings_member (view document.now) ≡ Ok (map ring_data v.items)) }
    ensures err { IfErr result (λ e. e ≢ SettingsError.OutOfMemory
        → rings_member (view document.now) ≡ Err e) }
{
    let Some(list) = document.get("rings").and_then(Value::as_array) else {
        return Err(SettingsError::Shape(Field::Rings));
    };
    if list.is_empty() || list.len() > RING_LIMIT {
        return Err(SettingsError::Limit(Field::Rings));
    }
    let rings = read_each_ring(alloc, list.as_slice())?;
    Ok(rings)
}
