ghost use Rattle.std.specs.Prelude.{◌≡◌, ◌≢◌, ◌≤◌, IfOk, IfErr, Ok, Err, codes, length, map, option_and_then};
ghost use Rattle.serde_json.specs.Find.{as_array, get};
ghost use Rattle.serde_json.specs.View.{view, items_view};
ghost use Rattle.ring_settings.specs.Limits.{ring_limit};
ghost use Rattle.ring_settings.specs.Seats.{field_of, scripted_seat, drawn_seat, seat_from, workers_items, injector_after, seats_member};
ghost use Rattle.ring_settings.specs.Views.{seat_data};
ghost use Rattle.ring_settings.specs.Walk.{each_from};
ghost use Rattle.ring_settings.specs.declared.actions.Role.TheVariants.{Worker};

use crate::actions::Role;
use crate::contents::SeatSetting;
use crate::faults::{Field, SettingsError};
use crate::limits::{ACTION_LIMIT, WORKER_LIMIT};
use crate::members::read_number;
use crate::scripts::read_script;
use ring_state::Params;
use serde_json::Value;
use std::alloc::Global;

/// The member of a document that has the seats of this role.
fn field_of(role: Role) -> Field
    ensures { result ≡ field_of role }
{
    match role {
        Role::Worker => Field::Workers,
        Role::Injector => Field::Injector,
    }
}

/// A seat with this script.
fn read_scripted(
    alloc: Global,
    sizes: &[Params],
    seat: usize,
    script: &Value,
) -> Result<SeatSetting, SettingsError>
    requires { length sizes.now ≤ ring_limit }
    ensures ok { IfOk result (λ s. scripted_seat sizes.now seat (view script.now)
        ≡ Ok (seat_data s)) }
    ensures err { IfErr result (λ e. e ≢ SettingsError.OutOfMemory
        → scripted_seat sizes.now seat (view script.now) ≡ Err e) }
{
    let actions = read_script(alloc, sizes, seat, script)?;
    Ok(SeatSetting::Script(actions))
}

/// A seat whose actions are drawn.
fn read_drawn(role: Role, value: &Value) -> Result<SeatSetting, SettingsError>
    ensures ok { IfOk result (λ s. drawn_seat role (view value.now) ≡ Ok (seat_data s)) }
    ensures err { IfErr result (λ e. drawn_seat role (view value.now) ≡ Err e) }
{
    let seed = read_number(value, "seed", Field::Seed)?;
    let actions = read_number(value, "actions", Field::Actions)?;
    if actions > u64::from(ACTION_LIMIT) {
        return Err(SettingsError::Limit(Field::Actions));
    }
    Ok(SeatSetting::Drawn {
        role,
        seed,
        actions: actions as u32,
    })
}

/// The seat of this number.
fn read_seat(
    alloc: Global,
    role: Role,
    sizes: &[Params],
    seat: usize,
    value: &Value,
) -> Result<SeatSetting, SettingsError>
    requires { length sizes.now ≤ ring_limit }
    ensures ok { IfOk result (λ s. seat_from role sizes.now seat (view value.now)
        ≡ Ok (seat_data s)) }
    ensures err { IfErr result (λ e. e ≢ SettingsError.OutOfMemory
        → seat_from role sizes.now seat (view value.now) ≡ Err e) }
{
    if !value.is_object() {
        return Err(SettingsError::Shape(field_of(role)));
    }
    match value.get("script") {
        Some(script) => read_scripted(alloc, sizes, seat, script),
        None => read_drawn(role, value),
    }
}

/// Each worker of an array, in order.
fn read_each_worker(
    alloc: Global,
    sizes: &[Params],
    list: &[Value],
) -> Result<Vec<SeatSetting>, SettingsError>
    requires { length sizes.now ≤ ring_limit }
    ensures ok { IfOk result (λ v. each_from (seat_from Worker sizes.now) 0 (items_view list.now)
        ≡ Ok (map seat_data v.items)) }
    ensures err { IfErr result (λ e. e ≢ SettingsError.OutOfMemory
        → each_from (seat_from Worker sizes.now) 0 (items_view list.now) ≡ Err e) }
{
    let mut workers = Vec::new(alloc);
    for (seat, value) in list.iter().enumerate() {
        let worker = read_seat(alloc, Role::Worker, sizes, seat, value)?;
        if workers.push(worker).is_err() {
            return Err(SettingsError::OutOfMemory);
        }
    }
    Ok(workers)
}

/// The member `workers` of a document: 1 to 9 seats.
#[tactic(auto, using(crate::proofs::Each::items_count_of_view))]
fn read_workers(
    alloc: Global,
    sizes: &[Params],
    document: &Value,
) -> Result<Vec<SeatSetting>, SettingsError>
    requires { length sizes.now ≤ ring_limit }
    ensures ok { IfOk result (λ v. workers_items sizes.now
        (option_and_then as_array (get (codes "workers") (view document.now)))
        ≡ Ok (map seat_data v.items)) }
    ensures err { IfErr result (λ e. e ≢ SettingsError.OutOfMemory
        → workers_items sizes.now
        (option_and_then as_array (get (codes "workers") (view document.now)))
        ≡ Err e) }
{
    let Some(list) = document.get("workers").and_then(Value::as_array) else {
        return Err(SettingsError::Shape(Field::Workers));
    };
    if list.is_empty() || list.len() > WORKER_LIMIT {
        return Err(SettingsError::Limit(Field::Workers));
    }
    let workers = read_each_worker(alloc, sizes, list.as_slice())?;
    Ok(workers)
}

/// These workers, and after them the injector of a document, if it has one.
fn with_injector(
    alloc: Global,
    sizes: &[Params],
    workers: Vec<SeatSetting>,
    document: &Value,
) -> Result<Vec<SeatSetting>, SettingsError>
    requires { length sizes.now ≤ ring_limit }
    ensures ok { IfOk result (λ v. injector_after sizes.now (map seat_data workers.items)
        (get (codes "injector") (view document.now))
        ≡ Ok (map seat_data v.items)) }
    ensures err { IfErr result (λ e. e ≢ SettingsError.OutOfMemory
        → injector_after sizes.now (map seat_data workers.items)
        (get (codes "injector") (view document.now))
        ≡ Err e) }
{
    let Some(value) = document.get("injector") else {
        return Ok(workers);
    };
    if value.is_null() {
        return Ok(workers);
    }
    let mut seats = workers;
    let injector = read_seat(alloc, Role::Injector, sizes, seats.len(), value)?;
    if seats.push(injector).is_err() {
        return Err(SettingsError::OutOfMemory);
    }
    Ok(seats)
}

/// The seats of a document: the workers in their order, and then the injector.
pub(crate) fn read_seats(
    alloc: Global,
    sizes: &[Params],
    document: &Value,
) -> Result<Vec<SeatSetting>, SettingsError>
    requires { length sizes.now ≤ ring_limit }
    ensures ok { IfOk result (λ v. seats_member sizes.now (view document.now)
        ≡ Ok (map seat_data v.items)) }
    ensures err { IfErr result (λ e. e ≢ SettingsError.OutOfMemory
        → seats_member sizes.now (view document.now) ≡ Err e) }
{
    let workers = read_workers(alloc, sizes, document)?;
    with_injector(alloc, sizes, workers, document)
}
