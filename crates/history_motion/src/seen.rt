//! In which columns a machine is privileged, and in which it was hit by a corruption just before.

ghost use Rattle.std.specs.Prelude.{◌≡◌, ◌+◌, ◌<◌, ◌≤◌, ◌^◌, IfOk, OnOk, length, take};
ghost use Rattle.ring_model.specs.Groups.{left_after};
ghost use Rattle.ring_model.specs.Limits.{machine_limit};
ghost use Rattle.saved_history.specs.Content.{block_of};
ghost use Rattle.ring_check.specs.Legal.{history};
ghost use Rattle.history_picture.specs.Picture.{privileged_in};
ghost use Rattle.history_motion.specs.Motion.{corrupts, hit_in, flags};
ghost use Rattle.history_motion.specs.Walks.{IsWalk, AreStates, IsSeen, AreSeen};

use history_steps::{gauge_of, step_on};
use ring_check::{Gauge, left_after};
use ring_model::plain::is_privileged;
use saved_history::{SavedEvent, SavedRing};
use std::alloc::{AllocError, Global};

/// What is seen of a machine, column by column.
#[derive(Drop)]
pub(crate) struct Seen {
    /// Whether it is privileged.
    pub(crate) privileged: Vec<bool>,
    /// Whether the event before the column is a corruption of it.
    pub(crate) hit: Vec<bool>,
}

/// The values that are shown in a column.
#[derive(Drop)]
struct Column {
    values: Vec<u32>,
}

/// How many members come after the last event up to a place: 0 where the place is inside no group's block.
fn left_before(ring: &SavedRing, place: usize) -> u32
    ensures { result ≡ left_after (take place (history (block_of ring.now))) }
{
    let events = ring.events.as_slice();
    if place < events.len() {
        left_after(events, place)
    } else {
        left_after(events, events.len())
    }
}

/// A copy of values.
fn copy_of(alloc: Global, values: &[u32]) -> Result<Vec<u32>, AllocError>
    ensures { IfOk result (λ copy. copy.items ≡ values.now) }
{
    let mut copy = Vec::new(alloc);
    copy.extend_from_slice(values)?;
    Ok(copy)
}

/// The ring of a block after its first events, and the values that are shown there: inside a group's block those before it.
#[derive(Drop)]
struct Walk {
    gauge: Gauge,
    shown: Vec<u32>,
}

/// The walk before the first event.
fn walk_of(alloc: Global, ring: &SavedRing) -> Result<Walk, AllocError>
    requires some { 0 < ring.now.k }
    requires few { ring.now.n ≤ machine_limit }
    ensures { IfOk result (λ walk. IsWalk ring.now 0 walk) }
{
    let gauge = gauge_of(alloc, ring)?;
    let shown = copy_of(alloc, gauge.values())?;
    Ok(Walk { gauge, shown })
}

/// Goes one event further.
fn go_on(alloc: Global, ring: &SavedRing, place: usize, walk: &mut Walk) -> Result<(), AllocError>
    requires walk { IsWalk ring.now place walk.old }
    requires room { place + 1 < 2 ^ 63 }
    ensures { OnOk result (IsWalk ring.now (place + 1) walk.new) }
{
    step_on(ring, place, &mut walk.gauge);
    if left_before(ring, place + 1) == 0 {
        walk.shown = copy_of(alloc, walk.gauge.values())?;
    }
    Ok(())
}

/// The walk after the first events.
fn walk_to(alloc: Global, ring: &SavedRing, place: usize) -> Result<Walk, AllocError>
    requires some { 0 < ring.now.k }
    requires few { ring.now.n ≤ machine_limit }
    requires room { place < 2 ^ 63 }
    ensures { IfOk result (λ walk. IsWalk ring.now place walk) }
{
    let mut walk = walk_of(alloc, ring)?;
    for i in 0..place {
        go_on(alloc, ring, i, &mut walk)?;
    }
    Ok(walk)
}

/// The values that are shown in each of `columns` columns from a place on.
fn states_of(
    alloc: Global,
    ring: &SavedRing,
    from: usize,
    columns: u32,
) -> Result<Vec<Column>, AllocError>
    requires some { 0 < ring.now.k }
    requires few { ring.now.n ≤ machine_limit }
    requires room { from + columns < 2 ^ 63 }
    ensures { IfOk result (λ states. AreStates ring.now from columns states.items) }
{
    let mut walk = walk_to(alloc, ring, from)?;
    let mut states = Vec::new(alloc);
    for column in 0..columns {
        let values = copy_of(alloc, &walk.shown)?;
        states.push(Column { values })?;
        go_on(alloc, ring, from + column as usize, &mut walk)?;
    }
    Ok(states)
}

/// Whether an event is a corruption of a machine.
fn corrupts(machine: u32, event: Option<SavedEvent>) -> bool
    ensures { result ≡ corrupts machine event }
{
    match event {
        Some(SavedEvent::Corrupted { machine: hit, .. }) => machine == hit,
        _ => false,
    }
}

/// Whether the event before a column is a corruption of a machine.
fn hit_in(ring: &SavedRing, from: usize, machine: u32, column: u32) -> bool
    requires { from + column < 2 ^ 63 }
    ensures { result ≡ hit_in (block_of ring.now) from machine column }
{
    if column == 0 {
        return false;
    }
    let place = from + (column - 1) as usize;
    corrupts(machine, ring.events.get(place).copied())
}

/// In which columns a machine is privileged.
fn privileged_in(
    alloc: Global,
    ring: &SavedRing,
    from: usize,
    states: &[Column],
    machine: u32,
) -> Result<Vec<bool>, AllocError>
    requires states { AreStates ring.now from (length states.now) states.now }
    requires machine { machine < ring.now.n }
    ensures { IfOk result (λ found. found.items
        ≡ flags (privileged_in (block_of ring.now) from machine) (length states.now)) }
{
    let mut found = Vec::new(alloc);
    for column in 0..states.len() {
        found.push(is_privileged(&states[column].values, machine as usize))?;
    }
    Ok(found)
}

/// In which of `columns` columns a machine was hit just before.
fn hits_in(
    alloc: Global,
    ring: &SavedRing,
    from: usize,
    columns: u32,
    machine: u32,
) -> Result<Vec<bool>, AllocError>
    requires room { from + columns < 2 ^ 63 }
    ensures { IfOk result
        (λ found. found.items ≡ flags (hit_in (block_of ring.now) from machine) columns) }
{
    let mut found = Vec::new(alloc);
    for column in 0..columns {
        found.push(hit_in(ring, from, machine, column))?;
    }
    Ok(found)
}

/// What is seen of a machine.
fn seen_of(
    alloc: Global,
    ring: &SavedRing,
    from: usize,
    states: &[Column],
    machine: u32,
) -> Result<Seen, AllocError>
    requires states { AreStates ring.now from (length states.now) states.now }
    requires machine { machine < ring.now.n }
    requires room { from + length states.now < 2 ^ 63 }
    requires columns { length states.now < 2 ^ 32 }
    ensures { IfOk result
        (λ seen. IsSeen (block_of ring.now) from (length states.now) machine seen) }
{
    let privileged = privileged_in(alloc, ring, from, states, machine)?;
    let hit = hits_in(alloc, ring, from, states.len() as u32, machine)?;
    Ok(Seen { privileged, hit })
}

/// What is seen of each machine of a ring in each of `columns` columns from a place on.
pub(crate) fn all_seen(
    alloc: Global,
    ring: &SavedRing,
    from: usize,
    columns: u32,
) -> Result<Vec<Seen>, AllocError>
    requires some { 0 < ring.now.k }
    requires few { ring.now.n ≤ machine_limit }
    requires room { from + columns < 2 ^ 63 }
    ensures { IfOk result (λ seen. AreSeen (block_of ring.now) from columns seen.items) }
{
    let states = states_of(alloc, ring, from, columns)?;
    let mut seen = Vec::new(alloc);
    for machine in 0..ring.n {
        seen.push(seen_of(alloc, ring, from, states.as_slice(), machine)?)?;
    }
    Ok(seen)
}
