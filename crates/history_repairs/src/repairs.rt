//! The repairs of a ring's history, found in one walk over its events.

ghost use Rattle.std.specs.Prelude.{◌≡◌, ◌+◌, ◌<◌, ◌≤◌, ◌^◌, ◌++◌, IfOk, OnOk};
ghost use Rattle.ring_model.specs.Limits.{machine_limit};
ghost use Rattle.ring_model.specs.Ring.{is_settled};
ghost use Rattle.ring_model.specs.Surveys.{is_corrupted};
ghost use Rattle.saved_history.specs.Content.{block_of};
ghost use Rattle.ring_check.specs.Gauges.{ring_of, IsGauge};
ghost use Rattle.ring_check.specs.Table.{event_of};
ghost use Rattle.history_repairs.specs.Repairs.{begun, with_event};
ghost use Rattle.history_repairs.specs.Lines.{repairs_of};
ghost use Rattle.history_repairs.specs.Walks.{ending, left_open, with_event_of, after_event, counted};

use history_steps::{gauge_of, step_on};
use ring_check::Gauge;
use ring_model::plain::{is_settled, privileged_count};
use saved_history::{SavedEvent, SavedRing};
use std::alloc::{AllocError, Global};

/// A repair that has ended, or that has come so far.
#[derive(Clone, Copy, Debug, PartialEq, Eq)]
pub struct Repair {
    /// The passes that were granted from the fault on until the ring was first settled.
    pub passes: u64,
    /// How many machines the fault left privileged. No pass raises their number.
    pub privileged: u64,
}

/// The repair that begins at a ring.
fn begun(gauge: &Gauge) -> Repair
    requires { IsGauge gauge.now }
    ensures { result ≡ begun (ring_of gauge.now) }
{
    Repair {
        passes: 0,
        privileged: privileged_count(gauge.values()) as u64,
    }
}

/// A repair after one event more that is not a fault.
fn with_event(repair: Repair, event: SavedEvent) -> Repair
    requires { repair.passes + 1 < 2 ^ 64 }
    ensures is { result ≡ with_event repair (event_of event).reply }
    ensures few { result.passes ≤ repair.passes + 1 }
{
    match event {
        SavedEvent::Granted { .. } | SavedEvent::Member { .. } => Repair {
            passes: repair.passes + 1,
            privileged: repair.privileged,
        },
        SavedEvent::Refused { .. } | SavedEvent::Corrupted { .. } => repair,
    }
}

/// What is open after an event, from what was open before it: a granted pass counts, and a fault begins another repair.
fn after_event(current: Option<Repair>, event: SavedEvent, gauge: &Gauge) -> Option<Repair>
    requires gauge { IsGauge gauge.now }
    requires few { counted current + 1 < 2 ^ 64 }
    ensures is { result ≡ after_event current (event_of event) (ring_of gauge.now) }
    ensures few { counted result ≤ counted current + 1 }
{
    if let SavedEvent::Corrupted { .. } = event {
        return Some(begun(gauge));
    }
    match current {
        Some(repair) => Some(with_event(repair, event)),
        None => None,
    }
}

/// Ends the repair that is open, if the ring is settled. Answers what is open then.
fn close(
    current: Option<Repair>,
    gauge: &Gauge,
    found: &mut Vec<Repair>,
) -> Result<Option<Repair>, AllocError>
    ensures found { OnOk result (found.new.items
        ≡ found.old.items ++ ending current (is_settled (ring_of gauge.now).values)) }
    ensures left { IfOk result
        (λ left. left ≡ left_open current (is_settled (ring_of gauge.now).values)) }
    ensures few { IfOk result (λ left. counted left ≤ counted current) }
{
    let Some(repair) = current else {
        return Ok(None);
    };
    if !is_settled(gauge.values()) {
        return Ok(Some(repair));
    }
    found.push(repair)?;
    Ok(None)
}

/// Returns the repairs of a ring's history that ended, in the order of their faults.
///
/// # Errors
///
/// If there is no room for them, or for the ring's values and a count of each of the K values.
pub fn repairs_of(alloc: Global, ring: &SavedRing) -> Result<Vec<Repair>, AllocError>
    requires some { 0 < ring.now.k }
    requires few { ring.now.n ≤ machine_limit }
    ensures { IfOk result (λ found. found.items ≡ repairs_of (block_of ring.now)) }
{
    let mut gauge = gauge_of(alloc, ring)?;
    let mut found = Vec::new(alloc);
    let mut current = None;
    for place in 0..ring.events.len() {
        current = close(current, &gauge, &mut found)?;
        step_on(ring, place, &mut gauge);
        current = after_event(current, ring.events[place], &gauge);
    }
    close(current, &gauge, &mut found)?;
    Ok(found)
}
