//! The ring of a block and its calm, one event after the other.

ghost use Rattle.std.specs.Prelude.{◌≡◌, ◌+◌, ◌<◌, ◌≤◌, ◌^◌, IfOk};
ghost use Rattle.ring_model.specs.Limits.{machine_limit};
ghost use Rattle.ring_model.specs.Ring.{written};
ghost use Rattle.ring_model.specs.Runs.{passed};
ghost use Rattle.ring_model.proofs.Histories.{calm_next};
ghost use Rattle.saved_history.specs.Content.{block_of};
ghost use Rattle.ring_check.specs.Gauges.{ring_of, IsGauge};
ghost use Rattle.ring_check.specs.Table.{event_of};
ghost use Rattle.history_steps.specs.Steps.{next_ring, ring_at, calm_at, HasRing};

use ring_check::Gauge;
use ring_model::plain::is_privileged;
use saved_history::{SavedEvent, SavedRing};
use std::alloc::{AllocError, Global};

/// Moves a machine that is privileged. One that is not, or is none of the ring's, changes nothing.
fn pass(k: u32, gauge: &mut Gauge, machine: u32)
    requires gauge { IsGauge gauge.old }
    requires k { (ring_of gauge.old).k ≡ k }
    ensures gauge { IsGauge gauge.new }
    ensures ring { ring_of gauge.new ≡ passed (ring_of gauge.old) machine }
{
    let i = machine as usize;
    let values = gauge.values();
    if i < values.len() && is_privileged(values, i) {
        let value = if i == 0 {
            ((values[0] as u64 + 1) % k as u64) as u32
        } else {
            values[i - 1]
        };
        gauge.write(i, value);
    }
}

/// Writes a value into a machine, where it is one of the ring's.
fn corrupt(gauge: &mut Gauge, machine: u32, value: u32)
    requires { IsGauge gauge.old }
    ensures gauge { IsGauge gauge.new }
    ensures ring { ring_of gauge.new ≡ written (ring_of gauge.old) machine value }
{
    let i = machine as usize;
    if i < gauge.values().len() {
        gauge.write(i, value);
    }
}

/// Does the call of an event.
fn call(k: u32, event: SavedEvent, gauge: &mut Gauge)
    requires gauge { IsGauge gauge.old }
    requires k { (ring_of gauge.old).k ≡ k }
    ensures gauge { IsGauge gauge.new }
    ensures ring { ring_of gauge.new ≡ next_ring (ring_of gauge.old) (event_of event).op }
{
    match event {
        SavedEvent::Granted { machine, .. } => pass(k, gauge, machine),
        SavedEvent::Refused { machine, .. } => pass(k, gauge, machine),
        SavedEvent::Member { machine, .. } => pass(k, gauge, machine),
        SavedEvent::Corrupted { machine, value, .. } => corrupt(gauge, machine, value),
    }
}

/// Returns the ring of a block before its first event.
///
/// # Errors
///
/// If there is no room for the values, and for a count of each of the K values.
pub fn gauge_of(alloc: Global, ring: &SavedRing) -> Result<Gauge, AllocError>
    requires some { 0 < ring.now.k }
    requires few { ring.now.n ≤ machine_limit }
    ensures { IfOk result (λ gauge. HasRing ring.now (ring_at (block_of ring.now) 0) gauge) }
{
    Gauge::new(alloc, ring.k, &ring.start)
}

/// Goes from a place of a block one event further. After the last event the ring stays as it is.
pub fn step_on(ring: &SavedRing, place: usize, gauge: &mut Gauge)
    requires { HasRing ring.now (ring_at (block_of ring.now) place) gauge.old }
    ensures { HasRing ring.now (ring_at (block_of ring.now) (place + 1)) gauge.new }
{
    if place < ring.events.len() {
        call(ring.k, ring.events[place], gauge);
    }
}

/// The calm after one more event.
fn calm_after(calm: u64, event: SavedEvent) -> u64
    requires { calm + 1 < 2 ^ 64 }
    ensures calm { result ≡ calm_next calm (event_of event).reply }
    ensures few { result ≤ calm + 1 }
{
    match event {
        SavedEvent::Granted { .. } => calm + 1,
        SavedEvent::Refused { .. } => calm,
        SavedEvent::Member { .. } => calm + 1,
        SavedEvent::Corrupted { .. } => 0,
    }
}

/// Returns the calm one event further. After the last event it stays as it is.
pub fn calm_step(ring: &SavedRing, place: usize, calm: u64) -> u64
    requires calm { calm ≡ calm_at (block_of ring.now) place }
    requires few { calm ≤ place }
    requires room { place + 1 < 2 ^ 63 }
    ensures calm { result ≡ calm_at (block_of ring.now) (place + 1) }
    ensures few { result ≤ place + 1 }
{
    if place < ring.events.len() {
        calm_after(calm, ring.events[place])
    } else {
        calm
    }
}
