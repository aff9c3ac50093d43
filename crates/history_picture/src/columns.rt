//! The ring of a block, from place to place as they are shown.

ghost use Rattle.std.specs.Prelude.{◌≡◌, ◌+◌, ◌<◌, ◌≤◌, ◌^◌, IfOk};
ghost use Rattle.ring_model.specs.Limits.{machine_limit};
ghost use Rattle.saved_history.specs.Content.{block_of};
ghost use Rattle.history_steps.specs.Steps.{HasRing};
ghost use Rattle.history_picture.specs.Picture.{shown, ring_shown, calm_shown};

use crate::groups::{left_before, shown};
use history_steps::{calm_step, gauge_of, step_on};
use ring_check::Gauge;
use saved_history::SavedRing;
use std::alloc::{AllocError, Global};

/// Goes one place further, as places are shown: inside a group's block the ring stays as it is, and at the block's end
/// all its members move.
pub(crate) fn go_on(ring: &SavedRing, place: usize, gauge: &mut Gauge)
    requires room { place + 1 < 2 ^ 63 }
    requires ring { HasRing ring.now (ring_shown (block_of ring.now) place) gauge.old }
    ensures { HasRing ring.now (ring_shown (block_of ring.now) (place + 1)) gauge.new }
{
    if left_before(ring, place + 1) == 0 {
        for i in shown(ring, place)..place + 1 {
            step_on(ring, i, gauge);
        }
    }
}

/// Goes from the start to a place.
fn go_to(ring: &SavedRing, place: usize, gauge: &mut Gauge)
    requires start { HasRing ring.now (ring_shown (block_of ring.now) 0) gauge.old }
    requires room { place < 2 ^ 63 }
    ensures { HasRing ring.now (ring_shown (block_of ring.now) place) gauge.new }
{
    for i in 0..place {
        go_on(ring, i, gauge);
    }
}

/// The ring that is shown after the first `place` events.
pub(crate) fn gauge_at(alloc: Global, ring: &SavedRing, place: usize) -> Result<Gauge, AllocError>
    requires some { 0 < ring.now.k }
    requires few { ring.now.n ≤ machine_limit }
    requires room { place < 2 ^ 63 }
    ensures { IfOk result (λ gauge. HasRing ring.now (ring_shown (block_of ring.now) place) gauge) }
{
    let mut gauge = gauge_of(alloc, ring)?;
    go_to(ring, place, &mut gauge);
    Ok(gauge)
}

/// The calm one place further, as places are shown: inside a group's block it stays as it is, and at the block's end
/// it grows by all its members.
pub(crate) fn calm_on(ring: &SavedRing, place: usize, calm: u64) -> u64
    requires calm { calm ≡ calm_shown (block_of ring.now) place }
    requires few { calm ≤ shown (block_of ring.now) place }
    requires room { place + 1 < 2 ^ 63 }
    ensures calm { result ≡ calm_shown (block_of ring.now) (place + 1) }
    ensures few { result ≤ shown (block_of ring.now) (place + 1) }
{
    let mut after = calm;
    if left_before(ring, place + 1) == 0 {
        for i in shown(ring, place)..place + 1 {
            after = calm_step(ring, i, after);
        }
    }
    after
}

/// The calm that is shown for a place.
pub(crate) fn calm_to(ring: &SavedRing, place: usize) -> u64
    requires { place < 2 ^ 63 }
    ensures calm { result ≡ calm_shown (block_of ring.now) place }
    ensures few { result ≤ shown (block_of ring.now) place }
{
    let mut calm = 0;
    for i in 0..place {
        calm = calm_on(ring, i, calm);
    }
    calm
}
