//! How far rings were reached.

ghost use Rattle.std.specs.Prelude.{◌≡◌, map, IfOk};
ghost use Rattle.saved_history.specs.Content.{block_of};
ghost use Rattle.segment_files.specs.TornSigns.{reached_by};

use ring_check::count_events;
use saved_history::SavedRing;
use std::alloc::{AllocError, Global};

/// How many granted passes and how many events a ring has.
#[derive(Clone, Copy)]
pub struct Reached {
    pub(crate) grants: u64,
    pub(crate) events: u64,
}

/// How far a ring was reached.
fn reached_by(ring: &SavedRing) -> Reached
    ensures { result ≡ reached_by (block_of ring.now) }
{
    Reached {
        grants: count_events(&ring.events).granted,
        events: ring.events.len() as u64,
    }
}

/// How far each of these rings was reached.
pub(crate) fn all_reached(alloc: Global, rings: &[SavedRing]) -> Result<Vec<Reached>, AllocError>
    ensures { IfOk result (λ found. found.items ≡ map reached_by (map block_of rings.now)) }
{
    let mut found = Vec::new(alloc);
    for i in 0..rings.len() {
        found.push(reached_by(&rings[i]))?;
    }
    Ok(found)
}
