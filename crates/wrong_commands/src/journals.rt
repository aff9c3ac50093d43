//! Wrong recoveries of a journal.

ghost use Rattle.std.specs.Prelude.{◌≡◌, ◌≢◌, ◌+◌, ◌<◌, List, ◌∷◌, ◌++◌, [], Ok, IfOk, OnOk, length, vec_len, slice_index_or, slice_set};
ghost use Rattle.saved_history.specs.Content.{content};
ghost use Rattle.journal.specs.Recovery.{IsRightRecovery};

use journal::{RecoverError, recover_journal};
use saved_history::{Saved, SavedEvent, SavedRing};
use std::alloc::{AllocError, Global};

/// Takes away the last event of a ring that has one.
fn take_last(ring: &mut SavedRing)
    requires { 0 < vec_len ring.old.events }
    ensures { vec_len ring.new.events + 1 ≡ vec_len ring.old.events }
{
    ring.events.pop();
}

/// Puts an event after those of a ring.
fn put_last(ring: &mut SavedRing, event: SavedEvent) -> Result<(), AllocError>
    ensures { OnOk result (vec_len ring.new.events ≡ vec_len ring.old.events + 1) }
{
    ring.events.push(event)?;
    ring.events_said = ring.events.len() as u64;
    Ok(())
}

/// Each whole line is recovered: here the last event of a ring is left out. It gives up if there is none.
pub fn leaves_out_the_last_line(
    alloc: Global,
    bytes: &[u8],
    ring: usize,
) -> Result<Saved, RecoverError>
    ensures wrong { IfOk result (λ saved. IsRightRecovery bytes.now (Ok saved) → ⊥) }
{
    let Saved {
        version,
        mut rings,
        rings_said,
    } = match recover_journal(alloc, bytes) {
        Ok(saved) => saved,
        Err(error) => return Err(error),
    };
    if ring >= rings.len() {
        return Err(RecoverError::OutOfMemory);
    }
    if rings[ring].events.len() == 0 {
        return Err(RecoverError::OutOfMemory);
    }
    take_last(&mut rings[ring]);
    Ok(Saved {
        version,
        rings,
        rings_said,
    })
}

/// The members of a group that is not whole are left out: here one is kept.
pub fn keeps_half_a_group(
    alloc: Global,
    bytes: &[u8],
    ring: usize,
    member: SavedEvent,
) -> Result<Saved, RecoverError>
    ensures wrong { IfOk result (λ saved. IsRightRecovery bytes.now (Ok saved) → ⊥) }
{
    let Saved {
        version,
        mut rings,
        rings_said,
    } = match recover_journal(alloc, bytes) {
        Ok(saved) => saved,
        Err(error) => return Err(error),
    };
    if ring >= rings.len() {
        return Err(RecoverError::OutOfMemory);
    }
    let Ok(()) = put_last(&mut rings[ring], member) else {
        return Err(RecoverError::OutOfMemory);
    };
    Ok(Saved {
        version,
        rings,
        rings_said,
    })
}
