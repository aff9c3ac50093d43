//! The lines that a segment misses which ends where locks start.

ghost use Rattle.std.specs.Prelude.{◌≡◌, ◌++◌, ◌<◌, ◌≤◌, ℕ, drop, length, slice_get, Some, IfOk, OnOk};
ghost use Rattle.saved_history.specs.declared.saved.SavedRing.{SavedRing};
ghost use Rattle.one_thread_ring.specs.Journals.{event_lines};
ghost use Rattle.held_locks.specs.Kept.{LockView};
ghost use Rattle.name_remarks.specs.Bindings.{bound_at};
ghost use Rattle.folder_of_locks.specs.NameRings.{free_line, free_lines, repair_lines, front_text};

use held_locks::Locks;
use name_remarks::{NameRemark, Recorded, put_name_remark};
use one_thread_ring::put_events;
use saved_history::SavedRing;
use std::alloc::{AllocError, Global};

/// Adds the line that a ring has lost its name, if it has.
fn put_free(
    text: &mut Vec<u8>,
    recorded: &Recorded,
    locks: &Locks,
    ring: u32,
) -> Result<(), AllocError>
    requires { ring < length locks.now }
    ensures { (v : LockView) → slice_get locks.now ring ≡ Some v → OnOk result (text.new.items
        ≡ text.old.items ++ free_line ring v.holder (bound_at recorded.now.rings ring)) }
{
    if locks.holder(ring).is_some() {
        return Ok(());
    }
    match recorded.binding(ring) {
        Some(_) => put_name_remark(text, NameRemark::Free { ring }),
        None => Ok(()),
    }
}

/// Adds the lines of the rings of the pool that have lost their names.
fn put_frees(
    text: &mut Vec<u8>,
    recorded: &Recorded,
    locks: &Locks,
    fixed: u32,
) -> Result<(), AllocError>
    requires { fixed ≤ length locks.now }
    ensures { OnOk result (text.new.items
        ≡ text.old.items ++ free_lines fixed recorded.now.rings (drop fixed locks.now)) }
{
    for ring in fixed..locks.count() {
        match put_free(text, recorded, locks, ring) {
            Ok(()) => {}
            Err(error) => return Err(error),
        }
    }
    Ok(())
}

/// Adds the events of a ring since it was recorded so.
fn put_repair(
    text: &mut Vec<u8>,
    saved: &SavedRing,
    locks: &Locks,
    ring: u32,
) -> Result<(), AllocError>
    requires { ring < length locks.now }
    ensures { (v : LockView) → slice_get locks.now ring ≡ Some v → OnOk result (text.new.items
        ≡ text.old.items
        ++ event_lines ring (drop (length saved.now.events.items) v.ring.ring.book.history)) }
{
    let history = locks.ring(ring).segment().history();
    let place = saved.events.len();
    if place >= history.len() {
        return Ok(());
    }
    match put_events(text, ring, &history[place..]) {
        Ok(()) => Ok(()),
        Err(_) => Err(AllocError),
    }
}

/// Adds the events of each ring since they were recorded so.
fn put_repairs(text: &mut Vec<u8>, rings: &[SavedRing], locks: &Locks) -> Result<(), AllocError>
    requires { length rings.now ≤ length locks.now }
    ensures { OnOk result (text.new.items ≡ text.old.items ++ repair_lines 0 rings.now locks.now) }
{
    locks.are_kept(); // says: their numbers have 32 bits
    for (place, saved) in rings.iter().enumerate() {
        match put_repair(text, saved, locks, place as u32) {
            Ok(()) => {}
            Err(error) => return Err(error),
        }
    }
    Ok(())
}

/// The lines that are kept of a segment, and after them those that it misses.
pub(crate) fn front_text(
    alloc: Global,
    kept: &[u8],
    recorded: &Recorded,
    rings: &[SavedRing],
    locks: &Locks,
    fixed: u32,
) -> Result<Vec<u8>, AllocError>
    requires fixed { fixed ≤ length locks.now }
    requires rings { length rings.now ≤ length locks.now }
    ensures { IfOk result (λ text. text.items
        ≡ front_text kept.now fixed recorded.now rings.now locks.now) }
{
    let mut text = Vec::new(alloc);
    text.extend_from_slice(kept)?;
    put_frees(&mut text, recorded, locks, fixed)?;
    put_repairs(&mut text, rings, locks)?;
    Ok(text)
}
