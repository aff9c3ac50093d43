//! The event lines of a block.

ghost use Rattle.std.specs.Prelude.{◌≡◌, ℕ, ◌+◌, ◌<◌, ◌^◌, [], length, map, IfOk};
ghost use Rattle.ring_model.specs.Ring.{ring_with, IsRing};
ghost use Rattle.ring_model.specs.History.{IsLegal};
ghost use Rattle.ring_model.specs.Resources.{till};
ghost use Rattle.ring_check.specs.Lines.{EventLine};
ghost use Rattle.ring_check.specs.Table.{event_of, first_state};
ghost use Rattle.ring_check.specs.Scan.{first_fault, Finds, in_block};

use crate::answers::CheckError;
use crate::group_lines::left_of;
use crate::replay::Replay;
use saved_history::SavedEvent;
use std::alloc::Global;

/// Finds the first event with a fault; `line` is the number of lines before the events.
pub(crate) fn check_events(
    alloc: Global,
    k: u32,
    start: &[u32],
    events: &[SavedEvent],
    line: u64,
) -> Result<(), CheckError>
    requires ring { IsRing (ring_with k start.now) }
    requires room { line + length events.now + 1 < 2 ^ 64 }
    ensures finds { (version rings : ℕ)
        → Finds (first_fault (in_block version line rings (length start.now) k start.now [])
        (map EventLine events.now)) result }
    ensures legal { IfOk result
        (λ u. IsLegal till (first_state (ring_with k start.now)) (map event_of events.now)) }
{
    let Ok(mut replay) = Replay::begin(alloc, k, start) else {
        return Err(CheckError::OutOfMemory);
    };
    // where the open block begins, or else the place of the next event
    let mut first: usize = 0;
    for (i, event) in events.iter().enumerate() {
        if let Some(kind) = replay.fault_of(&events[first..i], event) {
            return Err(CheckError::Bad {
                line: line + i as u64 + 1,
                kind,
            });
        }
        if left_of(event) == 0 {
            first = i + 1;
        }
        replay.apply(event);
    }
    Ok(())
}
