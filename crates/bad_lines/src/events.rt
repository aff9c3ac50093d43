//! The event lines of a block.

ghost use Rattle.std.specs.Prelude.{◌≡◌, ℕ, ◌+◌, ◌<◌, ◌^◌, ◌++◌, [], length, map, true, not, IfOk};
ghost use Rattle.ring_check.specs.Lines.{EventLine};
ghost use Rattle.ring_check.specs.Scan.{in_block};
ghost use Rattle.ring_check.specs.Table.{event_of, first_state};
ghost use Rattle.bad_lines.specs.BadLines.{bad_among, known, after_all};
ghost use Rattle.bad_lines.specs.Replays.{AreCallable};

use crate::replay::Replay;
use crate::wrongs::{BadLine, tell};
use ring_check::left_after;
use ring_state::RingState;
use saved_history::SavedEvent;
use std::alloc::{AllocError, Global};

/// Adds the bad lines among the events of a ring, before which are `line` lines. Answers whether each is a call of that ring:
/// after one that is not, none is judged.
pub(crate) fn add_events(
    alloc: Global,
    start: &RingState,
    events: &[SavedEvent],
    line: u64,
    out: &mut Vec<BadLine>,
) -> Result<bool, AllocError>
    requires room { line + length events.now + 1 < 2 ^ 64 }
    ensures told { IfOk result (λ callable. (version rings : ℕ) → out.new.items
        ≡ out.old.items
        ++ bad_among (known (in_block version line rings (length start.now.values) start.now.k
        start.now.values [])) (map EventLine events.now)) }
    ensures callable { IfOk result (λ callable. callable ≡ true
        → AreCallable (length start.now.values) (first_state start.now)
        (map event_of events.now)) }
    ensures lost { IfOk result (λ callable. (version rings : ℕ)
        → (after_all (known (in_block version line rings (length start.now.values) start.now.k
        start.now.values [])) (map EventLine events.now)).lost ≡ not callable) }
{
    let mut replay = Replay::begin(alloc, start)?;
    // where the open block begins, or else the place of the next event
    let mut first: usize = 0;
    for (i, event) in events.iter().enumerate() {
        let bad = replay.fault_of(&events[first..i], left_after(events, i), event);
        tell(out, line + i as u64, bad)?;
        if !replay.is_in_range(event) {
            return Ok(false);
        }
        replay.step(event);
        if left_after(events, i + 1) == 0 {
            first = i + 1;
        }
    }
    Ok(true)
}
