//! The blocks of a text.

ghost use Rattle.std.specs.Prelude.{◌≡◌, ◌+◌, ◌<◌, ◌^◌, length, map, nat_lt, IfOk};
ghost use Rattle.std.specs.List.{flat_map, list_all};
ghost use Rattle.saved_history.specs.Content.{block_of};
ghost use Rattle.ring_check.specs.Lines.{block_lines};
ghost use Rattle.ring_check.specs.Table.{Before, nothing, event_of, end_fault};
ghost use Rattle.ring_check.specs.Scan.{first_fault, Finds};

use crate::answers::{CheckError, Kind};
use crate::events::check_events;
use crate::group_lines::left_after;
use crate::limits::are_parameters;
use crate::surveys::check_surveys;
use saved_history::SavedRing;
use std::alloc::Global;

/// Whether each value is below the limit.
fn all_below(values: &[u32], limit: u32) -> bool
    ensures { result ≡ list_all (λ v. nat_lt v limit) values.now }
{
    values.iter().all(|value| *value < limit)
}

/// Returns the fault of the line that ends the events of a block.
fn end_fault(ring: &SavedRing) -> Option<Kind>
    ensures { result ≡ end_fault ring.now.events_said (map event_of ring.now.events.items) }
{
    if ring.events_said != ring.events.len() as u64 {
        Some(Kind::Count)
    } else if left_after(&ring.events, ring.events.len()) != 0 {
        Some(Kind::Group)
    } else {
        None
    }
}

/// Finds the first line of a block with a fault, in a text of this version; `place` blocks and `line` lines are
/// before it.
fn check_ring(
    alloc: Global,
    version: u32,
    ring: &SavedRing,
    place: usize,
    line: u64,
) -> Result<(), CheckError>
    requires room { line + length ring.now.events.items + length ring.now.surveys.items + 4
        < 2 ^ 64 }
    ensures { (b : Before) → b.version ≡ version → b.line ≡ line → b.rings ≡ place
        → Finds (first_fault b (block_lines (block_of ring.now))) result }
{
    if !are_parameters(version, ring.n, ring.k) {
        return Err(CheckError::Bad {
            line: line + 1,
            kind: Kind::Parameter,
        });
    }
    if ring.index as usize != place {
        return Err(CheckError::Bad {
            line: line + 1,
            kind: Kind::Count,
        });
    }
    if !all_below(&ring.start, ring.k) {
        return Err(CheckError::Bad {
            line: line + 2,
            kind: Kind::Range,
        });
    }
    check_events(alloc, ring.k, &ring.start, &ring.events, line + 2)?;
    let end = line + 3 + ring.events.len() as u64;
    if let Some(kind) = end_fault(ring) {
        return Err(CheckError::Bad { line: end, kind });
    }
    check_surveys(alloc, ring.k, &ring.start, &ring.events, &ring.surveys, end)
}

/// Finds the first line of the blocks with a fault, in a text of this version, and answers else how many lines there
/// are so far.
pub(crate) fn check_rings(
    alloc: Global,
    version: u32,
    rings: &[SavedRing],
) -> Result<u64, CheckError>
    requires room { length (flat_map block_lines (map block_of rings.now)) + 2 < 2 ^ 64 }
    ensures finds { Finds
        (first_fault (nothing version) (flat_map block_lines (map block_of rings.now))) result }
    ensures lines { IfOk result
        (λ line. line ≡ length (flat_map block_lines (map block_of rings.now)) + 1) }
{
    let mut line: u64 = 1;
    for (i, ring) in rings.iter().enumerate() {
        check_ring(alloc, version, ring, i, line)?;
        line += 3 + ring.events.len() as u64 + ring.surveys.len() as u64;
    }
    Ok(line)
}
