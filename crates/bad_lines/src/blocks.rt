//! The lines of a block.

ghost use Rattle.std.specs.Prelude.{◌≡◌, ◌+◌, ◌<◌, ◌≤◌, ◌^◌, ◌++◌, [], ◌∷◌, ℕ, length, map, nat_lt, true, false, IfOk, IfSome, IfNone, OnOk};
ghost use Rattle.std.specs.List.{list_all};
ghost use Rattle.ring_model.specs.Ring.{ring_with};
ghost use Rattle.saved_history.specs.Content.{block_of};
ghost use Rattle.ring_check.specs.Lines.{RingLine, EndLine, block_lines};
ghost use Rattle.ring_check.specs.Scan.{in_block};
ghost use Rattle.ring_check.specs.Table.{Before, event_of, end_fault};
ghost use Rattle.ring_check.proofs.Blocks.{tail_lines};
ghost use Rattle.bad_lines.specs.BadLines.{Known, bad, bad_of, bad_among, known};
ghost use Rattle.bad_lines.specs.Wrongs.{first_over, end_wrong};

use crate::events::add_events;
use crate::surveys::add_surveys;
use crate::wrongs::{Bad, BadLine, Wrong, tell};
use ring_check::{Kind, are_parameters, left_after, machine_limit_of, value_limit_of};
use ring_state::{Params, RingState};
use saved_history::{SavedEvent, SavedRing};
use std::alloc::{AllocError, Global};

/// The fault of a ring line at this place of a text of this version.
fn ring_fault(version: u32, place: usize, ring: &SavedRing) -> Option<Bad>
    ensures { (b : Before) → b.version ≡ version → b.rings ≡ place
        → result ≡ bad b (RingLine ring.now.index ring.now.n ring.now.k) }
{
    if !are_parameters(version, ring.n, ring.k) {
        return Some(Bad {
            kind: Kind::Parameter,
            wrong: Wrong::Size {
                n: ring.n,
                k: ring.k,
                machines: machine_limit_of(version),
                values: value_limit_of(version),
            },
        });
    }
    if ring.index as usize == place {
        return None;
    }
    Some(Bad {
        kind: Kind::Count,
        wrong: Wrong::Number {
            there: ring.index as u64,
            should: place as u64,
        },
    })
}

/// The first value that is not below the limit.
fn first_over(values: &[u32], limit: u32) -> Option<u32>
    ensures some { IfSome result (λ value. (value ≡ first_over limit values.now)
        × (list_all (λ v. nat_lt v limit) values.now ≡ false)) }
    ensures none { IfNone result (list_all (λ v. nat_lt v limit) values.now ≡ true) }
{
    for value in values {
        if *value >= limit {
            return Some(*value);
        }
    }
    None
}

/// The start of a ring, which is one.
fn start_of(alloc: Global, n: u32, k: u32, values: &[u32]) -> Result<RingState, AllocError>
    ensures { IfOk result (λ start. start ≡ ring_with k values.now) }
{
    let Ok(size) = Params::new(n, k) else {
        return Err(AllocError);
    };
    match RingState::from_values(alloc, &size, values) {
        Ok(start) => Ok(start),
        Err(_) => Err(AllocError),
    }
}

/// The fault of the line that ends the events, and says how many there are.
fn end_fault(said: u64, events: &[SavedEvent]) -> Option<Bad>
    ensures { result
        ≡ bad_of (end_fault said (map event_of events.now))
        (end_wrong said (map event_of events.now)) }
{
    if said != events.len() as u64 {
        return Some(Bad {
            kind: Kind::Count,
            wrong: Wrong::Number {
                there: said,
                should: events.len() as u64,
            },
        });
    }
    let left = left_after(events, events.len());
    if left == 0 {
        return None;
    }
    Some(Bad {
        kind: Kind::Group,
        wrong: Wrong::Unfinished { left: left - 1 },
    })
}

/// Adds the bad lines of a ring after its start, before which are `line` lines.
fn add_tail(
    alloc: Global,
    start: &RingState,
    ring: &SavedRing,
    line: u64,
    out: &mut Vec<BadLine>,
) -> Result<(), AllocError>
    requires room { line + length ring.now.events.items + length ring.now.surveys.items + 2
        < 2 ^ 64 }
    ensures { OnOk result ((version rings : ℕ) → out.new.items
        ≡ out.old.items
        ++ bad_among (known (in_block version line rings (length start.now.values) start.now.k
        start.now.values []))
        (tail_lines ring.now.events.items ring.now.events_said ring.now.surveys.items)) }
{
    if !add_events(alloc, start, &ring.events, line, out)? {
        return Ok(());
    }
    let end = line + ring.events.len() as u64;
    tell(out, end, end_fault(ring.events_said, &ring.events))?;
    add_surveys(alloc, start, &ring.events, &ring.surveys, end + 1, out)?;
    Ok(())
}

/// Adds the bad lines of a block; `place` blocks and `line` lines are before it, in a text of this version.
pub(crate) fn add_block(
    alloc: Global,
    version: u32,
    ring: &SavedRing,
    place: usize,
    line: u64,
    out: &mut Vec<BadLine>,
) -> Result<(), AllocError>
    requires room { line + length ring.now.events.items + length ring.now.surveys.items + 4
        < 2 ^ 64 }
    ensures { OnOk result ((k : Known) → k.before.version ≡ version → k.before.line ≡ line
        → k.before.rings ≡ place → out.new.items
        ≡ out.old.items ++ bad_among k (block_lines (block_of ring.now))) }
{
    tell(out, line, ring_fault(version, place, ring))?;
    if !are_parameters(version, ring.n, ring.k) {
        return Ok(());
    }
    if let Some(value) = first_over(&ring.start, ring.k) {
        let wrong = Wrong::Limit {
            there: value as u64,
            limit: ring.k as u64,
        };
        tell(
            out,
            line + 1,
            Some(Bad {
                kind: Kind::Range,
                wrong,
            }),
        )?;
        return Ok(());
    }
    let start = start_of(alloc, ring.n, ring.k, &ring.start)?;
    add_tail(alloc, &start, ring, line + 2, out)?;
    Ok(())
}
