//! How many holds each label has.

ghost use Rattle.std.specs.Prelude.{◌≡◌, ◌++◌, List, [], map, OnOk, IfOk};
ghost use Rattle.chain_readers.specs.declared.holds.Hold.{Hold};
ghost use Rattle.std.specs.List.{flat_map};
ghost use Rattle.std.specs.Ordering.{nat_cmp};
ghost use Rattle.std.specs.BTreeMap.{IsOrdered};
ghost use Rattle.text_lines.specs.Writing.{Writes};
ghost use Rattle.chain_readers.specs.HoldLines.{is_chosen};
ghost use Rattle.chain_readers.specs.Labels.{chosen_one, chosen_of, all_chosen, is_released, is_left, is_open, no_counts, AreCounted, one_more, with_end, label_line};

use crate::hold_lines::{Choice, is_chosen};
use crate::holds::{End, Hold};
use itoa::Buffer;
use std::alloc::{AllocError, Global};
use std::collections::BTreeMap;
use std::io::Write;
use text_lines::{WriteFault, put_all};

/// How many holds a label has, and how they ended.
#[derive(Clone, Copy, Debug, PartialEq, Eq)]
pub struct LabelCounts {
    pub holds: u64,
    /// Those that were released.
    pub released: u64,
    /// Those whose client left.
    pub left: u64,
    /// Those that are open.
    pub unended: u64,
}

/// No holds.
fn none() -> LabelCounts
    ensures { result ≡ no_counts }
{
    LabelCounts {
        holds: 0,
        released: 0,
        left: 0,
        unended: 0,
    }
}

/// One more, or not.
fn one_more(count: u64, more: bool) -> u64
    ensures { result ≡ one_more count more }
{
    if more { count.saturating_add(1) } else { count }
}

/// Whether a hold was released.
fn is_released(end: Option<End>) -> bool
    ensures { result ≡ is_released end }
{
    match end {
        None => false,
        Some(end) => !end.left,
    }
}

/// Whether its client left.
fn is_left(end: Option<End>) -> bool
    ensures { result ≡ is_left end }
{
    match end {
        None => false,
        Some(end) => end.left,
    }
}

/// The counts with a hold more, which has this end.
fn with_end(counts: LabelCounts, end: Option<End>) -> LabelCounts
    ensures { result ≡ with_end counts end }
{
    LabelCounts {
        holds: one_more(counts.holds, true),
        released: one_more(counts.released, is_released(end)),
        left: one_more(counts.left, is_left(end)),
        unended: one_more(counts.unended, end.is_none()),
    }
}

/// Counts a hold, if it is wanted and has a label.
fn count_hold(
    counts: &mut BTreeMap<u64, LabelCounts>,
    choice: Choice,
    lock: u64,
    hold: &Hold,
) -> Result<(), AllocError>
    ensures { OnOk result ((before : List Hold) → AreCounted counts.old before
        → AreCounted counts.new (before ++ chosen_one choice lock hold.now)) }
{
    if !is_chosen(choice, lock, hold) {
        return Ok(());
    }
    let Some(grant) = hold.grant else {
        return Ok(());
    };
    let old = counts.get(&grant.label).copied().unwrap_or(none());
    let new = with_end(old, hold.end);
    match counts.insert(grant.label, new) {
        Ok(_) => Ok(()),
        Err(_) => Err(AllocError),
    }
}

/// Counts the holds of a lock.
fn count_lock(
    counts: &mut BTreeMap<u64, LabelCounts>,
    choice: Choice,
    lock: u64,
    holds: &[Hold],
) -> Result<(), AllocError>
    ensures { OnOk result ((before : List Hold) → AreCounted counts.old before
        → AreCounted counts.new (before ++ chosen_of choice lock holds.now)) }
{
    for hold in holds {
        count_hold(counts, choice, lock, hold)?;
    }
    Ok(())
}

/// How many of the wanted holds each label has. A hold of which only the token is known has none.
///
/// # Errors
///
/// Out of memory.
pub fn count_labels(
    alloc: Global,
    choice: Choice,
    locks: &[Vec<Hold>],
) -> Result<BTreeMap<u64, LabelCounts>, AllocError>
    ensures { IfOk result
        (λ counts. AreCounted counts (all_chosen choice 0 (map (λ v. v.items) locks.now))) }
{
    let mut counts = BTreeMap::new(alloc);
    for (lock, holds) in locks.iter().enumerate() {
        count_lock(&mut counts, choice, lock as u64, holds)?;
    }
    Ok(counts)
}

/// Writes the line of a label.
fn put_label<W: Write>(out: &mut W, label: u64, counts: LabelCounts) -> Result<(), WriteFault>
    ensures { Writes (W.contents out.old) (W.contents out.new) result (label_line (label, counts)) }
{
    let mut buffers = (
        Buffer::new(),
        Buffer::new(),
        Buffer::new(),
        Buffer::new(),
        Buffer::new(),
    );
    let label = buffers.0.format(label).as_bytes();
    let holds = buffers.1.format(counts.holds).as_bytes();
    let released = buffers.2.format(counts.released).as_bytes();
    let left = buffers.3.format(counts.left).as_bytes();
    let unended = buffers.4.format(counts.unended).as_bytes();
    put_all(
        out,
        &[
            b"label ",
            label,
            b" holds ",
            holds,
            b" released ",
            released,
            b" left ",
            left,
            b" open ",
            unended,
            b"\n",
        ],
    )
}

/// Writes a line for each label, rising.
///
/// # Errors
///
/// As [`put_all`]: the writer then holds a prefix of the lines, but not all of them, after what it held.
pub fn put_labels<W: Write>(
    out: &mut W,
    counts: &BTreeMap<u64, LabelCounts>,
) -> Result<(), WriteFault>
    ensures written { Writes (W.contents out.old) (W.contents out.new) result
        (flat_map label_line counts.now.entries) }
    ensures rising { IsOrdered nat_cmp counts.now }
{
    for (label, count) in counts {
        match put_label(out, *label, *count) {
            Ok(()) => {}
            Err(fault) => return Err(fault),
        }
    }
    Ok(())
}
