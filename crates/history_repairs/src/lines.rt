//! The lines that report the repairs of each ring.

ghost use Rattle.std.specs.Prelude.{◌≡◌, ◌<◌, ◌≤◌, ◌++◌, length, IfOk, OnOk};
ghost use Rattle.ring_model.specs.Limits.{machine_limit};
ghost use Rattle.text_lines.specs.Writing.{Writes};
ghost use Rattle.saved_history.specs.Content.{content, block_of};
ghost use Rattle.ring_check.specs.Meaning.{IsRightText};
ghost use Rattle.history_repairs.specs.Lines.{repairs_of, spread_if, spread_words, some_words, ring_words, end_words, repairs_line, repairs_lines};

use crate::repairs::repairs_of;
use crate::spreads::{Spread, spread_over};
use itoa::Buffer;
use ring_check::count_events;
use ring_model::plain::bound;
use saved_history::{Saved, SavedRing};
use std::alloc::{AllocError, Global};
use std::io::Write;
use text_lines::{WriteFault, put, put_all};

/// The numbers of repairs as words.
fn put_spread<W: Write>(out: &mut W, spread: Spread) -> Result<(), WriteFault>
    ensures { Writes (W.contents out.old) (W.contents out.new) result (spread_words spread) }
{
    let mut ends = (Buffer::new(), Buffer::new());
    let mut others = (Buffer::new(), Buffer::new());
    let least = ends.0.format(spread.least).as_bytes();
    let median = others.0.format(spread.median).as_bytes();
    let greatest = ends.1.format(spread.greatest).as_bytes();
    let privileged = others.1.format(spread.privileged).as_bytes();
    put_all(
        out,
        &[
            b" least ",
            least,
            b" median ",
            median,
            b" greatest ",
            greatest,
            b" privileged ",
            privileged,
        ],
    )
}

/// These words, or a dash for each number if no repair has ended.
fn put_some<W: Write>(out: &mut W, spread: Option<Spread>) -> Result<(), WriteFault>
    ensures { Writes (W.contents out.old) (W.contents out.new) result (some_words spread) }
{
    match spread {
        Some(spread) => put_spread(out, spread),
        None => put(out, b" least - median - greatest - privileged -"),
    }
}

/// A ring's place and its size, its faults, and how many of their repairs ended.
fn put_ring<W: Write>(out: &mut W, ring: &SavedRing, ended: usize) -> Result<(), WriteFault>
    ensures { Writes (W.contents out.old) (W.contents out.new) result
        (ring_words (block_of ring.now) ended) }
{
    let tally = count_events(&ring.events);
    let mut sizes = (Buffer::new(), Buffer::new(), Buffer::new());
    let mut counts = (Buffer::new(), Buffer::new());
    let index = sizes.0.format(ring.index).as_bytes();
    let n = sizes.1.format(ring.n).as_bytes();
    let k = sizes.2.format(ring.k).as_bytes();
    let faults = counts.0.format(tally.corrupted).as_bytes();
    let ended = counts.1.format(ended).as_bytes();
    put_all(
        out,
        &[
            b"repairs ring ",
            index,
            b" n ",
            n,
            b" k ",
            k,
            b" faults ",
            faults,
            b" ended ",
            ended,
        ],
    )
}

/// The bound, and the end of the line.
fn put_bound<W: Write>(out: &mut W, n: u32) -> Result<(), WriteFault>
    requires { n ≤ machine_limit }
    ensures { Writes (W.contents out.old) (W.contents out.new) result (end_words n) }
{
    let mut buffer = Buffer::new();
    let bound = buffer.format(bound(n)).as_bytes();
    put_all(out, &[b" bound ", bound, b"\n"])
}

/// Writes the line of a ring, with the number and the spread of its repairs that ended.
fn put_line<W: Write>(
    out: &mut W,
    ring: &SavedRing,
    ended: usize,
    spread: Option<Spread>,
) -> Result<(), WriteFault>
    requires few { ring.now.n ≤ machine_limit }
    requires ended { ended ≡ length (repairs_of (block_of ring.now)) }
    requires spread { spread ≡ spread_if (repairs_of (block_of ring.now)) }
    ensures { Writes (W.contents out.old) (W.contents out.new) result
        (repairs_line (block_of ring.now)) }
{
    match put_ring(out, ring, ended) {
        Ok(()) => match put_some(out, spread) {
            Ok(()) => put_bound(out, ring.n),
            Err(fault) => Err(fault),
        },
        Err(fault) => Err(fault),
    }
}

/// Adds the line of a ring to a text.
fn add_ring(alloc: Global, ring: &SavedRing, text: &mut Vec<u8>) -> Result<(), AllocError>
    requires some { 0 < ring.now.k }
    requires few { ring.now.n ≤ machine_limit }
    ensures { OnOk result (text.new.items ≡ text.old.items ++ repairs_line (block_of ring.now)) }
{
    let found = repairs_of(alloc, ring)?;
    let spread = spread_over(alloc, &found)?;
    match put_line(text, ring, found.len(), spread) {
        Ok(()) => Ok(()),
        Err(_) => Err(AllocError),
    }
}

/// Returns the lines of a saved history's repairs, which is legal: one for each ring.
///
/// Each ring is replayed, one after the other.
///
/// # Errors
///
/// If there is no room for the lines, or for the repairs of a ring and its values.
pub fn repairs_lines(alloc: Global, saved: &Saved) -> Result<Vec<u8>, AllocError>
    requires { IsRightText (content saved.now) }
    ensures { IfOk result (λ text. text.items ≡ repairs_lines (content saved.now)) }
{
    let mut text = Vec::new(alloc);
    for ring in &saved.rings {
        add_ring(alloc, ring, &mut text)?;
    }
    Ok(text)
}
