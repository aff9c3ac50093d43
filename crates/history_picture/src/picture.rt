//! The whole picture, part by part.

ghost use Rattle.std.specs.Prelude.{◌≡◌, ℕ, ◌+◌, ◌<◌, ◌≤◌, ◌^◌, List, length, OnOk, IsErrOf};
ghost use Rattle.std.specs.Io.KnownBytes.{Appends};
ghost use Rattle.text_lines.specs.Writing.{Wrote, Writes};
ghost use Rattle.ring_model.specs.Limits.{machine_limit};
ghost use Rattle.ring_model.specs.Ring.{ring_with, bound};
ghost use Rattle.saved_history.specs.Content.{block_of};
ghost use Rattle.history_picture.specs.Picture.{ring_shown, curve_height, upper_part, marks_part, lower_part, picture};
ghost use Rattle.history_steps.specs.Steps.{HasRing};
ghost use Rattle.history_picture.specs.Walks.{AreRows};

use crate::columns::gauge_at;
use crate::curves::{curve_height, put_calms, put_rests};
use crate::frame::{put_axes, put_curves_opening, put_ending, put_rows_opening, put_title};
use crate::marks::put_marks;
use crate::page::Grid;
use crate::rows::put_rows;
use crate::stretches::{Row, walk};
use ring_check::Gauge;
use ring_model::plain::bound;
use saved_history::SavedRing;
use std::alloc::Global;
use std::io::Write;
use text_lines::{WriteFault, put};

/// Why a picture was not written.
#[derive(Clone, Copy)]
pub enum PictureFault {
    /// The writer failed, or took no byte.
    Write,
    OutOfMemory,
}

/// The title, the axes and the rows.
fn put_upper<W: Write>(
    out: &mut W,
    ring: &SavedRing,
    from: usize,
    count: u32,
    height: u64,
    rows: &[Row],
) -> Result<(), WriteFault>
    requires few { ring.now.n ≤ machine_limit }
    requires height { height ≡ curve_height (block_of ring.now) from (count + 1) }
    requires columns { count + 1 < 2 ^ 32 }
    requires room { from + count + 1 < 2 ^ 63 }
    requires machines { length rows.now ≡ ring.now.n }
    requires rows { AreRows (block_of ring.now) from (count + 1) rows.now }
    ensures { Writes (W.contents out.old) (W.contents out.new) result
        (upper_part (block_of ring.now) from count) }
{
    put_title(out, ring, from, count)?;
    put_axes(out, ring.n, from, count, height)?;
    put_rows_opening(out)?;
    let grid = Grid {
        n: ring.n,
        columns: count + 1,
    };
    put_rows(out, grid, rows)
}

/// The marks of refused passes, and over them those of corruptions.
fn put_both_marks<W: Write>(
    out: &mut W,
    ring: &SavedRing,
    from: usize,
    count: u32,
) -> Result<(), WriteFault>
    requires columns { count + 1 < 2 ^ 32 }
    requires room { from + count < 2 ^ 63 }
    ensures { Writes (W.contents out.old) (W.contents out.new) result
        (marks_part (block_of ring.now) from count) }
{
    put(
        out,
        b"<path stroke=\"#888\" stroke-width=\"150\" stroke-linecap=\"square\" d=\"",
    )?;
    put_marks(out, ring, false, from, count)?;
    put(
        out,
        b"\"/>\n<path stroke=\"#e69f00\" stroke-width=\"500\" stroke-linecap=\"round\" d=\"",
    )?;
    put_marks(out, ring, true, from, count)
}

/// The curves, and their meaning.
fn put_lower<W: Write>(
    out: &mut W,
    ring: &SavedRing,
    from: usize,
    columns: u32,
    height: u64,
    gauge: &mut Gauge,
) -> Result<(), WriteFault>
    requires few { ring.now.n ≤ machine_limit }
    requires height { height ≡ curve_height (block_of ring.now) from columns }
    requires ring { HasRing ring.now (ring_shown (block_of ring.now) from) gauge.old }
    requires room { from + columns < 2 ^ 63 }
    ensures { Writes (W.contents out.old) (W.contents out.new) result
        (lower_part (block_of ring.now) from columns) }
{
    put_curves_opening(out, height, bound(ring.n))?;
    put_rests(out, ring, from, columns, height, gauge)?;
    put(
        out,
        b"\"/>\n<polyline stroke=\"#0a7d4f\" stroke-width=\"150\" stroke-dasharray=\"500 300\" points=\"",
    )?;
    put_calms(out, ring, from, columns, height)?;
    put_ending(out)
}

/// The picture, from its rows and from the values at its first column on.
fn write_from_rows<W: Write>(
    out: &mut W,
    ring: &SavedRing,
    from: usize,
    count: u32,
    rows: &[Row],
    base: &[u32],
    gauge: &mut Gauge,
) -> Result<(), WriteFault>
    requires few { ring.now.n ≤ machine_limit }
    requires columns { count + 1 < 2 ^ 32 }
    requires room { from + count + 1 < 2 ^ 63 }
    requires machines { length rows.now ≡ ring.now.n }
    requires rows { AreRows (block_of ring.now) from (count + 1) rows.now }
    requires same { length base.now ≡ ring.now.n }
    requires base { ring_with ring.now.k base.now ≡ ring_shown (block_of ring.now) from }
    requires gauge { HasRing ring.now (ring_shown (block_of ring.now) (from + (count + 1)))
        gauge.old }
    ensures { Writes (W.contents out.old) (W.contents out.new) result
        (picture (block_of ring.now) from count) }
{
    gauge.follow(base);
    let height = curve_height(ring, from, count + 1, gauge);
    put_upper(out, ring, from, count, height, rows)?;
    put_both_marks(out, ring, from, count)?;
    gauge.follow(base);
    put_lower(out, ring, from, count + 1, height, gauge)
}

/// Writes the picture of a ring from the place after its first `from` events on, for `count` events: a column for each place from
/// that one on up to `from + count`. After the last event of the history the ring stays as it is.
///
/// # Errors
///
/// `OutOfMemory` if there is no room for the ring's values, a count of each of its K values and the stretches of its
/// machines, and nothing is written then. `Write` at the first error of
/// the writer, an interruption too, or write of 0 bytes: the writer then holds a prefix of the picture, but not all of
/// it, after what it held.
pub fn write_picture<W: Write>(
    alloc: Global,
    out: &mut W,
    ring: &SavedRing,
    from: usize,
    count: u32,
) -> Result<(), PictureFault>
    requires some { 0 < ring.now.k }
    requires few { ring.now.n ≤ machine_limit }
    requires columns { count + 1 < 2 ^ 32 }
    requires room { from + count + 1 < 2 ^ 63 }
    ensures drawn { OnOk result (Appends (W.contents out.old) (W.contents out.new)
        (picture (block_of ring.now) from count)) }
    ensures front { IsErrOf result PictureFault.Write
        → (left : List ℕ)
        × (0 < length left)
        × Wrote (W.contents out.old) (W.contents out.new) (picture (block_of ring.now) from count)
        left }
    ensures nothing { IsErrOf result PictureFault.OutOfMemory → out.new ≡ out.old }
{
    let Ok(mut gauge) = gauge_at(alloc, ring, from) else {
        return Err(PictureFault::OutOfMemory);
    };
    let Ok(base) = Vec::from_slice(alloc, gauge.values()) else {
        return Err(PictureFault::OutOfMemory);
    };
    let Ok(rows) = walk(alloc, ring, from, count + 1, &mut gauge) else {
        return Err(PictureFault::OutOfMemory);
    };
    match write_from_rows(out, ring, from, count, &rows, &base, &mut gauge) {
        Ok(()) => Ok(()),
        Err(_) => Err(PictureFault::Write),
    }
}
