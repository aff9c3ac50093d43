//! The curves of the rest and of the calm.

ghost use Rattle.std.specs.Prelude.{◌≡◌, ◌+◌, ◌<◌, ◌≤◌, ◌^◌};
ghost use Rattle.text_lines.specs.Writing.{Writes};
ghost use Rattle.ring_model.specs.Limits.{machine_limit};
ghost use Rattle.ring_model.specs.Ring.{bound};
ghost use Rattle.saved_history.specs.Content.{block_of};
ghost use Rattle.history_picture.specs.Picture.{ring_shown, highest_rest, height_of, curve_height, point, rest_points, calm_points};
ghost use Rattle.history_steps.specs.Steps.{HasRing};

use crate::columns::{calm_on, calm_to, go_on};
use crate::page::{middle, up};
use itoa::Buffer;
use ring_check::Gauge;
use ring_model::plain::bound;
use saved_history::SavedRing;
use std::io::Write;
use text_lines::{WriteFault, put_all};

/// The highest rest of `columns` columns.
fn highest_rest(ring: &SavedRing, from: usize, columns: u32, gauge: &mut Gauge) -> u64
    requires ring { HasRing ring.now (ring_shown (block_of ring.now) from) gauge.old }
    requires room { from + columns < 2 ^ 63 }
    ensures highest { result ≡ highest_rest (block_of ring.now) from columns }
    ensures ring { HasRing ring.now (ring_shown (block_of ring.now) (from + columns)) gauge.new }
{
    let mut highest: u64 = 0;
    for column in 0..columns {
        highest = highest.max(gauge.rest());
        go_on(ring, from + column as usize, gauge);
    }
    highest
}

/// The number at the top of the curves: the bound, or the highest rest if that is less than a quarter of it.
fn height_of(highest: u64, limit: u64) -> u64
    ensures { result ≡ height_of highest limit }
{
    if 0 < highest && highest < limit / 4 {
        highest
    } else {
        limit
    }
}

/// The number at the top of the curves of `columns` columns.
pub(crate) fn curve_height(ring: &SavedRing, from: usize, columns: u32, gauge: &mut Gauge) -> u64
    requires few { ring.now.n ≤ machine_limit }
    requires ring { HasRing ring.now (ring_shown (block_of ring.now) from) gauge.old }
    requires room { from + columns < 2 ^ 63 }
    ensures height { result ≡ curve_height (block_of ring.now) from columns }
    ensures ring { HasRing ring.now (ring_shown (block_of ring.now) (from + columns)) gauge.new }
{
    let highest = highest_rest(ring, from, columns, gauge);
    height_of(highest, bound(ring.n))
}

/// One point of a curve: in the middle of a column, as high as a number is.
fn put_point<W: Write>(
    out: &mut W,
    columns: u32,
    height: u64,
    column: u32,
    number: u64,
) -> Result<(), WriteFault>
    requires { 0 < columns }
    ensures { Writes (W.contents out.old) (W.contents out.new) result
        (point columns height column number) }
{
    let mut buffers = (Buffer::new(), Buffer::new());
    let x = buffers.0.format(middle(columns, column)).as_bytes();
    let y = buffers.1.format(up(height, number)).as_bytes();
    put_all(out, &[x, b",", y, b" "])
}

/// The rest in each column.
pub(crate) fn put_rests<W: Write>(
    out: &mut W,
    ring: &SavedRing,
    from: usize,
    columns: u32,
    height: u64,
    gauge: &mut Gauge,
) -> Result<(), WriteFault>
    requires height { height ≡ curve_height (block_of ring.now) from columns }
    requires ring { HasRing ring.now (ring_shown (block_of ring.now) from) gauge.old }
    requires room { from + columns < 2 ^ 63 }
    ensures { Writes (W.contents out.old) (W.contents out.new) result
        (rest_points (block_of ring.now) from columns) }
{
    for column in 0..columns {
        match put_point(out, columns, height, column, gauge.rest()) {
            Ok(()) => {}
            Err(fault) => return Err(fault),
        }
        go_on(ring, from + column as usize, gauge);
    }
    Ok(())
}

/// The calm in each column.
pub(crate) fn put_calms<W: Write>(
    out: &mut W,
    ring: &SavedRing,
    from: usize,
    columns: u32,
    height: u64,
) -> Result<(), WriteFault>
    requires height { height ≡ curve_height (block_of ring.now) from columns }
    requires room { from + columns < 2 ^ 63 }
    ensures { Writes (W.contents out.old) (W.contents out.new) result
        (calm_points (block_of ring.now) from columns) }
{
    let mut calm = calm_to(ring, from);
    for column in 0..columns {
        match put_point(out, columns, height, column, calm) {
            Ok(()) => {}
            Err(fault) => return Err(fault),
        }
        calm = calm_on(ring, from + column as usize, calm);
    }
    Ok(())
}
