//! The rows of the machines.

ghost use Rattle.std.specs.Prelude.{◌≡◌, ◌<◌, ◌≤◌, length};
ghost use Rattle.std.specs.List.{flat_map};
ghost use Rattle.text_lines.specs.Writing.{Writes};
ghost use Rattle.ring_model.specs.Limits.{machine_limit};
ghost use Rattle.history_picture.specs.Stretches.{run_from};
ghost use Rattle.history_picture.specs.Picture.{rectangle};
ghost use Rattle.history_picture.specs.Walks.{stretch_of, stretches_to, rows_to};

use crate::page::{Grid, across, down, filled};
use crate::stretches::{Row, Run};
use itoa::Buffer;
use std::io::Write;
use text_lines::{WriteFault, put_all};

/// A run as a rectangle, in the row of a machine.
fn put_rectangle<W: Write>(
    out: &mut W,
    grid: Grid,
    machine: u32,
    run: Run,
) -> Result<(), WriteFault>
    ensures { Writes (W.contents out.old) (W.contents out.new) result
        (rectangle grid.n grid.columns machine (stretch_of run)) }
{
    let begin = across(grid.columns, run.begin);
    let wide = across(grid.columns, run.end).saturating_sub(begin);
    let mut places = (Buffer::new(), Buffer::new());
    let mut sizes = (Buffer::new(), Buffer::new());
    let x = places.0.format(begin).as_bytes();
    let y = places.1.format(down(grid.n, machine)).as_bytes();
    let width = sizes.0.format(wide).as_bytes();
    let height = sizes.1.format(filled(grid.n)).as_bytes();
    put_all(
        out,
        &[
            b"<rect x=\"",
            x,
            b"\" y=\"",
            y,
            b"\" width=\"",
            width,
            b"\" height=\"",
            height,
            b"\"/>\n",
        ],
    )
}

/// The rectangle of the run that ends before a column, where it has any.
fn put_run<W: Write>(out: &mut W, grid: Grid, machine: u32, begin: u32) -> Result<(), WriteFault>
    ensures { Writes (W.contents out.old) (W.contents out.new) result
        (flat_map (rectangle grid.n grid.columns machine) (run_from begin grid.columns)) }
{
    let end = grid.columns;
    if begin < end {
        put_rectangle(out, grid, machine, Run { begin, end })
    } else {
        Ok(())
    }
}

/// The row of a machine: a rectangle for each stretch of columns in which it is privileged.
fn put_row<W: Write>(out: &mut W, grid: Grid, machine: u32, row: &Row) -> Result<(), WriteFault>
    ensures { Writes (W.contents out.old) (W.contents out.new) result
        (flat_map (rectangle grid.n grid.columns machine) (stretches_to grid.columns row.now)) }
{
    for i in 0..row.ended.len() {
        match put_rectangle(out, grid, machine, row.ended[i]) {
            Ok(()) => {}
            Err(fault) => return Err(fault),
        }
    }
    put_run(out, grid, machine, row.begin)
}

/// Writes the rows of all machines, over the columns that were walked.
pub(crate) fn put_rows<W: Write>(out: &mut W, grid: Grid, rows: &[Row]) -> Result<(), WriteFault>
    requires { length rows.now ≤ machine_limit }
    ensures { Writes (W.contents out.old) (W.contents out.new) result
        (rows_to grid.n grid.columns rows.now) }
{
    for machine in 0..rows.len() {
        match put_row(out, grid, machine as u32, &rows[machine]) {
            Ok(()) => {}
            Err(fault) => return Err(fault),
        }
    }
    Ok(())
}
