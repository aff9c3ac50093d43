//! The stretches of columns in which each machine is privileged, found in one walk over the columns.

ghost use Rattle.std.specs.Prelude.{◌≡◌, ◌+◌, ◌<◌, ◌^◌, [], length, vec_len, IfOk};
ghost use Rattle.saved_history.specs.Content.{block_of};
ghost use Rattle.history_picture.specs.Picture.{ring_shown};
ghost use Rattle.history_steps.specs.Steps.{HasRing};
ghost use Rattle.history_picture.specs.Walks.{IsLooked, AreLooked, AreNew, AreRows};

use crate::columns::go_on;
use ring_check::Gauge;
use ring_model::plain::is_privileged;
use saved_history::SavedRing;
use std::alloc::{AllocError, Global};

/// Columns from one on up to another, which is not among them.
#[derive(Clone, Copy)]
pub(crate) struct Run {
    pub(crate) begin: u32,
    pub(crate) end: u32,
}

/// The runs of columns in which a machine is privileged, as far as they were walked.
#[derive(Drop)]
pub(crate) struct Row {
    /// Where the run begins that ends before the next column.
    pub(crate) begin: u32,
    /// The runs that a column has ended.
    pub(crate) ended: Vec<Run>,
}

impl Row {
    /// Looks at one column more.
    fn look(&mut self, column: u32, privileged: bool) -> Result<(), AllocError>
        requires { column + 1 < 2 ^ 32 }
        ensures { IfOk result (λ done. IsLooked column privileged self.old self.new) }
    {
        if privileged {
            return Ok(());
        }
        if self.begin < column {
            self.ended.push(Run {
                begin: self.begin,
                end: column,
            })?;
        }
        self.begin = column + 1;
        Ok(())
    }
}

/// The rows of `n` machines, before any column.
fn new_rows(alloc: Global, n: u32) -> Result<Vec<Row>, AllocError>
    ensures len { IfOk result (λ rows. vec_len rows ≡ n) }
    ensures new { IfOk result (λ rows. AreNew rows.items) }
{
    let mut rows = Vec::new(alloc);
    for _machine in 0..n {
        rows.push(Row {
            begin: 0,
            ended: Vec::new(alloc),
        })?;
    }
    Ok(rows)
}

/// Looks at each machine in one column more.
fn look_at_each(rows: &mut Vec<Row>, values: &[u32], column: u32) -> Result<(), AllocError>
    requires same { vec_len rows.old ≡ length values.now }
    requires room { column + 1 < 2 ^ 32 }
    ensures len { IfOk result (λ done. vec_len rows.new ≡ vec_len rows.old) }
    ensures looked { IfOk result
        (λ done. AreLooked column values.now rows.old.items rows.new.items) }
{
    for machine in 0..values.len() {
        let row = &mut rows[machine];
        row.look(column, is_privileged(values, machine))?;
    }
    Ok(())
}

/// The stretches of each machine over columns from a place of the history on, the place of the gauge.
pub(crate) fn walk(
    alloc: Global,
    ring: &SavedRing,
    from: usize,
    columns: u32,
    gauge: &mut Gauge,
) -> Result<Vec<Row>, AllocError>
    requires ring { HasRing ring.now (ring_shown (block_of ring.now) from) gauge.old }
    requires room { from + columns < 2 ^ 63 }
    ensures ring { IfOk result
        (λ rows. HasRing ring.now (ring_shown (block_of ring.now) (from + columns)) gauge.new) }
    ensures len { IfOk result (λ rows. vec_len rows ≡ ring.now.n) }
    ensures rows { IfOk result (λ rows. AreRows (block_of ring.now) from columns rows.items) }
{
    let mut rows = new_rows(alloc, ring.n)?;
    for column in 0..columns {
        look_at_each(&mut rows, gauge.values(), column)?;
        go_on(ring, from + column as usize, gauge);
    }
    Ok(rows)
}
