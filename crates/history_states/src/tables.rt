//! The writers of tables.

ghost use Rattle.std.specs.Prelude.{◌≡◌, ◌<◌, ◌≤◌, ◌^◌, ◌++◌, map};
ghost use Rattle.std.specs.List.{All, flat_map};
ghost use Rattle.ring_model.specs.Limits.{machine_limit};
ghost use Rattle.saved_history.specs.Content.{block_of};
ghost use Rattle.history_steps.specs.Steps.{ring_at, calm_at, HasRing};
ghost use Rattle.history_states.specs.Cells.{header};
ghost use Rattle.history_states.specs.Rows.{row, rows, table};
ghost use Rattle.history_states.specs.Tables.{HasTable, IsSized};

use crate::calls::{call_of, kind_of, last_event, privileged_of};
use crate::form::{Form, header};
use crate::rows::{Place, put_row};
use history_steps::{calm_step, gauge_of, step_on};
use ring_check::Gauge;
use saved_history::SavedRing;
use std::alloc::Global;
use std::io::Write;
use text_lines::put;

/// Why a table is not whole.
#[derive(Clone, Copy, Debug, PartialEq, Eq)]
pub enum StatesFault {
    /// The writer failed, or took no byte.
    Write,
    /// There is no room for a ring's values, and for a list of its privileged machines.
    OutOfMemory,
}

/// Writes the row after the first `events` events of a ring, which the gauge has.
fn put_row_at<W: Write>(
    alloc: Global,
    out: &mut W,
    form: Form,
    ring: &SavedRing,
    place: Place,
    gauge: &Gauge,
) -> Result<(), StatesFault>
    requires index { place.index ≡ ring.now.index }
    requires ring { HasRing ring.now (ring_at (block_of ring.now) place.events) gauge.now }
    requires calm { place.calm ≡ calm_at (block_of ring.now) place.events }
    ensures { HasTable (W.contents out.old) (W.contents out.new) result
        (row form (block_of ring.now) place.events) }
{
    let Ok(at) = privileged_of(alloc, gauge.values()) else {
        return Err(StatesFault::OutOfMemory);
    };
    let event = last_event(ring, place.events);
    match put_row(
        out,
        form,
        place,
        kind_of(event),
        call_of(event),
        gauge,
        at.as_slice(),
    ) {
        Ok(()) => Ok(()),
        Err(_) => Err(StatesFault::Write),
    }
}

/// Writes the rows of a ring: the state before its first event, and the one after each.
fn put_rows<W: Write>(
    alloc: Global,
    out: &mut W,
    form: Form,
    ring: &SavedRing,
) -> Result<(), StatesFault>
    requires { IsSized ring.now }
    ensures { HasTable (W.contents out.old) (W.contents out.new) result
        (rows form (block_of ring.now)) }
{
    let Ok(mut gauge) = gauge_of(alloc, ring) else {
        return Err(StatesFault::OutOfMemory);
    };
    let mut calm = 0;
    let last = ring.events.len();
    for events in 0..last {
        let place = Place {
            index: ring.index,
            events,
            calm,
        };
        match put_row_at(alloc, out, form, ring, place, &gauge) {
            Ok(()) => {}
            Err(fault) => return Err(fault),
        }
        step_on(ring, events, &mut gauge);
        calm = calm_step(ring, events, calm);
    }
    let place = Place {
        index: ring.index,
        events: last,
        calm,
    };
    put_row_at(alloc, out, form, ring, place, &gauge)
}

/// Writes the rows of rings, one ring after the other.
fn put_rings<W: Write>(
    alloc: Global,
    out: &mut W,
    form: Form,
    rings: &[SavedRing],
) -> Result<(), StatesFault>
    requires { All IsSized rings.now }
    ensures { HasTable (W.contents out.old) (W.contents out.new) result
        (flat_map (rows form) (map block_of rings.now)) }
{
    for ring in rings {
        match put_rows(alloc, out, form, ring) {
            Ok(()) => {}
            Err(fault) => return Err(fault),
        }
    }
    Ok(())
}

/// Writes the line of the names.
fn put_header<W: Write>(out: &mut W, form: Form) -> Result<(), StatesFault>
    ensures { HasTable (W.contents out.old) (W.contents out.new) result (header form) }
{
    match put(out, header(form)) {
        Ok(()) => Ok(()),
        Err(_) => Err(StatesFault::Write),
    }
}

/// Writes the table of the states of rings: of each the one before its first event, and the one after each. An event
/// may be any; that the history is legal is not asked for.
///
/// Memory is asked for a ring at a time, and for a row.
///
/// # Errors
///
/// `Write` where the writer fails: it holds a prefix of the table then, but not all of it; and `OutOfMemory`, with a prefix.
pub fn write_states<W: Write>(
    alloc: Global,
    out: &mut W,
    form: Form,
    rings: &[SavedRing],
) -> Result<(), StatesFault>
    requires { All IsSized rings.now }
    ensures { HasTable (W.contents out.old) (W.contents out.new) result
        (table form (map block_of rings.now)) }
{
    match put_header(out, form) {
        Ok(()) => put_rings(alloc, out, form, rings),
        Err(fault) => Err(fault),
    }
}

/// Writes the table of the states of one ring.
///
/// # Errors
///
/// As [`write_states`].
pub fn write_ring<W: Write>(
    alloc: Global,
    out: &mut W,
    form: Form,
    ring: &SavedRing,
) -> Result<(), StatesFault>
    requires { IsSized ring.now }
    ensures { HasTable (W.contents out.old) (W.contents out.new) result
        (header form ++ rows form (block_of ring.now)) }
{
    match put_header(out, form) {
        Ok(()) => put_rows(alloc, out, form, ring),
        Err(fault) => Err(fault),
    }
}
