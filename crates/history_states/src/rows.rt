//! The writer of a row.

ghost use Rattle.std.specs.Prelude.{◌≡◌, ◌++◌};
ghost use Rattle.std.specs.List.{flat_map};
ghost use Rattle.std.specs.Fmt.{decimal};
ghost use Rattle.text_lines.specs.Writing.{Writes};
ghost use Rattle.ring_model.specs.Ring.{rest};
ghost use Rattle.ring_check.specs.Gauges.{ring_of, IsGauge};
ghost use Rattle.history_states.specs.Cells.{first_text, last_text, cell_text};
ghost use Rattle.history_states.specs.Rows.{privileged_of, row_cells, row_text};

use crate::calls::Call;
use crate::cells::{Cell, put_cells};
use crate::form::{Form, first_text, last_text};
use itoa::Buffer;
use ring_check::Gauge;
use ring_model::plain::privileged_count;
use std::io::Write;
use text_lines::{WriteFault, put, put_all};

/// Where a row is: of which ring, and after how many of its events.
#[derive(Clone, Copy)]
pub(crate) struct Place {
    pub(crate) index: u32,
    pub(crate) events: usize,
    pub(crate) calm: u64,
}

/// Writes what a row begins with.
fn put_front<W: Write>(out: &mut W, form: Form, index: u32) -> Result<(), WriteFault>
    ensures { Writes (W.contents out.old) (W.contents out.new) result
        (first_text form ++ decimal index) }
{
    let mut buffer = Buffer::new();
    put_all(out, &[first_text(form), buffer.format(index).as_bytes()])
}

/// Writes the cells of a row after the ring's index.
fn put_state<'x, W: Write>(
    out: &mut W,
    form: Form,
    place: Place,
    kind: &'static [u8],
    call: Call,
    gauge: &'x Gauge,
    at: &'x [u32],
) -> Result<(), WriteFault>
    requires gauge { IsGauge gauge.now }
    requires at { at.now ≡ privileged_of (ring_of gauge.now).values }
    ensures { Writes (W.contents out.old) (W.contents out.new) result
        (flat_map (cell_text form)
        (row_cells place.events kind.now call (ring_of gauge.now) place.calm)) }
{
    let values = gauge.values();
    put_cells(
        out,
        form,
        &[
            Cell::Number(b"event", Some(place.events as u64)),
            Cell::Word(b"kind", kind),
            Cell::Number(b"seat", call.seat),
            Cell::Number(b"machine", call.machine),
            Cell::Number(b"order", call.order),
            Cell::Number(b"left", call.left),
            Cell::Number(b"number", call.number),
            Cell::Number(b"result", call.result),
            Cell::Number(b"value", call.value),
            Cell::Number(b"old", call.old),
            Cell::Numbers(b"states", values),
            Cell::Number(b"privileged", Some(privileged_count(values) as u64)),
            Cell::Numbers(b"at", at),
            Cell::Number(b"rest", Some(gauge.rest())),
            Cell::Number(b"calm", Some(place.calm)),
        ],
    )
}

/// Writes a row after the ring's index.
#[tactic(auto, using(text_lines::proofs::Writing::writes_then))]
fn put_body<'x, W: Write>(
    out: &mut W,
    form: Form,
    place: Place,
    kind: &'static [u8],
    call: Call,
    gauge: &'x Gauge,
    at: &'x [u32],
) -> Result<(), WriteFault>
    requires gauge { IsGauge gauge.now }
    requires at { at.now ≡ privileged_of (ring_of gauge.now).values }
    ensures { Writes (W.contents out.old) (W.contents out.new) result
        (flat_map (cell_text form)
        (row_cells place.events kind.now call (ring_of gauge.now) place.calm) ++ last_text form) }
{
    match put_state(out, form, place, kind, call, gauge, at) {
        Ok(()) => put(out, last_text(form)),
        Err(fault) => Err(fault),
    }
}

/// Writes a row.
#[tactic(auto, using(text_lines::proofs::Writing::writes_then))]
pub(crate) fn put_row<'x, W: Write>(
    out: &mut W,
    form: Form,
    place: Place,
    kind: &'static [u8],
    call: Call,
    gauge: &'x Gauge,
    at: &'x [u32],
) -> Result<(), WriteFault>
    requires gauge { IsGauge gauge.now }
    requires at { at.now ≡ privileged_of (ring_of gauge.now).values }
    ensures { Writes (W.contents out.old) (W.contents out.new) result
        (row_text form place.index place.events kind.now call (ring_of gauge.now) place.calm) }
{
    match put_front(out, form, place.index) {
        Ok(()) => put_body(out, form, place, kind, call, gauge, at),
        Err(fault) => Err(fault),
    }
}
