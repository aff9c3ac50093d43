//! The writers of rows.

ghost use Rattle.std.specs.Prelude.{◌≡◌, ◌<◌, ◌≤◌, ◌++◌, ℕ, IfOk, length, slice_index, codes};
ghost use Rattle.ring_model.specs.Limits.{machine_limit};
ghost use Rattle.std.specs.Fmt.{decimal};
ghost use Rattle.std.specs.List.{flat_map};
ghost use Rattle.text_lines.specs.Writing.{Writes};
ghost use Rattle.history_states.specs.Cells.{cell_text};
ghost use Rattle.history_states.specs.Rows.{privileged_of};
ghost use Rattle.history_states.specs.Tables.{HasTable};
ghost use Rattle.step_states.specs.Rows.{row_cells, row_text, rows};

use crate::asked::{Asked, ask, kind_of, machine_of, number_of};
use history_states::{Cell, Form, StatesFault, privileged_of, put_cells};
use itoa::Buffer;
use ring_settle::rest;
use ring_state::RingState;
use std::alloc::{AllocError, Global};
use std::io::Write;
use text_lines::{WriteFault, put, put_all};

/// What a row says of the choices before it.
#[derive(Clone, Copy)]
struct Place {
    choices: usize,
    last: Option<Asked>,
    grants: u64,
}

/// The values of a ring's machines.
fn values_of(alloc: Global, ring: &RingState) -> Result<Vec<u32>, AllocError>
    ensures values { IfOk result (λ values. values.items ≡ ring.now.values) }
    ensures few { IfOk result (λ values. length values.items ≤ machine_limit) }
{
    let mut values = Vec::new(alloc);
    for machine in 0..ring.params().n() {
        values.push(ring.get(machine))?;
    }
    Ok(values)
}

/// Writes the cells of a row after the number of choices.
fn put_row_cells<'x, W: Write>(
    out: &mut W,
    place: Place,
    ring: &'x RingState,
    values: &'x [u32],
    at: &'x [u32],
) -> Result<(), WriteFault>
    requires values { values.now ≡ ring.now.values }
    requires at { at.now ≡ privileged_of ring.now.values }
    ensures { Writes (W.contents out.old) (W.contents out.new) result
        (flat_map (cell_text Form.Words) (row_cells place.last ring.now place.grants)) }
{
    put_cells(
        out,
        Form::Words,
        &[
            Cell::Word(b"kind", kind_of(place.last)),
            Cell::Number(b"machine", machine_of(place.last)),
            Cell::Number(b"number", number_of(place.last, place.grants)),
            Cell::Numbers(b"states", values),
            Cell::Number(b"privileged", Some(ring.privileged() as u64)),
            Cell::Numbers(b"at", at),
            Cell::Number(b"rest", Some(rest(ring))),
            Cell::Number(b"calm", Some(place.grants)),
        ],
    )
}

/// Writes a row after the number of choices.
#[tactic(auto, using(text_lines::proofs::Writing::writes_then))]
fn put_body<'x, W: Write>(
    out: &mut W,
    place: Place,
    ring: &'x RingState,
    values: &'x [u32],
    at: &'x [u32],
) -> Result<(), WriteFault>
    requires values { values.now ≡ ring.now.values }
    requires at { at.now ≡ privileged_of ring.now.values }
    ensures { Writes (W.contents out.old) (W.contents out.new) result
        (flat_map (cell_text Form.Words) (row_cells place.last ring.now place.grants) ++ codes "\n") }
{
    match put_row_cells(out, place, ring, values, at) {
        Ok(()) => put(out, b"\n"),
        Err(fault) => Err(fault),
    }
}

/// Writes what a row begins with: how many choices there were.
fn put_front<W: Write>(out: &mut W, choices: usize) -> Result<(), WriteFault>
    ensures { Writes (W.contents out.old) (W.contents out.new) result
        (codes "event " ++ decimal choices) }
{
    let mut buffer = Buffer::new();
    put_all(out, &[b"event ", buffer.format(choices).as_bytes()])
}

/// Writes a row.
#[tactic(auto, using(text_lines::proofs::Writing::writes_then))]
fn put_row<'x, W: Write>(
    out: &mut W,
    place: Place,
    ring: &'x RingState,
    values: &'x [u32],
    at: &'x [u32],
) -> Result<(), WriteFault>
    requires values { values.now ≡ ring.now.values }
    requires at { at.now ≡ privileged_of ring.now.values }
    ensures { Writes (W.contents out.old) (W.contents out.new) result
        (row_text place.choices place.last ring.now place.grants) }
{
    match put_front(out, place.choices) {
        Ok(()) => put_body(out, place, ring, values, at),
        Err(fault) => Err(fault),
    }
}

/// Writes the row of a ring as it is.
fn put_state<W: Write>(
    alloc: Global,
    out: &mut W,
    place: Place,
    ring: &RingState,
) -> Result<(), StatesFault>
    ensures { HasTable (W.contents out.old) (W.contents out.new) result
        (row_text place.choices place.last ring.now place.grants) }
{
    let Ok(values) = values_of(alloc, ring) else {
        return Err(StatesFault::OutOfMemory);
    };
    let Ok(at) = privileged_of(alloc, values.as_slice()) else {
        return Err(StatesFault::OutOfMemory);
    };
    match put_row(out, place, ring, values.as_slice(), at.as_slice()) {
        Ok(()) => Ok(()),
        Err(_) => Err(StatesFault::Write),
    }
}

/// Lets each chosen machine of a ring ask to pass, one after the other, and writes a row for the state before the first
/// choice and for the one after each.
///
/// Memory is asked for a row at a time.
///
/// # Errors
///
/// `Write` where the writer fails: it holds a prefix of the rows then, but not all of them; and `OutOfMemory`, with a prefix.
pub fn write_rows<W: Write>(
    alloc: Global,
    out: &mut W,
    mut ring: RingState,
    choices: &[u32],
) -> Result<(), StatesFault>
    requires { (i : ℕ) → i < length choices.now → slice_index choices.now i < length ring.values }
    ensures { HasTable (W.contents out.old) (W.contents out.new) result (rows ring choices.now) }
{
    let mut place = Place {
        choices: 0,
        last: None,
        grants: 0,
    };
    for choice in choices {
        match put_state(alloc, out, place, &ring) {
            Ok(()) => {}
            Err(fault) => return Err(fault),
        }
        let asked = ask(&mut ring, *choice);
        place = Place {
            choices: place.choices + 1,
            last: Some(asked),
            grants: place.grants + asked.granted as u64,
        };
    }
    put_state(alloc, out, place, &ring)
}
