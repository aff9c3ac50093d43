//! The writer of a ring's block in a saved text. It takes no memory.

ghost use Rattle.std.specs.Prelude.{◌<◌, ◌^◌, ◌++◌, IfOk, length, map};
ghost use Rattle.std.specs.List.{flat_map, AllByRecursion};
ghost use Rattle.text_lines.specs.Spelling.{row};
ghost use Rattle.text_lines.specs.Writing.{Writes};
ghost use Rattle.ring_state.specs.Sizes.{IsRingState};
ghost use Rattle.saved_history.specs.Spelling.{ring_line, start_line, event_line, end_line, block_text, EventFits, BlockFits};
ghost use Rattle.saved_history.specs.Versions.{latest_version};
ghost use Rattle.one_thread_ring.specs.SavedOf.{saved_event, block_by};

use crate::events::saved_event;
use crate::surveys::{SurveyLog, put_logs};
use ring_model::Event;
use ring_state::RingState;
use saved_history::put_lines::{put_end_line, put_event_line, put_ring_line};
use std::io::Write;
use text_lines::{WriteFault, put, put_numbers};

/// Writes the values of a state as one row.
fn put_values<W: Write>(out: &mut W, state: &RingState) -> Result<(), WriteFault>
    ensures { Writes (W.contents out.old) (W.contents out.new) result (row state.now.values) }
{
    let n = state.params().n() as usize;
    put_numbers(out, n, b" ", b"\n", |i| state.get(i as u32) as u64)
}

/// Writes the line of the values that a ring started from.
#[tactic(auto, using(text_lines::proofs::Writing::writes_then))]
fn put_start<W: Write>(out: &mut W, start: &RingState) -> Result<(), WriteFault>
    ensures { Writes (W.contents out.old) (W.contents out.new) result
        (start_line start.now.values) }
{
    match put(out, b"start ") {
        Ok(()) => put_values(out, start),
        Err(fault) => Err(fault),
    }
}

/// Writes a line for each event.
fn put_events<W: Write>(out: &mut W, history: &[Event]) -> Result<(), WriteFault>
    ensures written { Writes (W.contents out.old) (W.contents out.new) result
        (flat_map event_line (map saved_event history.now)) }
    ensures fits { IfOk result
        (λ _. AllByRecursion (EventFits latest_version) (map saved_event history.now)) }
{
    for event in history {
        match put_event_line(out, saved_event(*event)) {
            Ok(()) => {}
            Err(fault) => return Err(fault),
        }
    }
    Ok(())
}

/// Writes the events, and the line that ends them.
#[tactic(auto, using(text_lines::proofs::Writing::writes_then))]
fn put_history<W: Write>(out: &mut W, history: &[Event]) -> Result<(), WriteFault>
    ensures written { Writes (W.contents out.old) (W.contents out.new) result
        (flat_map event_line (map saved_event history.now) ++ end_line (length history.now)) }
    ensures fits { IfOk result
        (λ _. AllByRecursion (EventFits latest_version) (map saved_event history.now)) }
    ensures few { IfOk result (λ _. length history.now < 2 ^ 64) }
{
    match put_events(out, history) {
        Ok(()) => put_end_line(out, history.len() as u64),
        Err(fault) => Err(fault),
    }
}

/// Writes the first line of a ring, which says its place and its size.
fn put_size<W: Write>(out: &mut W, place: u32, start: &RingState) -> Result<(), WriteFault>
    ensures written { Writes (W.contents out.old) (W.contents out.new) result
        (ring_line place (length start.now.values) start.now.k) }
    ensures ring { IsRingState start.now }
{
    let size = start.params();
    put_ring_line(out, place, size.n(), size.k())
}

/// Writes the block of a ring at its place in a saved text: its start, its history, and the surveys that its seats were
/// given, seat by seat. The block fits in the latest version.
///
/// It takes no memory, does not flush, and calls the writer a few times for each line.
///
/// # Errors
///
/// `WriteFault` at the first error of the writer, an interruption too, or write of 0 bytes. The writer then holds a
/// proper prefix of the block, after what it held.
pub fn put_block<W: Write, L: SurveyLog>(
    out: &mut W,
    place: u32,
    start: &RingState,
    history: &[Event],
    logs: &[L],
) -> Result<(), WriteFault>
    ensures written { Writes (W.contents out.old) (W.contents out.new) result
        (block_text (block_by place start.now history.now (flat_map L.surveys logs.now))) }
    ensures fits { IfOk result (λ _. BlockFits latest_version
        (block_by place start.now history.now (flat_map L.surveys logs.now))) }
{
    put_size(out, place, start)?;
    put_start(out, start)?;
    put_history(out, history)?;
    put_logs(out, logs)?;
    Ok(())
}
