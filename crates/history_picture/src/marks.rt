//! The marks of events: corruptions, and passes that were refused.

ghost use Rattle.std.specs.Prelude.{◌≡◌, ◌+◌, ◌<◌, ◌^◌, ◌++◌, slice_get, codes, decimal};
ghost use Rattle.text_lines.specs.Writing.{Writes};
ghost use Rattle.saved_history.specs.Content.{block_of};
ghost use Rattle.history_picture.specs.Picture.{marked, mark, mark_at, mark_of, mark_in, marks_text};

use crate::page::{across, down, filled, quarter};
use itoa::Buffer;
use saved_history::{SavedEvent, SavedRing};
use std::io::Write;
use text_lines::{WriteFault, put_all};

/// The machine at which an event has a mark.
fn marked_machine(corruptions: bool, event: SavedEvent) -> Option<u32>
    ensures { result ≡ marked corruptions event }
{
    match event {
        SavedEvent::Granted { .. } | SavedEvent::Member { .. } => None,
        SavedEvent::Refused { machine, .. } => { if corruptions { None } else { Some(machine) } }
        SavedEvent::Corrupted { machine, .. } => { if corruptions { Some(machine) } else { None } }
    }
}

/// A line down the page.
fn put_line<W: Write>(out: &mut W, x: u64, y: u64, long: u32) -> Result<(), WriteFault>
    ensures { Writes (W.contents out.old) (W.contents out.new) result
        (codes "M" ++ (decimal x ++ (codes " " ++ (decimal y ++ (codes "v" ++ decimal long))))) }
{
    let mut buffers = (Buffer::new(), Buffer::new(), Buffer::new());
    let x = buffers.0.format(x).as_bytes();
    let y = buffers.1.format(y).as_bytes();
    let long = buffers.2.format(long).as_bytes();
    put_all(out, &[b"M", x, b" ", y, b"v", long])
}

/// A mark between two columns, in the row of a machine.
fn put_mark<W: Write>(
    out: &mut W,
    n: u32,
    corruptions: bool,
    x: u64,
    machine: u32,
) -> Result<(), WriteFault>
    requires { 0 < n }
    ensures { Writes (W.contents out.old) (W.contents out.new) result
        (mark n corruptions x machine) }
{
    let top = down(n, machine);
    if corruptions {
        put_line(out, x, top, filled(n))
    } else {
        put_line(out, x, top + quarter(n) as u64, quarter(n))
    }
}

/// The mark of an event, where it has one.
fn put_mark_of<W: Write>(
    out: &mut W,
    n: u32,
    corruptions: bool,
    x: u64,
    event: Option<SavedEvent>,
) -> Result<(), WriteFault>
    requires { 0 < n }
    ensures { Writes (W.contents out.old) (W.contents out.new) result
        (mark_of n corruptions x event) }
{
    let Some(event) = event else {
        return Ok(());
    };
    match marked_machine(corruptions, event) {
        Some(machine) => put_mark(out, n, corruptions, x, machine),
        None => Ok(()),
    }
}

/// The event at a place, if there is one.
fn event_at(ring: &SavedRing, place: usize) -> Option<SavedEvent>
    ensures { result ≡ slice_get ring.now.events.items place }
{
    if place < ring.events.len() {
        Some(ring.events[place])
    } else {
        None
    }
}

/// Writes the marks of `count` events.
pub(crate) fn put_marks<W: Write>(
    out: &mut W,
    ring: &SavedRing,
    corruptions: bool,
    from: usize,
    count: u32,
) -> Result<(), WriteFault>
    requires columns { count + 1 < 2 ^ 32 }
    requires room { from + count < 2 ^ 63 }
    ensures { Writes (W.contents out.old) (W.contents out.new) result
        (marks_text (block_of ring.now) corruptions from count) }
{
    for column in 0..count {
        let event = event_at(ring, from + column as usize);
        let x = across(count + 1, column + 1);
        match put_mark_of(out, ring.n, corruptions, x, event) {
            Ok(()) => {}
            Err(fault) => return Err(fault),
        }
    }
    Ok(())
}
