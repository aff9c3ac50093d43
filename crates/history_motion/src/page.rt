//! The picture: its opening, the machines, and what is below them.

ghost use Rattle.std.specs.Prelude.{◌≡◌, ◌+◌, ◌<◌, ◌≤◌, ◌^◌, ◌++◌, IfOk, OnOk, length};
ghost use Rattle.text_lines.specs.Writing.{Writes};
ghost use Rattle.ring_model.specs.Limits.{machine_limit};
ghost use Rattle.saved_history.specs.Content.{block_of};
ghost use Rattle.history_motion.specs.Motion.{opening, bar, legend, motion};
ghost use Rattle.history_motion.specs.Walks.{AreSeen};

use crate::machines::{duration, put_machines};
use crate::seen::{Seen, all_seen};
use itoa::Buffer;
use saved_history::SavedRing;
use std::alloc::{AllocError, Global};
use std::io::Write;
use text_lines::{WriteFault, put, put_all};

/// The head, the title and the circle.
fn put_opening<W: Write>(
    out: &mut W,
    ring: &SavedRing,
    from: usize,
    count: u32,
) -> Result<(), WriteFault>
    requires { from + count < 2 ^ 63 }
    ensures { Writes (W.contents out.old) (W.contents out.new) result
        (opening (block_of ring.now) from count) }
{
    let mut sizes = (Buffer::new(), Buffer::new(), Buffer::new());
    let mut places = (Buffer::new(), Buffer::new(), Buffer::new());
    let index = sizes.0.format(ring.index).as_bytes();
    let n = sizes.1.format(ring.n).as_bytes();
    let k = sizes.2.format(ring.k).as_bytes();
    let first = places.0.format(from).as_bytes();
    let last = places.1.format(from + count as usize).as_bytes();
    let events = places.2.format(ring.events.len()).as_bytes();
    put_all(
        out,
        &[
            b"<svg xmlns=\"http://www.w3.org/2000/svg\" viewBox=\"0 0 1000 680\" font-family=\"sans-serif\" font-size=\"15\">\n<rect width=\"1000\" height=\"680\" rx=\"8\" fill=\"#fff\"/>\n<text x=\"70\" y=\"36\" font-size=\"22\">ring ",
            index,
            b": n ",
            n,
            b", K ",
            k,
            b"</text>\n<text x=\"70\" y=\"62\">events ",
            first,
            b" to ",
            last,
            b" of ",
            events,
            b"</text>\n<g transform=\"translate(500 320)\">\n<circle r=\"200\" fill=\"none\" stroke=\"#ccc\" stroke-width=\"2\"/>\n",
        ],
    )
}

/// The bar that grows with the columns.
fn put_bar<W: Write>(out: &mut W, from: usize, count: u32) -> Result<(), WriteFault>
    requires { from + count < 2 ^ 63 }
    ensures { Writes (W.contents out.old) (W.contents out.new) result (bar from count) }
{
    let mut buffers = (Buffer::new(), Buffer::new(), Buffer::new());
    let time = buffers.0.format(duration(count as usize + 1)).as_bytes();
    let first = buffers.1.format(from).as_bytes();
    let last = buffers.2.format(from + count as usize).as_bytes();
    put_all(
        out,
        &[
            b"</g>\n<rect x=\"70\" y=\"590\" width=\"860\" height=\"8\" fill=\"#ddd\"/>\n<rect x=\"70\" y=\"590\" width=\"0\" height=\"8\" fill=\"#555\"><animate attributeName=\"width\" dur=\"",
            time,
            b"ms\" repeatCount=\"indefinite\" from=\"0\" to=\"860\"/></rect>\n<text x=\"70\" y=\"618\">",
            first,
            b"</text>\n<text x=\"500\" y=\"618\" text-anchor=\"middle\">events</text>\n<text x=\"930\" y=\"618\" text-anchor=\"end\">",
            last,
            b"</text>\n",
        ],
    )
}

/// What the circles mean.
fn put_legend<W: Write>(out: &mut W) -> Result<(), WriteFault>
    ensures { Writes (W.contents out.old) (W.contents out.new) result legend }
{
    put(
        out,
        b"<circle cx=\"78\" cy=\"648\" r=\"8\" fill=\"#15489f\"/>\n<text x=\"94\" y=\"653\">privileged</text>\n<circle cx=\"218\" cy=\"648\" r=\"8\" fill=\"none\" stroke=\"#e69f00\" stroke-width=\"4\"/>\n<text x=\"236\" y=\"653\">corruption</text>\n<text x=\"350\" y=\"653\">each event takes 0.4 s; then it begins anew</text>\n</svg>\n",
    )
}

/// What is below the machines.
#[tactic(auto, using(text_lines::proofs::Writing::writes_then))]
fn put_below<W: Write>(out: &mut W, from: usize, count: u32) -> Result<(), WriteFault>
    requires { from + count < 2 ^ 63 }
    ensures { Writes (W.contents out.old) (W.contents out.new) result (bar from count ++ legend) }
{
    match put_bar(out, from, count) {
        Ok(()) => put_legend(out),
        Err(fault) => Err(fault),
    }
}

/// Writes the picture, from what is seen of each machine.
fn put_motion<W: Write>(
    out: &mut W,
    ring: &SavedRing,
    from: usize,
    count: u32,
    seen: &[Seen],
) -> Result<(), WriteFault>
    requires room { from + count < 2 ^ 63 }
    requires columns { count + 1 < 2 ^ 32 }
    requires seen { AreSeen (block_of ring.now) from (count + 1) seen.now }
    ensures { Writes (W.contents out.old) (W.contents out.new) result
        (motion (block_of ring.now) from count) }
{
    match put_opening(out, ring, from, count) {
        Ok(()) => match put_machines(out, ring, from, count + 1, seen) {
            Ok(()) => put_below(out, from, count),
            Err(fault) => Err(fault),
        },
        Err(fault) => Err(fault),
    }
}

/// Returns the ring of a block in motion, as an SVG: the state after its first `from` events, and after each of the `count` next
/// ones. That the history is legal is not asked for; past the last event the ring stays as it is.
///
/// # Errors
///
/// If there is no room for the picture, or for the values of the machines in each column.
pub fn motion(
    alloc: Global,
    ring: &SavedRing,
    from: usize,
    count: u32,
) -> Result<Vec<u8>, AllocError>
    requires some { 0 < ring.now.k }
    requires few { ring.now.n ≤ machine_limit }
    requires columns { count + 1 < 2 ^ 32 }
    requires room { from + count + 1 < 2 ^ 63 }
    ensures { IfOk result (λ text. text.items ≡ motion (block_of ring.now) from count) }
{
    let seen = all_seen(alloc, ring, from, count + 1)?;
    let mut text = Vec::new(alloc);
    match put_motion(&mut text, ring, from, count, seen.as_slice()) {
        Ok(()) => Ok(text),
        Err(_) => Err(AllocError),
    }
}
