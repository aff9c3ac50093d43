//! The machines on their circle.

ghost use Rattle.std.specs.Prelude.{◌≡◌, ◌<◌, [], length, map, codes};
ghost use Rattle.text_lines.specs.Spelling.{numbers_text};
ghost use Rattle.text_lines.specs.Writing.{Writes};
ghost use Rattle.ring_model.specs.Numbers.{bit};
ghost use Rattle.saved_history.specs.Content.{block_of};
ghost use Rattle.history_picture.specs.Stretches.{pieces};
ghost use Rattle.history_motion.specs.Motion.{angle, duration, circle_front, seen_circle, machine_opening, machine_circles, machine_ending, machine_with, machine_text};
ghost use Rattle.history_motion.specs.Walks.{AreSeen};

use crate::seen::Seen;
use itoa::Buffer;
use saved_history::SavedRing;
use std::io::Write;
use text_lines::{WriteFault, put, put_all, put_numbers};

/// For how many thousandths of a second a picture with n columns runs.
pub(crate) fn duration(columns: usize) -> u128
    ensures { result ≡ duration columns }
{
    400 * columns as u128
}

/// At how many hundredths of a degree a machine is.
fn angle(n: u32, machine: u32) -> u64
    requires { 0 < n }
    ensures { result ≡ angle n machine }
{
    36_000 * machine as u64 / n as u64
}

/// What a circle begins with.
fn put_front<W: Write>(out: &mut W, circle: &'static [u8], flags: &[bool]) -> Result<(), WriteFault>
    requires { 0 < length flags.now }
    ensures { Writes (W.contents out.old) (W.contents out.new) result
        (circle_front circle.now flags.now) }
{
    let mut buffers = (Buffer::new(), Buffer::new());
    let first = buffers.0.format(flags[0] as u32).as_bytes();
    let time = buffers.1.format(duration(flags.len())).as_bytes();
    put_all(
        out,
        &[
            circle,
            b" opacity=\"",
            first,
            b"\"><animate attributeName=\"opacity\" calcMode=\"discrete\" dur=\"",
            time,
            b"ms\" repeatCount=\"indefinite\" values=\"",
        ],
    )
}

/// For each column whether a circle is seen there.
fn put_flags<W: Write>(out: &mut W, flags: &[bool]) -> Result<(), WriteFault>
    ensures { Writes (W.contents out.old) (W.contents out.new) result
        (numbers_text (codes ";") [] (map bit flags.now)) }
{
    put_numbers(out, flags.len(), b";", b"", |column| {
        flags[column] as u64
    })
}

/// A circle that is seen in some columns.
fn put_circle<W: Write>(
    out: &mut W,
    circle: &'static [u8],
    flags: &[bool],
) -> Result<(), WriteFault>
    requires { 0 < length flags.now }
    ensures { Writes (W.contents out.old) (W.contents out.new) result
        (seen_circle circle.now flags.now) }
{
    match put_front(out, circle, flags) {
        Ok(()) => match put_flags(out, flags) {
            Ok(()) => put(out, b"\"/></circle>\n"),
            Err(fault) => Err(fault),
        },
        Err(fault) => Err(fault),
    }
}

/// What a machine begins with: its place, and an empty circle.
fn put_opening<W: Write>(out: &mut W, n: u32, machine: u32) -> Result<(), WriteFault>
    requires { 0 < n }
    ensures { Writes (W.contents out.old) (W.contents out.new) result (machine_opening n machine) }
{
    let mut buffer = Buffer::new();
    put_all(
        out,
        &[
            b"<g transform=\"rotate(",
            buffer.format(angle(n, machine)).as_bytes(),
            b"e-2) translate(0 -200)\">\n<circle r=\"17\" fill=\"#fff\" stroke=\"#555\" stroke-width=\"2\"/>\n",
        ],
    )
}

/// What a machine ends with: its number.
fn put_ending<W: Write>(out: &mut W, n: u32, machine: u32) -> Result<(), WriteFault>
    requires { 0 < n }
    ensures { Writes (W.contents out.old) (W.contents out.new) result (machine_ending n machine) }
{
    let mut buffers = (Buffer::new(), Buffer::new());
    let angle = buffers.0.format(angle(n, machine)).as_bytes();
    let number = buffers.1.format(machine).as_bytes();
    put_all(
        out,
        &[
            b"<text y=\"-34\" transform=\"rotate(-",
            angle,
            b"e-2 0 -40)\" text-anchor=\"middle\">",
            number,
            b"</text>\n</g>\n",
        ],
    )
}

/// The circles of a machine, over the empty one.
#[tactic(auto, using(text_lines::proofs::Writing::writes_then))]
fn put_circles<W: Write>(out: &mut W, privileged: &[bool], hit: &[bool]) -> Result<(), WriteFault>
    requires privileged { 0 < length privileged.now }
    requires hit { 0 < length hit.now }
    ensures { Writes (W.contents out.old) (W.contents out.new) result
        (machine_circles privileged.now hit.now) }
{
    match put_circle(out, b"<circle r=\"17\" fill=\"#15489f\"", privileged) {
        Ok(()) => put_circle(
            out,
            b"<circle r=\"24\" fill=\"none\" stroke=\"#e69f00\" stroke-width=\"6\"",
            hit,
        ),
        Err(fault) => Err(fault),
    }
}

/// A machine.
fn put_machine<W: Write>(
    out: &mut W,
    n: u32,
    machine: u32,
    privileged: &[bool],
    hit: &[bool],
) -> Result<(), WriteFault>
    requires machines { 0 < n }
    requires privileged { 0 < length privileged.now }
    requires hit { 0 < length hit.now }
    ensures { Writes (W.contents out.old) (W.contents out.new) result
        (machine_with n machine privileged.now hit.now) }
{
    match put_opening(out, n, machine) {
        Ok(()) => match put_circles(out, privileged, hit) {
            Ok(()) => put_ending(out, n, machine),
            Err(fault) => Err(fault),
        },
        Err(fault) => Err(fault),
    }
}

/// Writes all machines of a ring.
pub(crate) fn put_machines<W: Write>(
    out: &mut W,
    ring: &SavedRing,
    from: usize,
    columns: u32,
    seen: &[Seen],
) -> Result<(), WriteFault>
    requires columns { 0 < columns }
    requires seen { AreSeen (block_of ring.now) from columns seen.now }
    ensures { Writes (W.contents out.old) (W.contents out.new) result
        (pieces (machine_text (block_of ring.now) from columns) ring.now.n) }
{
    for machine in 0..ring.n {
        let seen = &seen[machine as usize];
        match put_machine(out, ring.n, machine, &seen.privileged, &seen.hit) {
            Ok(()) => {}
            Err(fault) => return Err(fault),
        }
    }
    Ok(())
}
