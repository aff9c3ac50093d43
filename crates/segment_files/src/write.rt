//! The writer of a file's head. It takes no memory.

ghost use Rattle.std.specs.Prelude.{◌≡◌, ◌<◌, ◌^◌, ℕ, ◌++◌, length, IfOk};
ghost use Rattle.std.specs.List.{flat_map, AllByRecursion};
ghost use Rattle.text_lines.specs.Spelling.{spaced, ended};
ghost use Rattle.text_lines.specs.Writing.{Writes};
ghost use Rattle.segment_files.specs.Spelling.{Head, head_of, number_line, behind_line, base_line, head_text, BaseFits, DigestFits, HeadFits};

use crate::heads::SegmentHead;
use itoa::Buffer;
use ring_model::Base;
use std::io::Write;
use text_lines::{Line, WriteFault, put, put_all};

/// Writes the two numbers of the first line.
fn put_counts<W: Write>(out: &mut W, number: u64, rings: usize) -> Result<(), WriteFault>
    ensures { Writes (W.contents out.old) (W.contents out.new) result
        (spaced number ++ ended rings) }
{
    let mut buffers = (Buffer::new(), Buffer::new());
    let number = buffers.0.format(number).as_bytes();
    let rings = buffers.1.format(rings).as_bytes();
    put_all(out, &[number, b" ", rings, b"\n"])
}

/// Writes the first line.
#[tactic(auto, using(text_lines::proofs::Writing::writes_then))]
fn put_number_line<W: Write>(out: &mut W, number: u64, rings: usize) -> Result<(), WriteFault>
    ensures { Writes (W.contents out.old) (W.contents out.new) result (number_line number rings) }
{
    match put(out, b"ringsegment 1 ") {
        Ok(()) => put_counts(out, number, rings),
        Err(fault) => Err(fault),
    }
}

/// Writes the line of the digest.
fn put_behind_line<W: Write>(out: &mut W, digits: &[u8]) -> Result<(), WriteFault>
    ensures { Writes (W.contents out.old) (W.contents out.new) result (behind_line digits.now) }
{
    put_all(out, &[b"behind ", digits, b"\n"])
}

/// Writes the line of a base, each of whose numbers is within its range by its type.
fn put_base_line<W: Write>(out: &mut W, base: Base) -> Result<(), WriteFault>
    ensures written { Writes (W.contents out.old) (W.contents out.new) result (base_line base) }
    ensures fits { BaseFits base }
{
    let mut line = Line::new();
    line.byte(b'\n');
    line.number(base.calm);
    line.byte(b' ');
    line.number(base.amount);
    line.byte(b' ');
    line.number(base.grants);
    line.byte(b' ');
    line.number(base.events);
    line.byte(b' ');
    line.byte(b'e');
    line.byte(b's');
    line.byte(b'a');
    line.byte(b'b');
    put(out, line.as_bytes())
}

/// Writes a line for each base.
fn put_bases<W: Write>(out: &mut W, bases: &[Base]) -> Result<(), WriteFault>
    ensures written { Writes (W.contents out.old) (W.contents out.new) result
        (flat_map base_line bases.now) }
    ensures fits { IfOk result (λ _. AllByRecursion BaseFits bases.now) }
{
    for base in bases {
        match put_base_line(out, *base) {
            Ok(()) => {}
            Err(fault) => return Err(fault),
        }
    }
    Ok(())
}

/// Writes the lines after the first one.
#[tactic(auto, using(text_lines::proofs::Writing::writes_then))]
fn put_below_number<W: Write>(out: &mut W, digits: &[u8], bases: &[Base]) -> Result<(), WriteFault>
    ensures written { Writes (W.contents out.old) (W.contents out.new) result
        (behind_line digits.now ++ flat_map base_line bases.now) }
    ensures fits { IfOk result (λ _. AllByRecursion BaseFits bases.now) }
{
    match put_behind_line(out, digits) {
        Ok(()) => put_bases(out, bases),
        Err(fault) => Err(fault),
    }
}

/// Writes the text of a head, which reads back ([`read_head`](crate::read_head)), since the head fits. It takes no
/// memory and does not flush.
///
/// # Errors
///
/// As [`put`](text_lines::put): the writer then holds a prefix of the text, but not all of it, after what it held.
#[tactic(auto, using(text_lines::proofs::Writing::writes_then))]
pub fn put_head<W: Write>(out: &mut W, head: &SegmentHead) -> Result<(), WriteFault>
    requires number { 0 < head.now.number }
    requires digits { DigestFits head.now.behind }
    requires some { 0 < length head.now.bases.items }
    requires rings { length head.now.bases.items < 2 ^ 32 }
    ensures written { Writes (W.contents out.old) (W.contents out.new) result
        (head_text (head_of head.now)) }
    ensures fits { IfOk result (λ _. HeadFits (head_of head.now)) }
{
    match put_number_line(out, head.number, head.bases.len()) {
        Ok(()) => put_below_number(out, &head.behind, &head.bases),
        Err(fault) => Err(fault),
    }
}
