//! The lines.

ghost use Rattle.std.specs.Prelude.{◌≡◌, ◌++◌, codes};
ghost use Rattle.std.specs.List.{flat_map};
ghost use Rattle.text_lines.specs.Writing.{Writes};
ghost use Rattle.repair_texts.specs.Lines.{named_text, start_text, size_text, head_text, longest_name, figures_of, figures_text, count_text, one_text, counts_from};

use crate::fields::{Field, put_rest};
use itoa::Buffer;
use std::io::Write;
use text_lines::{WriteFault, put, put_all};

/// What was measured, and of which rings.
#[derive(Clone, Copy)]
pub struct Head<'a> {
    /// The first word of the line.
    pub measure: &'a str,
    pub n: u32,
    pub k: u32,
    /// The word for which machine moves next.
    pub daemon: &'a str,
    /// Where a repair begins.
    pub start: &'a str,
    /// With how many faults it begins, if it begins with some.
    pub faults: Option<u32>,
}

/// The numbers of a line.
#[derive(Clone, Copy)]
pub struct Figures {
    pub trials: u64,
    pub bound: u64,
    /// No trial has more; from 4 machines on some repair takes as many.
    pub longest: u64,
    pub least: u64,
    /// In hundredths.
    pub mean: u64,
    pub median: u64,
    pub p90: u64,
    pub p99: u64,
    pub p999: u64,
    pub greatest: u64,
}

/// How many machines a ring has at least of which the longest repairs are known to be as long as no repair is above.
const SHARP: u32 = 4;

/// Writes where a repair begins.
fn put_start<W: Write>(out: &mut W, start: &str, faults: Option<u32>) -> Result<(), WriteFault>
    ensures { Writes (W.contents out.old) (W.contents out.new) result (start_text start.now faults) }
{
    let Some(faults) = faults else {
        return put(out, start.as_bytes());
    };
    let mut buffer = Buffer::new();
    put_all(
        out,
        &[start.as_bytes(), b":", buffer.format(faults).as_bytes()],
    )
}

/// Writes what was measured, and the size of the ring.
fn put_size<W: Write>(out: &mut W, head: &Head<'_>) -> Result<(), WriteFault>
    ensures { Writes (W.contents out.old) (W.contents out.new) result (size_text head.now) }
{
    let mut buffers = (Buffer::new(), Buffer::new());
    let n = buffers.0.format(head.n).as_bytes();
    let k = buffers.1.format(head.k).as_bytes();
    put_all(
        out,
        &[
            head.measure.as_bytes(),
            b" ",
            n,
            b" ",
            k,
            b" daemon ",
            head.daemon.as_bytes(),
            b" from ",
        ],
    )
}

/// Writes the words at which a line begins.
#[tactic(auto, using(text_lines::proofs::Writing::writes_then, text_lines::proofs::Writing::writes_err))]
fn put_head<W: Write>(out: &mut W, head: &Head<'_>) -> Result<(), WriteFault>
    ensures { Writes (W.contents out.old) (W.contents out.new) result (head_text head.now) }
{
    match put_size(out, head) {
        Ok(()) => put_start(out, head.start, head.faults),
        Err(fault) => Err(fault),
    }
}

/// The name of the number of the longest repairs.
fn longest_name(n: u32) -> &'static [u8]
    ensures { result.now ≡ longest_name n }
{
    if n < SHARP { b" long " } else { b" sharp " }
}

/// Writes the numbers of a line, and its end.
fn put_numbers<W: Write>(out: &mut W, n: u32, figures: &Figures) -> Result<(), WriteFault>
    ensures { Writes (W.contents out.old) (W.contents out.new) result
        (flat_map named_text (figures_of n figures.now) ++ codes "\n") }
{
    let longest = longest_name(n);
    put_rest(
        out,
        &[
            Field {
                name: b" trials ",
                number: figures.trials,
            },
            Field {
                name: b" bound ",
                number: figures.bound,
            },
            Field {
                name: longest,
                number: figures.longest,
            },
            Field {
                name: b" least ",
                number: figures.least,
            },
            Field {
                name: b" mean ",
                number: figures.mean / 100,
            },
            Field {
                name: b".",
                number: figures.mean / 10 % 10,
            },
            Field {
                name: b"",
                number: figures.mean % 10,
            },
            Field {
                name: b" median ",
                number: figures.median,
            },
            Field {
                name: b" p90 ",
                number: figures.p90,
            },
            Field {
                name: b" p99 ",
                number: figures.p99,
            },
            Field {
                name: b" p999 ",
                number: figures.p999,
            },
            Field {
                name: b" greatest ",
                number: figures.greatest,
            },
        ],
    )
}

/// Writes the line of the figures of a size.
///
/// # Errors
///
/// As [`put_all`]: the writer then holds a prefix of the line, but not all of it, after what it held.
#[tactic(auto, using(text_lines::proofs::Writing::writes_then, text_lines::proofs::Writing::writes_err))]
pub fn put_figures<W: Write>(
    out: &mut W,
    head: &Head<'_>,
    figures: &Figures,
) -> Result<(), WriteFault>
    ensures { Writes (W.contents out.old) (W.contents out.new) result
        (figures_text head.now figures.now) }
{
    match put_head(out, head) {
        Ok(()) => put_numbers(out, head.n, figures),
        Err(fault) => Err(fault),
    }
}

/// Writes the line of a number that occurred.
fn put_count<W: Write>(
    out: &mut W,
    head: &Head<'_>,
    unit: &[u8],
    number: u64,
    trials: u64,
) -> Result<(), WriteFault>
    ensures { Writes (W.contents out.old) (W.contents out.new) result
        (count_text unit.now head.now.n head.now.k number trials) }
{
    let mut sizes = (Buffer::new(), Buffer::new());
    let mut counts = (Buffer::new(), Buffer::new());
    let n = sizes.0.format(head.n).as_bytes();
    let k = sizes.1.format(head.k).as_bytes();
    let number = counts.0.format(number).as_bytes();
    let trials = counts.1.format(trials).as_bytes();
    put_all(
        out,
        &[
            b"histogram ",
            n,
            b" ",
            k,
            b" ",
            unit,
            b" ",
            number,
            b" trials ",
            trials,
            b"\n",
        ],
    )
}

/// Writes the line of a number, if it occurred.
fn put_one<W: Write>(
    out: &mut W,
    head: &Head<'_>,
    unit: &[u8],
    number: u64,
    trials: u64,
) -> Result<(), WriteFault>
    ensures { Writes (W.contents out.old) (W.contents out.new) result
        (one_text unit.now head.now.n head.now.k number trials) }
{
    if trials == 0 {
        put(out, b"")
    } else {
        put_count(out, head, unit, number, trials)
    }
}

/// Writes a line for each number that occurred, rising: entry v of the counts is how many trials had the number v.
///
/// # Errors
///
/// As [`put_all`]: the writer then holds a prefix of the lines, but not all of them, after what it held.
pub fn put_counts<W: Write>(
    out: &mut W,
    head: &Head<'_>,
    unit: &[u8],
    counts: &[u64],
) -> Result<(), WriteFault>
    ensures { Writes (W.contents out.old) (W.contents out.new) result
        (counts_from unit.now head.now.n head.now.k 0 counts.now) }
{
    for number in 0..counts.len() {
        match put_one(out, head, unit, number as u64, counts[number]) {
            Ok(()) => {}
            Err(fault) => return Err(fault),
        }
    }
    Ok(())
}
