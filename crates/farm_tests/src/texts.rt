//! Texts: the writing of outcomes and values, to writers that take all, take little at a time, or stop; and their
//! reading.

mod outcomes;
mod pieces;
mod reading;
mod scenes;
mod toy;
mod worked;

ghost use Rattle.std.specs.Prelude.{◌≡◌, ◌≤◌, IfSome, sum_by};
ghost use Rattle.ring_text.specs.Report.{entries_of};

use crate::scripted::{REFUSALS, Refusal, writer_with};
use ring_farm::{Log, Outcome, RingOutcome};
use ring_text::{read_saved, upgrade, write_outcome, write_report, write_saved, write_total};
use std::alloc::Global;
use std::io::Write;
use std::process::Abort;
use text_lines::{put, put_all, put_list};
use toy::Item;

/// The written text.
#[derive(Clone, Copy)]
enum What<'a> {
    /// The saved text of a farm's outcome, the report on it, and only the last line of that report.
    Outcome(&'a Outcome),
    Report(&'a Outcome),
    Total(&'a Outcome),
    /// The value that this text is read as, and the same in the second version.
    Value(&'a [u8]),
    Upgraded(&'a [u8]),
    /// A text of the toy grammar.
    Toy(&'a [Item]),
    /// A piece, two pieces, and a list of as many numbers.
    Piece(&'a [u8]),
    Pieces(&'a [u8], &'a [u8]),
    List(u32),
}

/// The number of entries in logs, where it is below 2 to the power 64.
fn log_entries(logs: &[Log]) -> Option<u64>
    ensures { IfSome result (λ n. n ≡ entries_of logs.now) }
{
    let mut all = 0u64;
    for log in logs {
        all = all.checked_add(log.entries.len() as u64)?;
    }
    Some(all)
}

/// The number of entries in the logs of rings, where it is below 2 to the power 64.
fn ring_entries(rings: &[RingOutcome]) -> Option<u64>
    ensures { IfSome result (λ n. n ≡ sum_by (λ r. entries_of r.logs.items) rings.now) }
{
    let mut all = 0u64;
    for ring in rings {
        all = all.checked_add(log_entries(ring.logs.as_slice())?)?;
    }
    Some(all)
}

/// Writes the report on an outcome of at most 16 rings with fewer than 2 to the power 64 entries, or its last line.
fn put_report<W: Write>(rt: &impl Abort, outcome: &Outcome, is_whole: bool, out: &mut W) -> bool {
    assert!(rt; outcome.rings.len() <= 16);
    match ring_entries(outcome.rings.as_slice()) {
        Some(_) if is_whole => write_report(outcome, out).is_ok(),
        Some(_) => write_total(outcome, out).is_ok(),
        None => panic!(rt; "too many entries"),
    }
}

/// Writes the value of a text, in its own version or in the second.
fn put_value<W: Write>(
    rt: &impl Abort,
    alloc: Global,
    text: &[u8],
    is_own: bool,
    out: &mut W,
) -> bool {
    let Ok(saved) = read_saved(alloc, text) else {
        panic!(rt; "the text is read");
    };
    assert!(rt; !saved.rings.is_empty() && saved.version >= 1 && saved.version <= 2);
    if is_own {
        return write_saved(&saved, out).is_ok();
    }
    let later = upgrade(saved);
    assert!(rt; !later.rings.is_empty() && later.version == 2);
    write_saved(&later, out).is_ok()
}

/// The numbers 0, 7, 10 and the largest.
fn put_numbers<W: Write>(count: u32, out: &mut W) -> bool {
    put_list(out, count, |place| match place {
        0 => 0,
        1 => 7,
        2 => 10,
        _ => u64::MAX,
    })
    .is_ok()
}

/// Writes it, and answers whether the writer took it.
fn is_put<W: Write>(rt: &impl Abort, alloc: Global, what: What, out: &mut W) -> bool {
    match what {
        What::Outcome(outcome) => {
            assert!(rt; !outcome.rings.is_empty() && outcome.rings.len() <= 16);
            write_outcome(outcome, out).is_ok()
        }
        What::Report(outcome) => put_report(rt, outcome, true, out),
        What::Total(outcome) => put_report(rt, outcome, false, out),
        What::Value(text) => put_value(rt, alloc, text, true, out),
        What::Upgraded(text) => put_value(rt, alloc, text, false, out),
        What::Toy(items) => toy::write(out, items).is_ok(),
        What::Piece(piece) => put(out, piece).is_ok(),
        What::Pieces(one, other) => put_all(out, &[one, other]).is_ok(),
        What::List(count) => put_numbers(count, out),
    }
}

/// A writer that takes at most this many bytes a call takes the text, and nothing after it.
fn is_whole(rt: &impl Abort, alloc: Global, what: What, text: &[u8]) {
    for at_most in [1, 2, 3, 1000, 65_536, 2_000_000] {
        let mut out = writer_with(alloc, text.len(), at_most, Refusal::Fails);
        assert!(rt; is_put(rt, alloc, what, &mut out), "{at_most} a call");
        assert!(rt; out.held.as_slice() == text, "{at_most} a call");
    }
}

/// It is written as this text; and a writer that stops, in whatever way, holds the prefix that it has room for, and is
/// not asked again.
fn is_written(rt: &impl Abort, alloc: Global, what: What, text: &[u8]) {
    is_whole(rt, alloc, what, text);
    for then in REFUSALS {
        for k in 0..text.len() {
            let mut out = writer_with(alloc, k, 1, then);
            assert!(rt; !is_put(rt, alloc, what, &mut out), "room for {k}");
            assert!(rt;
                out.held.as_slice() == &text[..k] && out.asked == k + 1,
                "room for {k}"
            );
            let mut out = writer_with(alloc, k, 1000, then);
            assert!(rt; !is_put(rt, alloc, what, &mut out), "room for {k}");
            assert!(rt; out.held.as_slice() == &text[..k], "room for {k}");
        }
    }
}
