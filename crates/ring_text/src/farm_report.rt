//! The writer of the report on a farm's outcome. It takes no memory.

ghost use Rattle.std.specs.Prelude.{◌≡◌, ◌<◌, ◌≤◌, ◌^◌, ◌++◌, ℕ, List, length, codes};
ghost use Rattle.ring_settings.specs.Limits.{ring_limit};
ghost use Rattle.text_lines.specs.Spelling.{list_text};
ghost use Rattle.text_lines.specs.Writing.{AreAnswers, Writes};
ghost use Rattle.ring_model.specs.History.{after, opening};
ghost use Rattle.ring_model.specs.Resources.{till};
ghost use Rattle.ring_text.specs.Report.{entries_in, counts_of, size_words, count_words, counts_line, states_line, standing_line, grants_line, end_lines, ring_lines, total_line, farm_line, report};

use crate::counts::{Counts, add, added_up, counts_of, no_totals};
use itoa::Buffer;
use one_thread_ring::Totals;
use ring_book::{Book, GrantBook, Survey, Till};
use ring_farm::{Outcome, RingOutcome};
use ring_settle::bound;
use ring_state::RingState;
use std::io::Write;
use text_lines::{Line, WriteFault, put, put_all, put_list, put_word};

/// A ring's place and its size.
fn put_size<W: Write>(out: &mut W, place: u32, n: u32, k: u32) -> Result<(), WriteFault>
    ensures { Writes (W.contents out.old) (W.contents out.new) result (size_words place n k) }
{
    let mut buffers = (Buffer::new(), Buffer::new(), Buffer::new());
    let place = buffers.0.format(place).as_bytes();
    let n = buffers.1.format(n).as_bytes();
    let k = buffers.2.format(k).as_bytes();
    put_all(out, &[b"ring ", place, b" n ", n, b" k ", k])
}

/// Writes the counts of a ring, and the end of the line.
fn put_counts<W: Write>(out: &mut W, counts: Counts) -> Result<(), WriteFault>
    ensures { Writes (W.contents out.old) (W.contents out.new) result (count_words counts) }
{
    let mut calls = (Buffer::new(), Buffer::new(), Buffer::new());
    let mut others = (Buffer::new(), Buffer::new());
    let events = calls.0.format(counts.events).as_bytes();
    let granted = calls.1.format(counts.granted).as_bytes();
    let refused = calls.2.format(counts.refused).as_bytes();
    let corrupted = others.0.format(counts.corrupted).as_bytes();
    let surveys = others.1.format(counts.surveys).as_bytes();
    put_all(
        out,
        &[
            b" events ",
            events,
            b" granted ",
            granted,
            b" refused ",
            refused,
            b" corrupted ",
            corrupted,
            b" surveys ",
            surveys,
            b"\n",
        ],
    )
}

/// Writes the line of a ring's place, its size and its counts.
///
/// # Errors
///
/// As [`write_report`], with a prefix of the line.
#[tactic(auto, using(text_lines::proofs::Writing::writes_then))]
pub fn put_counts_line<W: Write>(
    out: &mut W,
    place: u32,
    n: u32,
    k: u32,
    counts: Counts,
) -> Result<(), WriteFault>
    ensures { Writes (W.contents out.old) (W.contents out.new) result
        (counts_line place n k counts) }
{
    match put_size(out, place, n, k) {
        Ok(()) => put_counts(out, counts),
        Err(fault) => Err(fault),
    }
}

/// Writes a word, and a list of `count` numbers after it, the one at place `i` as `number` answers it.
///
/// # Errors
///
/// As [`write_report`], with a prefix of both.
#[tactic(auto, using(text_lines::proofs::Writing::writes_then))]
pub fn put_worded_list<W: Write, F: Fn(u32) -> u64>(
    out: &mut W,
    word: &[u8],
    count: u32,
    number: F,
) -> Result<(), WriteFault>
    requires { (i : ℕ) → i < count → F.pre number i }
    ensures { (numbers : List ℕ) → AreAnswers (F.post number) count numbers
        → Writes (W.contents out.old) (W.contents out.new) result (word.now ++ list_text numbers) }
{
    match put(out, word) {
        Ok(()) => put_list(out, count, number),
        Err(fault) => Err(fault),
    }
}

/// The line of a ring's values.
fn put_states_line<W: Write>(out: &mut W, state: &RingState) -> Result<(), WriteFault>
    ensures { Writes (W.contents out.old) (W.contents out.new) result
        (states_line state.now.values) }
{
    let n = state.params().n();
    match put_worded_list(out, b"states ", n, |machine| state.get(machine) as u64) {
        Ok(()) => put(out, b"\n"),
        Err(fault) => Err(fault),
    }
}

/// The line of a survey and a bound of the rest.
fn put_standing_line<W: Write>(out: &mut W, survey: Survey, limit: u64) -> Result<(), WriteFault>
    ensures { Writes (W.contents out.old) (W.contents out.new) result (standing_line survey limit) }
{
    let mut fronts = (Buffer::new(), Buffer::new());
    let mut backs = (Buffer::new(), Buffer::new(), Buffer::new());
    let privileged = fronts.0.format(survey.privileged).as_bytes();
    let first = fronts.1.format(survey.first).as_bytes();
    let calm = backs.0.format(survey.calm).as_bytes();
    let rest = backs.1.format(survey.rest).as_bytes();
    let limit = backs.2.format(limit).as_bytes();
    put_all(
        out,
        &[
            b"privileged ",
            privileged,
            b" first ",
            first,
            b" calm ",
            calm,
            b" rest ",
            rest,
            b" bound ",
            limit,
            b"\n",
        ],
    )
}

/// The grants of each of n machines in the settled run, and the end of the line.
fn put_settled_grants<W: Write>(out: &mut W, grants: &GrantBook, n: u32) -> Result<(), WriteFault>
    requires each { length grants.now.each ≡ n }
    requires settled { length grants.now.settled ≡ n }
    ensures { Writes (W.contents out.old) (W.contents out.new) result
        (codes " settled " ++ (list_text grants.now.settled ++ codes "\n")) }
{
    match put_worded_list(out, b" settled ", n, |machine| grants.settled_of(machine)) {
        Ok(()) => put(out, b"\n"),
        Err(fault) => Err(fault),
    }
}

/// The line of the grants of each of n machines.
fn put_grants_line<W: Write>(out: &mut W, grants: &GrantBook, n: u32) -> Result<(), WriteFault>
    requires each { length grants.now.each ≡ n }
    requires settled { length grants.now.settled ≡ n }
    ensures { Writes (W.contents out.old) (W.contents out.new) result
        (grants_line grants.now.each grants.now.settled) }
{
    match put_worded_list(out, b"grants ", n, |machine| grants.of(machine)) {
        Ok(()) => put_settled_grants(out, grants, n),
        Err(fault) => Err(fault),
    }
}

/// The state after a book's whole history.
fn end_state(book: &Book<Till>) -> &RingState
    ensures { result.now.values
        ≡ (after till (opening book.now.start 0) book.now.history).ring.values }
{
    book.state()
}

/// Writes the end of a book: its state, a survey of it, and the grants of each machine.
///
/// # Errors
///
/// As [`write_report`], with a prefix of these three lines.
pub fn put_end<W: Write>(out: &mut W, book: &Book<Till>) -> Result<(), WriteFault>
    ensures { Writes (W.contents out.old) (W.contents out.new) result (end_lines book.now) }
{
    let n = book.start().params().n();
    match put_states_line(out, end_state(book)) {
        Ok(()) => match put_standing_line(out, book.survey(), bound(n)) {
            Ok(()) => put_grants_line(out, book.grants(), n),
            Err(fault) => Err(fault),
        },
        Err(fault) => Err(fault),
    }
}

/// Writes the lines of the ring at a place, with these counts.
#[tactic(auto, using(text_lines::proofs::Writing::writes_then))]
fn put_ring<W: Write>(
    out: &mut W,
    place: u32,
    ring: &RingOutcome,
    counts: Counts,
) -> Result<(), WriteFault>
    requires { counts ≡ counts_of ring.now }
    ensures { Writes (W.contents out.old) (W.contents out.new) result (ring_lines place ring.now) }
{
    let start = ring.book.start().params();
    match put_counts_line(out, place, start.n(), start.k(), counts) {
        Ok(()) => put_end(out, &ring.book),
        Err(fault) => Err(fault),
    }
}

/// Writes the line of the farm: how many rings there are, and the sums over them. It is one write, so that lines of processes that
/// share a file do not mix.
///
/// # Errors
///
/// As [`write_report`], with a prefix of the line.
pub fn put_total_line<W: Write>(out: &mut W, rings: u32, totals: Totals) -> Result<(), WriteFault>
    ensures { Writes (W.contents out.old) (W.contents out.new) result (total_line rings totals) }
{
    let mut line = Line::new();
    line.byte(b'\n');
    line.number(totals.surveys);
    put_word(&mut line, b" surveys ");
    line.number(totals.granted);
    put_word(&mut line, b" granted ");
    line.number(totals.events);
    put_word(&mut line, b" events ");
    line.number(rings as u64);
    put_word(&mut line, b"total rings ");
    put(out, line.as_bytes())
}

/// Writes the report on a farm's outcome: four lines for each ring, and one for the farm.
///
/// The first line of a ring has its place, its size and the numbers of its events, its granted passes, its passes
/// that found no privilege, its corruptions and the surveys in its logs. The second has the values of its machines
/// after its whole history, the third a survey of it there and the bound of the rest, and the fourth the granted
/// passes of each machine, in all and in the settled run. The line of the farm adds up over the rings. It takes no
/// memory.
///
/// # Errors
///
/// `WriteFault` at the first error of the writer, an interruption too, or write of 0 bytes. The writer then holds a
/// prefix of the report, but not all of it, after what it held.
pub fn write_report<W: Write>(outcome: &Outcome, out: &mut W) -> Result<(), WriteFault>
    requires most { length outcome.now.rings.items ≤ ring_limit }
    requires few { entries_in outcome.now < 2 ^ 64 }
    ensures { Writes (W.contents out.old) (W.contents out.new) result (report outcome.now) }
{
    let mut totals = no_totals();
    for (place, ring) in outcome.rings.iter().enumerate() {
        let counts = counts_of(ring);
        match put_ring(out, place as u32, ring, counts) {
            Ok(()) => add(&mut totals, counts),
            Err(fault) => return Err(fault),
        }
    }
    put_total_line(out, outcome.rings.len() as u32, totals)
}

/// Writes only the line of the farm, as it is at the end of the report: the sums over the rings. It takes no
/// memory.
///
/// # Errors
///
/// `WriteFault` as at [`write_report`]. The writer then holds a prefix of the line, but not all of it, after what it
/// held.
pub fn write_total<W: Write>(outcome: &Outcome, out: &mut W) -> Result<(), WriteFault>
    requires most { length outcome.now.rings.items ≤ ring_limit }
    requires few { entries_in outcome.now < 2 ^ 64 }
    ensures { Writes (W.contents out.old) (W.contents out.new) result (farm_line outcome.now) }
{
    put_total_line(out, outcome.rings.len() as u32, added_up(&outcome.rings))
}
