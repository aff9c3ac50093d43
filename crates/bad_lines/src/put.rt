//! The text of bad lines.

ghost use Rattle.std.specs.Prelude.{◌≡◌, ◌++◌, codes, decimal};
ghost use Rattle.text_lines.specs.Writing.{Writes};
ghost use Rattle.ring_check.specs.Names.{kind_name};
ghost use Rattle.bad_lines.specs.BadLineTexts.{reply_text, survey_text, pair_text, wrong_text, head_text, line_text, lines_text};

use crate::wrongs::{BadLine, Wrong};
use itoa::Buffer;
use ring_check::Kind;
use ring_model::{Reply, Survey};
use std::io::Write;
use text_lines::{WriteFault, put, put_all};

/// The word for a kind.
fn kind_name(kind: Kind) -> &'static [u8]
    ensures { result.now ≡ kind_name kind }
{
    match kind {
        Kind::Parameter => b"parameter",
        Kind::Range => b"range",
        Kind::Reply => b"reply",
        Kind::Count => b"count",
        Kind::Survey => b"survey",
        Kind::Group => b"group",
    }
}

/// Writes a number.
fn put_number<W: Write>(out: &mut W, number: u64) -> Result<(), WriteFault>
    ensures { Writes (W.contents out.old) (W.contents out.new) result (decimal number) }
{
    let mut buffer = Buffer::new();
    put(out, buffer.format(number).as_bytes())
}

/// Writes two numbers with something between them.
fn put_pair<W: Write>(out: &mut W, a: u64, between: &[u8], b: u64) -> Result<(), WriteFault>
    ensures { Writes (W.contents out.old) (W.contents out.new) result (pair_text a between.now b) }
{
    let mut buffers = (Buffer::new(), Buffer::new());
    let a = buffers.0.format(a).as_bytes();
    let b = buffers.1.format(b).as_bytes();
    put_all(out, &[a, between, b])
}

/// Writes a reply as an event line has it.
fn put_reply<W: Write>(out: &mut W, reply: Reply) -> Result<(), WriteFault>
    ensures { Writes (W.contents out.old) (W.contents out.new) result (reply_text reply) }
{
    match reply {
        Reply::Granted { number, result } => put_grant(out, number, result),
        Reply::NotPrivileged => put(out, b"n"),
        Reply::Corrupted { old } => put_number(out, old as u64),
    }
}

/// Writes the reply to a granted pass.
fn put_grant<W: Write>(out: &mut W, number: u64, answer: u64) -> Result<(), WriteFault>
    ensures { Writes (W.contents out.old) (W.contents out.new) result
        (codes "g " ++ (decimal number ++ (codes " " ++ decimal answer))) }
{
    let mut buffers = (Buffer::new(), Buffer::new());
    let number = buffers.0.format(number).as_bytes();
    let answer = buffers.1.format(answer).as_bytes();
    put_all(out, &[b"g ", number, b" ", answer])
}

/// Writes what a survey line says of the ring.
fn put_survey<W: Write>(out: &mut W, survey: Survey) -> Result<(), WriteFault>
    ensures { Writes (W.contents out.old) (W.contents out.new) result (survey_text survey) }
{
    let mut fronts = (Buffer::new(), Buffer::new());
    let mut backs = (Buffer::new(), Buffer::new());
    let privileged = fronts.0.format(survey.privileged).as_bytes();
    let first = fronts.1.format(survey.first).as_bytes();
    let calm = backs.0.format(survey.calm).as_bytes();
    let rest = backs.1.format(survey.rest).as_bytes();
    put_all(out, &[privileged, b" ", first, b" ", calm, b" ", rest])
}

/// Writes what a ring's size is, and what it may be.
fn put_size<W: Write>(
    out: &mut W,
    n: u32,
    k: u32,
    machines: u32,
    values: u32,
) -> Result<(), WriteFault>
    ensures { Writes (W.contents out.old) (W.contents out.new) result
        (wrong_text (Wrong.Size n k machines values)) }
{
    let mut sizes = (Buffer::new(), Buffer::new());
    let mut limits = (Buffer::new(), Buffer::new());
    let n = sizes.0.format(n).as_bytes();
    let k = sizes.1.format(k).as_bytes();
    let machines = limits.0.format(machines).as_bytes();
    let values = limits.1.format(values).as_bytes();
    put_all(
        out,
        &[
            n,
            b" ",
            k,
            b", should be N of 2 to ",
            machines,
            b" and K of N to ",
            values,
        ],
    )
}

/// Writes where a survey is, and from where on it may be.
fn put_early<W: Write>(
    out: &mut W,
    seat: u32,
    position: u64,
    last_seat: u32,
    last: u64,
) -> Result<(), WriteFault>
    ensures { Writes (W.contents out.old) (W.contents out.new) result
        (wrong_text (Wrong.Early seat position last_seat last)) }
{
    let mut places = (Buffer::new(), Buffer::new());
    let mut lasts = (Buffer::new(), Buffer::new());
    let seat = places.0.format(seat).as_bytes();
    let position = places.1.format(position).as_bytes();
    let last_seat = lasts.0.format(last_seat).as_bytes();
    let last = lasts.1.format(last).as_bytes();
    put_all(
        out,
        &[
            seat,
            b" ",
            position,
            b", should be ",
            last_seat,
            b" ",
            last,
            b" or later",
        ],
    )
}

/// Writes a number between two texts.
fn put_between<W: Write>(
    out: &mut W,
    front: &[u8],
    number: u64,
    back: &[u8],
) -> Result<(), WriteFault>
    ensures { Writes (W.contents out.old) (W.contents out.new) result
        (front.now ++ (decimal number ++ back.now)) }
{
    let mut buffer = Buffer::new();
    put_all(out, &[front, buffer.format(number).as_bytes(), back])
}

/// Writes which reply should be there.
fn put_own_reply<W: Write>(out: &mut W, should: Reply) -> Result<(), WriteFault>
    ensures { Writes (W.contents out.old) (W.contents out.new) result
        (codes ", should be " ++ reply_text should) }
{
    match put(out, b", should be ") {
        Ok(()) => put_reply(out, should),
        Err(fault) => Err(fault),
    }
}

/// Writes a reply, and which one should be there.
fn put_replies<W: Write>(out: &mut W, there: Reply, should: Reply) -> Result<(), WriteFault>
    ensures { Writes (W.contents out.old) (W.contents out.new) result
        (reply_text there ++ (codes ", should be " ++ reply_text should)) }
{
    match put_reply(out, there) {
        Ok(()) => put_own_reply(out, should),
        Err(fault) => Err(fault),
    }
}

/// Writes which survey should be there.
fn put_own_survey<W: Write>(out: &mut W, should: Survey) -> Result<(), WriteFault>
    ensures { Writes (W.contents out.old) (W.contents out.new) result
        (codes ", should be " ++ survey_text should) }
{
    match put(out, b", should be ") {
        Ok(()) => put_survey(out, should),
        Err(fault) => Err(fault),
    }
}

/// Writes a survey, and which one should be there.
fn put_surveys<W: Write>(out: &mut W, there: Survey, should: Survey) -> Result<(), WriteFault>
    ensures { Writes (W.contents out.old) (W.contents out.new) result
        (survey_text there ++ (codes ", should be " ++ survey_text should)) }
{
    match put_survey(out, there) {
        Ok(()) => put_own_survey(out, should),
        Err(fault) => Err(fault),
    }
}

/// Writes what is there, and what should be.
fn put_wrong<W: Write>(out: &mut W, wrong: &Wrong) -> Result<(), WriteFault>
    ensures { Writes (W.contents out.old) (W.contents out.new) result (wrong_text wrong.now) }
{
    match *wrong {
        Wrong::Size {
            n,
            k,
            machines,
            values,
        } => put_size(out, n, k, machines, values),
        Wrong::Number { there, should } => put_pair(out, there, b", should be ", should),
        Wrong::Limit { there, limit } => put_pair(out, there, b", should be below ", limit),
        Wrong::Replied { there, should } => put_replies(out, there, should),
        Wrong::Unfinished { left } => put_between(
            out,
            b"no next member, should be the one with ",
            left as u64,
            b" left",
        ),
        Wrong::Disordered => put(
            out,
            b"another order of machines, should be that of the moves",
        ),
        Wrong::Early {
            seat,
            position,
            last_seat,
            last,
        } => put_early(out, seat, position, last_seat, last),
        Wrong::Inside { position } => put_between(out, b"", position, b", should be in no group"),
        Wrong::Surveyed { there, should } => put_surveys(out, there, should),
    }
}

/// Writes what is there, what should be, and the end of the line.
fn put_end<W: Write>(out: &mut W, wrong: &Wrong) -> Result<(), WriteFault>
    ensures { Writes (W.contents out.old) (W.contents out.new) result
        (wrong_text wrong.now ++ codes "\n") }
{
    match put_wrong(out, wrong) {
        Ok(()) => put(out, b"\n"),
        Err(fault) => Err(fault),
    }
}

/// Writes the number of a bad line, and its fault.
fn put_head<W: Write>(out: &mut W, line: u64, kind: Kind) -> Result<(), WriteFault>
    ensures { Writes (W.contents out.old) (W.contents out.new) result (head_text line kind) }
{
    let mut buffer = Buffer::new();
    let line = buffer.format(line).as_bytes();
    put_all(out, &[b"line ", line, b": ", kind_name(kind), b": "])
}

/// Writes a bad line.
fn put_bad_line<W: Write>(out: &mut W, bad: &BadLine) -> Result<(), WriteFault>
    ensures { Writes (W.contents out.old) (W.contents out.new) result (line_text bad.now) }
{
    match put_head(out, bad.line, bad.bad.kind) {
        Ok(()) => put_end(out, &bad.bad.wrong),
        Err(fault) => Err(fault),
    }
}

/// Writes bad lines, one line for each: its number, its fault, what is there and what should be.
///
/// # Errors
///
/// `WriteFault` at the first error of the writer: it holds a prefix of the text then.
pub fn put_bad_lines<W: Write>(out: &mut W, lines: &[BadLine]) -> Result<(), WriteFault>
    ensures { Writes (W.contents out.old) (W.contents out.new) result (lines_text lines.now) }
{
    for line in lines {
        match put_bad_line(out, line) {
            Ok(()) => {}
            Err(fault) => return Err(fault),
        }
    }
    Ok(())
}
