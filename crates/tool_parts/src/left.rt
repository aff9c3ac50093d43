//! What of a journal is left out of what is recovered, and the line that reports it.

ghost use Rattle.std.specs.Prelude.{◌≡◌, ◌<◌, ◌^◌, ◌++◌, None, Some, IfSome, codes, decimal};
ghost use Rattle.text_lines.specs.Writing.{Writes};
ghost use Rattle.ring_check.specs.Names.{kind_name};
ghost use Rattle.segment_files.specs.Chain.{line_in};
ghost use Rattle.segment_files.specs.Remarks.{lines_in, line_among};
ghost use Rattle.tool_parts.specs.CheckText.{legal_line};
ghost use Rattle.tool_parts.specs.Kept.{left_line, bad_in, fault_in};

use crate::legal::tell_sums;
use itoa::Buffer;
use journal::RecoverError;
use ring_check::{Kind, Summary};
use segment_files::line_among;
use std::io::Write;
use text_lines::{WriteFault, put_all};

/// What is left out of what is recovered.
#[derive(Clone, Copy)]
pub struct LeftOut {
    /// How many bytes, up to the end.
    pub bytes: u64,
    /// The refusal of the line that they begin with; none if nothing is left out.
    pub bad: Option<RecoverError>,
}

impl LeftOut {
    /// Nothing is left out.
    pub fn none() -> LeftOut
        ensures { result ≡ record { bytes = 0; bad = None } }
    {
        LeftOut {
            bytes: 0,
            bad: None,
        }
    }
}

/// A refusal of the journal in a text that follows `before` lines of a file, by its line in the file.
fn fault_in(before: u64, text: &[u8], fault: RecoverError) -> RecoverError
    requires { line_among (lines_in text.now) (line_in fault) < 2 ^ 64 }
    ensures { result ≡ fault_in before (lines_in text.now) fault }
{
    match fault {
        RecoverError::Syntax(line) => {
            RecoverError::Syntax(line_among(text, line).saturating_add(before))
        }
        RecoverError::Bad { line, kind } => RecoverError::Bad {
            line: line_among(text, line).saturating_add(before),
            kind,
        },
        other => other,
    }
}

/// The refusal of a journal's bad line, if it has one, in the same way.
pub fn bad_in(before: u64, text: &[u8], bad: Option<RecoverError>) -> Option<RecoverError>
    requires { IfSome bad (λ e. line_among (lines_in text.now) (line_in e) < 2 ^ 64) }
    ensures { result ≡ bad_in before (lines_in text.now) bad }
{
    match bad {
        Some(fault) => Some(fault_in(before, text, fault)),
        None => None,
    }
}

/// The word for a kind.
fn kind_word(kind: Kind) -> &'static [u8]
    ensures { result.now ≡ kind_name kind }
{
    match kind {
        Kind::Parameter => b"parameter",
        Kind::Range => b"range",
        Kind::Reply => b"reply",
        Kind::Count => b"count",
        Kind::Survey => b"survey",
        Kind::Group => b"group",
    }
}

/// Writes a line of what is left out from no line on.
fn put_unnamed<W: Write>(out: &mut W, bytes: u64) -> Result<(), WriteFault>
    ensures { Writes (W.contents out.old) (W.contents out.new) result
        (codes "left out " ++ (decimal bytes ++ codes " bytes from line \n")) }
{
    let mut buffer = Buffer::new();
    put_all(
        out,
        &[
            b"left out ",
            buffer.format(bytes).as_bytes(),
            b" bytes from line \n",
        ],
    )
}

/// Writes a line of what is left out, with the refusal that names where it begins.
fn put_left<W: Write>(out: &mut W, bytes: u64, bad: RecoverError) -> Result<(), WriteFault>
    ensures { Writes (W.contents out.old) (W.contents out.new) result
        (left_line bytes (Some bad)) }
{
    let mut buffers = (Buffer::new(), Buffer::new());
    let left = buffers.0.format(bytes).as_bytes();
    match bad {
        RecoverError::Syntax(line) => {
            let line = buffers.1.format(line).as_bytes();
            put_all(
                out,
                &[
                    b"left out ",
                    left,
                    b" bytes from line ",
                    line,
                    b": syntax\n",
                ],
            )
        }
        RecoverError::Bad { line, kind } => {
            let line = buffers.1.format(line).as_bytes();
            put_all(
                out,
                &[
                    b"left out ",
                    left,
                    b" bytes from line ",
                    line,
                    b": ",
                    kind_word(kind),
                    b"\n",
                ],
            )
        }
        RecoverError::Truncated => put_unnamed(out, bytes),
        RecoverError::OutOfMemory => put_unnamed(out, bytes),
    }
}

/// Writes the line of what is left out, if something is.
fn tell_left<W: Write>(out: &mut W, left: &LeftOut) -> Result<(), WriteFault>
    ensures { Writes (W.contents out.old) (W.contents out.new) result
        (left_line left.now.bytes left.now.bad) }
{
    match left.bad {
        Some(bad) => put_left(out, left.bytes, bad),
        None => put_all(out, &[]),
    }
}

/// Writes the line of a history's sums, and that of what is left out of it, if something is.
#[tactic(auto, using(text_lines::proofs::Writing::writes_then))]
pub fn tell_kept<W: Write>(out: &mut W, sums: &Summary, left: &LeftOut) -> Result<(), WriteFault>
    ensures { Writes (W.contents out.old) (W.contents out.new) result
        (legal_line sums.now ++ left_line left.now.bytes left.now.bad) }
{
    match tell_sums(out, sums) {
        Ok(()) => tell_left(out, left),
        Err(fault) => Err(fault),
    }
}
