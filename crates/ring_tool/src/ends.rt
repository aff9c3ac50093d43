//! How a run ends: its status, what has left of its output, and what is on standard error.

ghost use Rattle.std.specs.Prelude.{◌≡◌, ◌≤◌, IfSome};
ghost use Rattle.std.specs.Io.Buffered.{writer_contents};
ghost use Rattle.std.specs.Io.KnownBytes.{append_known};
ghost use Rattle.tool_parts.specs.Faults.{status_of};
ghost use Rattle.ring_tool.specs.Left.{HasLeft, HasFront, HasText, HasLine, SaysLine, IsLine, HasEndedAnswered};

use std::alloc::Global;
use std::fmt::Display;
use std::io::{BufWriter, Write};
use text_lines::put;
use tool_parts::faults::ToolError;

/// How a run has ended.
#[derive(Drop)]
pub struct Ending<O> {
    /// The exit status.
    pub status: u8,
    /// Whether the text for standard error, if there is one, is written with every byte.
    pub told: bool,
    /// The writer below the buffer of standard output.
    pub out: O,
}

/// Ends a buffered output: returns the writer below, and whether all bytes have left for it.
pub fn emptied<O: Write + Drop>(out: BufWriter<O>) -> (O, bool)
    ensures left { HasLeft (writer_contents O.contents out) (O.contents result.0) result.1 }
{
    match out.into_inner() {
        Ok(below) => (below, true),
        Err(fault) => {
            let (below, rest) = fault.into_inner().into_parts();
            let has_left = rest.is_empty();
            (below, has_left)
        }
    }
}

/// The line of a refusal, with its end; `None` if there is no memory for it.
fn line_of<F: Display>(alloc: Global, refusal: &F) -> Option<Vec<u8>>
    ensures { IfSome (F.output refusal.now) (λ line. IfSome result (λ text. IsLine line text.items)) }
{
    let mut text = Vec::new(alloc);
    if write!(text, "{refusal}").is_err() || text.push(b'\n').is_err() {
        return None;
    }
    Some(text)
}

/// What standard error gets where there is no memory for the line of a refusal.
const NO_MEMORY: &str = "out of memory\n";

/// Writes a text, and returns whether each byte of it is written.
fn put_whole<E: Write>(err: &mut E, text: &[u8]) -> bool
    ensures { HasText text.now result (E.contents err.old) (E.contents err.new) }
{
    match put(err, text) {
        Ok(()) => true,
        Err(_) => false,
    }
}

/// Writes the line of a refusal, or where there is no memory for it that of a lack of memory. Returns whether each byte of it is
/// written.
fn tell<F: Display, E: Write>(alloc: Global, refusal: &F, err: &mut E) -> bool
    ensures { IfSome (F.output refusal.now)
        (λ line. SaysLine line result (E.contents err.old) (E.contents err.new)) }
{
    match line_of(alloc, refusal) {
        Some(text) => put_whole(err, text.as_slice()),
        None => put_whole(err, NO_MEMORY.as_bytes()),
    }
}

/// Ends a run that was refused: what was printed leaves, and standard error has the line of the refusal, as its `Display` writes it. The
/// status is this one.
pub fn fail_with<F: Display, O: Write + Drop, E: Write>(
    alloc: Global,
    refusal: &F,
    status: u8,
    out: BufWriter<O>,
    err: &mut E,
) -> Ending<O>
    ensures status { result.status ≡ status }
    ensures told { IfSome (F.output refusal.now)
        (λ line. SaysLine line result.told (E.contents err.old) (E.contents err.new)) }
    ensures front { HasFront (writer_contents O.contents out) (O.contents result.out) }
{
    let (below, _) = emptied(out);
    let told = tell(alloc, refusal, err);
    Ending {
        status,
        told,
        out: below,
    }
}

/// Ends a run that was refused: what was printed leaves, and standard error says why. Its status is that of the refusal.
pub fn fail<O: Write + Drop, E: Write>(
    alloc: Global,
    fault: &ToolError<'_>,
    out: BufWriter<O>,
    err: &mut E,
) -> Ending<O>
    ensures status { result.status ≡ status_of fault.now }
    ensures told { HasLine fault.now result.told (E.contents err.old) (E.contents err.new) }
    ensures front { HasFront (writer_contents O.contents out) (O.contents result.out) }
{
    fail_with(alloc, fault, fault.status(), out, err)
}

/// Ends a run that was answered: what was printed leaves. Its status is 0, or 1 if a byte could not leave, as standard
/// error says.
pub fn done<O: Write + Drop, E: Write>(alloc: Global, out: BufWriter<O>, err: &mut E) -> Ending<O>
    ensures status { result.status ≤ 1 }
    ensures ended { HasEndedAnswered result.status result.told
        (writer_contents O.contents out) (O.contents result.out)
        (E.contents err.old) (E.contents err.new) }
{
    let (below, has_left) = emptied(out);
    let (status, told) = if has_left {
        (0, true)
    } else {
        (1, tell(alloc, &ToolError::Write, err))
    };
    Ending {
        status,
        told,
        out: below,
    }
}

/// Prints a text that was asked for, and ends the run: its status is 0, or 1 if a byte could not leave, as standard
/// error says.
pub fn show<O: Write + Drop, E: Write>(
    alloc: Global,
    text: &str,
    mut out: BufWriter<O>,
    err: &mut E,
) -> Ending<O>
    ensures status { result.status ≤ 1 }
    ensures ended { HasEndedAnswered result.status result.told
        (append_known (writer_contents O.contents out) text.now) (O.contents result.out)
        (E.contents err.old) (E.contents err.new) }
{
    match put(&mut out, text.as_bytes()) {
        Ok(()) => done(alloc, out, err),
        Err(_) => fail(alloc, &ToolError::Write, out, err),
    }
}

/// Ends a run whose words cannot be read: a text on standard error says so. Its status is 2.
pub fn refuse<O: Write + Drop, E: Write>(text: &str, out: BufWriter<O>, err: &mut E) -> Ending<O>
    ensures status { result.status ≡ 2 }
    ensures told { HasText text.now result.told (E.contents err.old) (E.contents err.new) }
    ensures front { HasFront (writer_contents O.contents out) (O.contents result.out) }
{
    let (below, _) = emptied(out);
    let told = put_whole(err, text.as_bytes());
    Ending {
        status: 2,
        told,
        out: below,
    }
}
