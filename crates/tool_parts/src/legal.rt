//! Saved texts that are legal: their value, and the line of their sums.

ghost use Rattle.std.specs.Prelude.{◌≡◌, IfOk, IfErr};
ghost use Rattle.text_lines.specs.Writing.{Writes};
ghost use Rattle.ring_check.specs.Legal.{IsLegalText};
ghost use Rattle.saved_history.specs.Content.{content};
ghost use Rattle.tool_parts.specs.CheckText.{legal_line};
ghost use Rattle.tool_parts.specs.Checked.{IsLegalSavedText, IsSavedTextRefusal};

use crate::faults::ToolError;
use itoa::Buffer;
use ring_check::{Summary, check_saved};
use saved_history::{Saved, read_saved};
use std::alloc::Global;
use std::io::Write;
use text_lines::{WriteFault, put_all};

/// The line of a legal text: its sums.
pub fn tell_sums<W: Write>(out: &mut W, sums: &Summary) -> Result<(), WriteFault>
    ensures { Writes (W.contents out.old) (W.contents out.new) result (legal_line sums.now) }
{
    let mut buffers = (
        Buffer::new(),
        Buffer::new(),
        Buffer::new(),
        Buffer::new(),
        Buffer::new(),
    );
    let rings = buffers.0.format(sums.rings).as_bytes();
    let events = buffers.1.format(sums.events).as_bytes();
    let granted = buffers.2.format(sums.granted).as_bytes();
    let corrupted = buffers.3.format(sums.corrupted).as_bytes();
    let surveys = buffers.4.format(sums.surveys).as_bytes();
    put_all(
        out,
        &[
            b"legal rings ",
            rings,
            b" events ",
            events,
            b" granted ",
            granted,
            b" corrupted ",
            corrupted,
            b" surveys ",
            surveys,
            b"\n",
        ],
    )
}

/// Returns the value of the saved text that the bytes are, and its sums, where it is legal.
///
/// # Errors
///
/// `Syntax` or `Truncated` where the bytes are not a saved text, `Bad` where they are one that is not
/// legal, and `OutOfMemory`.
pub fn legal_saved<'a>(alloc: Global, bytes: &[u8]) -> Result<(Saved, Summary), ToolError<'a>>
    ensures ok { IfOk result (λ x. (legal : IsLegalSavedText bytes.now x.1)
        × (legal.content ≡ content x.0)
        × IsLegalText (content x.0)) }
    ensures err { IfErr result (λ e. IsSavedTextRefusal bytes.now e) }
{
    let saved = read_saved(alloc, bytes)?;
    let sums = check_saved(alloc, &saved)?;
    Ok((saved, sums))
}
