//! The reading, judging, printing and saving of the commands, each broken.

ghost use Rattle.std.specs.Prelude.{◌≡◌, ◌≢◌, ℕ, List, ◌<◌, ◌≤◌, ◌^◌, false, Some, IsSome, length, OnOk, IfOk, IfSome, IsErrOf};
ghost use Rattle.std.specs.Io.KnownBytes.{Appends, Consumes};
ghost use Rattle.text_lines.specs.Writing.{Writes};
ghost use Rattle.disks.specs.Held.{Replaces, IsHeld};
ghost use Rattle.ring_settings.specs.Limits.{ring_limit};
ghost use Rattle.ring_check.specs.declared.answers.Summary.{Summary};
ghost use Rattle.saved_history.specs.Content.{content};
ghost use Rattle.saved_history.specs.Spelling.{text};
ghost use Rattle.ring_check.specs.Legal.{IsLegalText};
ghost use Rattle.ring_text.specs.Report.{entries_in};
ghost use Rattle.ring_text.specs.SavedOf.{saved_of};
ghost use Rattle.tool_parts.specs.CheckText.{legal_line};
ghost use Rattle.tool_parts.specs.Checked.{IsLegalSavedText, IsCheckRefusal};
ghost use Rattle.tool_parts.specs.Faults.{status_of};
ghost use Rattle.tool_parts.specs.Named.{IsApart};
ghost use Rattle.run_commands.specs.Ran.{report_text};
ghost use Rattle.tool_parts.specs.Reading.{most_bytes, names_stream, IsAllOf, IsWithin, IsOver};

use disks::Disk;
use ring_check::{Kind, Summary};
use ring_farm::Outcome;
use ring_text::write_report;
use run_commands::run::save_and_report;
use saved_history::Saved;
use std::alloc::Global;
use std::io::{Read, Write};
use text_commands::check::check_bytes;
use text_lines::WriteFault;
use tool_parts::endings::tell;
use tool_parts::faults::ToolError;
use tool_parts::legal::{legal_saved, tell_sums};
use tool_parts::reading::{ReadFault, names_stream, read_limited, read_whole};

/// A text passes the check only where it is legal: one with a bad line passes.
pub fn bad_text_that_passes<W: Write>(
    alloc: Global,
    bytes: &[u8],
    out: &mut W,
) -> Option<Result<(), ToolError<'static>>>
    ensures wrong { IfSome result (λ answer. OnOk answer ((sums : Summary)
        × IsLegalSavedText bytes.now sums
        × Appends (W.contents out.old) (W.contents out.new) (legal_line sums) → ⊥)) }
{
    match check_bytes(alloc, bytes, out) {
        Err(ToolError::Bad(_, _)) => Some(Ok(())),
        _ => None,
    }
}

/// A legal text has no bad line: one that passes is reported as bad.
pub fn legal_text_that_is_told_as_bad<W: Write>(
    alloc: Global,
    bytes: &[u8],
    out: &mut W,
    line: u64,
    kind: Kind,
) -> Option<ToolError<'static>>
    ensures wrong { IfSome result
        (λ e. IsCheckRefusal bytes.now (W.contents out.old) (W.contents out.new) e → ⊥) }
{
    match check_bytes(alloc, bytes, out) {
        Ok(()) => Some(ToolError::Bad(line, kind)),
        Err(_) => None,
    }
}

/// The value of a text is handed out only where it is legal: one is handed out for a text with a bad line.
pub fn bad_text_with_a_value(
    alloc: Global,
    bytes: &[u8],
    saved: Saved,
    sums: Summary,
) -> Option<Result<(Saved, Summary), ToolError<'static>>>
    ensures wrong { IfSome result (λ answer.
        IfOk answer (λ x. (legal : IsLegalSavedText bytes.now x.1)
        × (legal.content ≡ content x.0)
        × IsLegalText (content x.0) → ⊥)) }
{
    match legal_saved(alloc, bytes) {
        Err(ToolError::Bad(_, _)) => Some(Ok((saved, sums))),
        _ => None,
    }
}

/// The line of a legal text has its sums: that of others is written, which reads otherwise.
pub fn sums_of_another_text<W: Write>(
    out: &mut W,
    sums: &Summary,
    other: &Summary,
) -> Result<(), WriteFault>
    requires known { IsSome (W.contents out.old) }
    requires apart { legal_line other.now ≢ legal_line sums.now }
    ensures wrong { IfOk result
        (λ _. Writes (W.contents out.old) (W.contents out.new) result (legal_line sums.now) → ⊥) }
{
    tell_sums(out, other)?;
    Ok(())
}

/// The bytes read of a file are all that its reader gives: the last byte is cut off.
pub fn file_that_is_cut<R: Read>(alloc: Global, reader: &mut R, limit: u64) -> Option<Vec<u8>>
    requires known { IsSome (R.remaining reader.old) }
    ensures wrong { IfSome result
        (λ bytes. Consumes (R.remaining reader.old) (R.remaining reader.new) bytes.items → ⊥) }
{
    let Ok(mut bytes) = read_limited(alloc, reader, limit) else {
        return None;
    };
    let _last = bytes.pop()?;
    Some(bytes)
}

/// A file is too large only with more bytes than the limit: one with just that many is refused.
pub fn file_at_the_limit_that_is_refused<R: Read>(
    alloc: Global,
    reader: &mut R,
    limit: u64,
) -> Result<Vec<u8>, ReadFault>
    requires some { 1 ≤ limit }
    requires known { IsSome (R.remaining reader.old) }
    ensures wrong { IsErrOf result ReadFault.TooLarge
        → IsOver limit (R.remaining reader.old) (R.remaining reader.new) → ⊥ }
{
    read_limited(alloc, reader, limit - 1)
}

/// Only the dash names a standard stream: each other word does.
pub fn another_word_for_the_dash(word: &str) -> bool
    ensures wrong { result ≡ names_stream word.now → ⊥ }
{
    !names_stream(word)
}

/// A refusal has its status: 1 and 2 are exchanged.
pub fn refusal_with_another_status<E: Write>(fault: &ToolError<'_>, err: &mut E) -> u8
    ensures wrong { result ≡ status_of fault.now → ⊥ }
{
    if tell(fault, err) == 1 { 2 } else { 1 }
}

/// A file with more bytes than the limit is refused: it is read as empty.
pub fn file_over_the_limit_that_is_read<R: Read>(
    alloc: Global,
    reader: &mut R,
    limit: u64,
) -> Option<Vec<u8>>
    requires known { IsSome (R.remaining reader.old) }
    ensures wrong { IfSome result
        (λ bytes. Consumes (R.remaining reader.old) (R.remaining reader.new) bytes.items → ⊥) }
{
    let Err(ReadFault::TooLarge) = read_limited(alloc, reader, limit) else {
        return None;
    };
    Some(Vec::new(alloc))
}

/// A whole file is all that its reader gives: the last byte is cut off.
pub fn whole_file_that_is_cut<R: Read>(alloc: Global, file: &str, reader: &mut R) -> Option<Vec<u8>>
    requires known { IsSome (R.remaining reader.old) }
    ensures wrong { IfSome result (λ bytes.
        IsAllOf most_bytes (R.remaining reader.old) (R.remaining reader.new) bytes.items → ⊥) }
{
    let Ok(mut bytes) = read_whole(alloc, file, reader) else {
        return None;
    };
    let _last = bytes.pop()?;
    Some(bytes)
}

/// A file is too large only if a byte more than the limit was read: a read that failed is reported as that.
pub fn failed_read_that_is_too_large<R: Read>(
    alloc: Global,
    reader: &mut R,
    limit: u64,
) -> Option<ReadFault>
    requires known { IsSome (R.remaining reader.old) }
    ensures wrong { IfSome result
        (λ _. IsOver limit (R.remaining reader.old) (R.remaining reader.new) → ⊥) }
{
    let Err(ReadFault::Failed) = read_limited(alloc, reader, limit) else {
        return None;
    };
    Some(ReadFault::TooLarge)
}

/// A read failed only if no more than the limit was given until then: a file that is too large is reported as that.
pub fn large_file_that_fails<R: Read>(
    alloc: Global,
    reader: &mut R,
    limit: u64,
) -> Option<ReadFault>
    requires known { IsSome (R.remaining reader.old) }
    ensures wrong { IfSome result
        (λ _. IsWithin limit (R.remaining reader.old) (R.remaining reader.new) → ⊥) }
{
    let Err(ReadFault::TooLarge) = read_limited(alloc, reader, limit) else {
        return None;
    };
    Some(ReadFault::Failed)
}

/// A command is done once: a text is checked and reported twice.
pub fn check_that_is_told_twice<W: Write>(
    alloc: Global,
    bytes: &[u8],
    out: &mut W,
) -> Result<(), ToolError<'static>>
    requires known { IsSome (W.contents out.old) }
    ensures wrong { OnOk result ((sums : Summary) → IsLegalSavedText bytes.now sums
        → Appends (W.contents out.old) (W.contents out.new) (legal_line sums) → ⊥) }
{
    check_bytes(alloc, bytes, out)?;
    check_bytes(alloc, bytes, out)?;
    Ok(())
}
