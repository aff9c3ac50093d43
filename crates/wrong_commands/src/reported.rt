//! The report of a saved history, broken.

ghost use Rattle.std.specs.Prelude.{◌≡◌, ◌≢◌, ℕ, List, IsSome, OnOk};
ghost use Rattle.std.specs.Io.KnownBytes.{Appends};
ghost use Rattle.text_commands.specs.Reported.{IsReportOf};

use std::alloc::Global;
use std::io::Write;
use text_commands::report::print_report;
use tool_parts::faults::ToolError;

/// The report of a text is that of its own history: that of another text is printed.
pub fn report_of_another_text<W: Write>(
    alloc: Global,
    bytes: &[u8],
    other: &[u8],
    out: &mut W,
) -> Result<(), ToolError<'static>>
    requires known { IsSome (W.contents out.old) }
    requires apart { (own others : List ℕ) → IsReportOf bytes.now own
        → IsReportOf other.now others → others ≢ own }
    ensures wrong { OnOk result ((report : List ℕ) → IsReportOf bytes.now report
        → Appends (W.contents out.old) (W.contents out.new) report → ⊥) }
{
    print_report(alloc, other, out)?;
    Ok(())
}

/// A report is printed once: it is printed twice.
pub fn report_that_is_printed_twice<W: Write>(
    alloc: Global,
    bytes: &[u8],
    out: &mut W,
) -> Result<(), ToolError<'static>>
    requires known { IsSome (W.contents out.old) }
    ensures wrong { OnOk result ((report : List ℕ) → IsReportOf bytes.now report
        → Appends (W.contents out.old) (W.contents out.new) report → ⊥) }
{
    print_report(alloc, bytes, out)?;
    print_report(alloc, bytes, out)?;
    Ok(())
}
