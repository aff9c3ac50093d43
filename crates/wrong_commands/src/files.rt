//! The files that the commands leave, each broken.

ghost use Rattle.std.specs.Prelude.{◌≡◌, ◌≢◌, ℕ, List, Option, ◌<◌, ◌≤◌, ◌^◌, false, None, Some, IsSome, length, OnOk};
ghost use Rattle.std.specs.Io.KnownBytes.{Appends};
ghost use Rattle.disks.specs.Held.{Replaces, IsHeld};
ghost use Rattle.ring_settings.specs.Limits.{ring_limit};
ghost use Rattle.ring_check.specs.declared.answers.Summary.{Summary};
ghost use Rattle.saved_history.specs.Spelling.{text};
ghost use Rattle.ring_text.specs.Report.{entries_in};
ghost use Rattle.ring_text.specs.SavedOf.{saved_of};
ghost use Rattle.tool_parts.specs.CheckText.{legal_line};
ghost use Rattle.tool_parts.specs.Checked.{IsLegalSavedText, IsTextChecked};
ghost use Rattle.tool_parts.specs.Handed.{IsHanded};
ghost use Rattle.tool_parts.specs.Named.{IsApart};
ghost use Rattle.text_commands.specs.Pictured.{IsDrawing, IsPictureApart, picture_of};
ghost use Rattle.run_commands.specs.Ran.{report_text, history_file};
ghost use Rattle.tool_parts.specs.Reading.{names_stream};
ghost use Rattle.run_commands.specs.Saved.{IsRunAnswer};
ghost use Rattle.tool_parts.specs.Worlds.{world};

use disks::Disk;
use ring_farm::Outcome;
use ring_text::write_report;
use run_commands::run::save_and_report;
use std::alloc::Global;
use std::io::Write;
use text_commands::check::check_bytes;
use text_commands::picture::{Drawing, hand_over};
use text_lines::WriteFault;
use tool_parts::faults::ToolError;
use tool_parts::legal::tell_sums;
use tool_parts::requests::{CheckWords, PictureWords, RunWords};

/// The history of a farm holds the saved text of its outcome: only the report is written, and the file stays as it was.
pub fn history_that_is_not_saved<D: Disk, W: Write>(
    outcome: &Outcome,
    _disk: &mut D,
    _file: &str,
    out: &mut W,
) -> Result<(), WriteFault>
    requires some { 1 ≤ length outcome.now.rings.items }
    requires most { length outcome.now.rings.items ≤ ring_limit }
    requires few { entries_in outcome.now < 2 ^ 64 }
    requires known { IsSome (D.holds _disk.old) }
    requires others { IsHeld (D.holds _disk.old) _file.now (text (saved_of outcome.now)) → ⊥ }
    ensures wrong { OnOk result (Replaces (D.holds _disk.old) (D.holds _disk.new) _file.now
        (Some (text (saved_of outcome.now))) → ⊥) }
{
    write_report(outcome, out)?;
    Ok(())
}

/// The history is saved in the file of its name: it is saved in another one.
pub fn history_in_another_file<'a, D: Disk, W: Write>(
    alloc: Global,
    disk: &mut D,
    outcome: &Outcome,
    _file: &str,
    other: &'a str,
    out: &mut W,
) -> Result<(), ToolError<'a>>
    requires some { 1 ≤ length outcome.now.rings.items }
    requires most { length outcome.now.rings.items ≤ ring_limit }
    requires few { entries_in outcome.now < 2 ^ 64 }
    requires known { IsSome (D.holds disk.old) }
    requires named { names_stream other.now ≡ false }
    requires apart { IsApart (D.holds disk.old) other.now (Some _file.now) }
    requires others { IsHeld (D.holds disk.old) _file.now (text (saved_of outcome.now)) → ⊥ }
    ensures wrong { OnOk result (Replaces (D.holds disk.old) (D.holds disk.new) _file.now
        (Some (text (saved_of outcome.now))) → ⊥) }
{
    save_and_report(alloc, disk, outcome, other, true, out)?;
    Ok(())
}

/// The report on a farm is of its outcome: another one is saved and reported, which reads otherwise.
pub fn outcome_that_is_anothers<'a, D: Disk, W: Write>(
    alloc: Global,
    disk: &mut D,
    outcome: &Outcome,
    other: &Outcome,
    file: &'a str,
    quiet: bool,
    out: &mut W,
) -> Result<(), ToolError<'a>>
    requires some { 1 ≤ length other.now.rings.items }
    requires most { length other.now.rings.items ≤ ring_limit }
    requires few { entries_in other.now < 2 ^ 64 }
    requires known { IsSome (W.contents out.old) }
    requires apart { report_text quiet other.now ≢ report_text quiet outcome.now }
    ensures wrong { OnOk result
        (Appends (W.contents out.old) (W.contents out.new) (report_text quiet outcome.now) → ⊥) }
{
    save_and_report(alloc, disk, other, file, quiet, out)?;
    Ok(())
}

/// A quiet run writes only the last line, and each other the whole report: it is the other way.
pub fn quiet_run_that_reports<'a, D: Disk, W: Write>(
    alloc: Global,
    disk: &mut D,
    outcome: &Outcome,
    file: &'a str,
    quiet: bool,
    out: &mut W,
) -> Result<(), ToolError<'a>>
    requires some { 1 ≤ length outcome.now.rings.items }
    requires most { length outcome.now.rings.items ≤ ring_limit }
    requires few { entries_in outcome.now < 2 ^ 64 }
    requires known { IsSome (W.contents out.old) }
    ensures wrong { OnOk result
        (Appends (W.contents out.old) (W.contents out.new) (report_text quiet outcome.now) → ⊥) }
{
    save_and_report(alloc, disk, outcome, file, !quiet, out)?;
    Ok(())
}

/// The history is not the settings' file: it is saved over that.
pub fn history_over_the_settings<'a, D: Disk, W: Write>(
    alloc: Global,
    disk: &mut D,
    outcome: &Outcome,
    words: &RunWords<'a>,
    out: &mut W,
) -> Result<(), ToolError<'a>>
    requires some { 1 ≤ length outcome.now.rings.items }
    requires most { length outcome.now.rings.items ≤ ring_limit }
    requires few { entries_in outcome.now < 2 ^ 64 }
    requires one { IsApart (D.holds disk.old) words.now.settings.now (history_file words.now) → ⊥ }
    ensures wrong { OnOk result ((was : Option (List ℕ)) (is : Option (List ℕ))
        → IsRunAnswer words.now
        (world (D.holds disk.old) was (W.contents out.old) None)
        (world (D.holds disk.new) is (W.contents out.new) None) → ⊥) }
{
    save_and_report(alloc, disk, outcome, words.settings, words.quiet, out)?;
    Ok(())
}

/// The judged bytes are those of the file: a constant is judged instead.
pub fn check_of_a_constant<D: Disk, W: Write>(
    alloc: Global,
    _disk: &D,
    _words: &CheckWords<'_>,
    _held: &[u8],
    constant: &[u8],
    out: &mut W,
) -> Result<(), ToolError<'static>>
    requires known { IsSome (D.holds _disk.now) }
    requires named { names_stream _words.now.file.now ≡ false }
    requires held { IsHeld (D.holds _disk.now) _words.now.file.now _held.now }
    requires bad { (sums : Summary) → IsLegalSavedText _held.now sums → ⊥ }
    ensures wrong { OnOk result ((was : Option (List ℕ)) (is : Option (List ℕ))
        → IsTextChecked _words.now
        (world (D.holds _disk.now) was (W.contents out.old) None)
        (world (D.holds _disk.now) is (W.contents out.new) None) → ⊥) }
{
    check_bytes(alloc, constant, out)?;
    Ok(())
}

/// A picture does not go over the history that it is drawn of: it does.
pub fn picture_over_the_history<'a, D: Disk, W: Write, E: Write>(
    alloc: Global,
    disk: &mut D,
    drawing: &Drawing,
    _words: &PictureWords<'a>,
    unread: &PictureWords<'a>,
    out: &mut W,
    err: &mut E,
) -> Result<(), ToolError<'a>>
    requires drawn { (bytes : List ℕ) × IsDrawing unread.now bytes drawing.now }
    requires named { names_stream _words.now.picture.now ≡ false }
    requires one { IsApart (D.holds disk.old) _words.now.file.now (Some _words.now.picture.now)
        → ⊥ }
    ensures wrong { OnOk result (IsPictureApart _words.now (D.holds disk.old) → ⊥) }
{
    hand_over(alloc, disk, drawing, unread, out, err)?;
    Ok(())
}

/// The picture replaces its file: only the line of the sums is printed.
pub fn picture_for_nobody<D: Disk, W: Write, E: Write>(
    _disk: &mut D,
    drawing: &Drawing,
    _words: &PictureWords<'_>,
    out: &mut W,
    _err: &mut E,
) -> Result<(), WriteFault>
    requires known { IsSome (D.holds _disk.old) }
    requires named { names_stream _words.now.picture.now ≡ false }
    requires others { IsHeld (D.holds _disk.old) _words.now.picture.now
        (picture_of _words.now drawing.now) → ⊥ }
    ensures wrong { OnOk result (IsHanded _words.now.picture.now (picture_of _words.now drawing.now)
        (legal_line drawing.now.sums)
        (world (D.holds _disk.old) None (W.contents out.old) (E.contents _err.old))
        (world (D.holds _disk.new) None (W.contents out.new) (E.contents _err.new)) → ⊥) }
{
    tell_sums(out, &drawing.sums)?;
    Ok(())
}
