//! The texts on a farm, each broken: a saved text, a report or a total with one thing wrong.

ghost use Rattle.std.specs.Prelude.{◌≡◌, ◌≢◌, ◌<◌, ◌≤◌, ◌^◌, IsSome, length, IfOk};
ghost use Rattle.text_lines.specs.Writing.{Writes};
ghost use Rattle.ring_settings.specs.Limits.{ring_limit};
ghost use Rattle.saved_history.specs.Content.{content};
ghost use Rattle.saved_history.specs.Spelling.{Fits, HasNoMember, text};
ghost use Rattle.saved_history.specs.Versions.{first_version};
ghost use Rattle.ring_text.specs.Report.{entries_in, report, farm_line};
ghost use Rattle.ring_text.specs.SavedOf.{saved_of};

use ring_farm::Outcome;
use ring_text::{WriteFault, write_outcome, write_report, write_total};
use saved_history::{Saved, write_saved};
use std::io::Write;

/// The saved text says all of an outcome: that of another one is written, as of one whose history is cut.
pub fn text_of_another_outcome<W: Write>(
    outcome: &Outcome,
    other: &Outcome,
    out: &mut W,
) -> Result<(), WriteFault>
    requires some { 1 ≤ length other.now.rings.items }
    requires most { length other.now.rings.items ≤ ring_limit }
    requires known { IsSome (W.contents out.old) }
    requires apart { saved_of other.now ≢ saved_of outcome.now }
    ensures wrong { IfOk result (λ _. Writes (W.contents out.old) (W.contents out.new) result
        (text (saved_of outcome.now)) → Fits (saved_of outcome.now) → ⊥) }
{
    write_outcome(other, out)?;
    Ok(())
}

/// Each ring of an outcome is written: the last one is left out.
pub fn text_without_its_last_ring<W: Write>(
    outcome: &mut Outcome,
    out: &mut W,
) -> Result<(), WriteFault>
    requires some { 2 ≤ length outcome.old.rings.items }
    requires most { length outcome.old.rings.items ≤ ring_limit }
    requires known { IsSome (W.contents out.old) }
    ensures wrong { IfOk result (λ _. Writes (W.contents out.old) (W.contents out.new) result
        (text (saved_of outcome.old)) → Fits (saved_of outcome.old) → ⊥) }
{
    outcome.rings.pop();
    write_outcome(outcome, out)?;
    Ok(())
}

/// An outcome is written once: it is written twice.
pub fn text_that_is_written_twice<W: Write>(
    outcome: &Outcome,
    out: &mut W,
) -> Result<(), WriteFault>
    requires some { 1 ≤ length outcome.now.rings.items }
    requires most { length outcome.now.rings.items ≤ ring_limit }
    requires known { IsSome (W.contents out.old) }
    ensures wrong { IfOk result (λ _.
        Writes (W.contents out.old) (W.contents out.new) result (text (saved_of outcome.now)) → ⊥) }
{
    write_outcome(outcome, out)?;
    write_outcome(outcome, out)?;
    Ok(())
}

/// The outcome of a farm is written in the latest version: the same is written in the first one.
pub fn text_in_the_first_version<W: Write>(
    outcome: &Outcome,
    saved: &Saved,
    out: &mut W,
) -> Result<(), WriteFault>
    requires some { 1 ≤ length saved.now.rings.items }
    requires same { content saved.now ≡ record (saved_of outcome.now) { version = first_version } }
    requires members { HasNoMember (content saved.now) }
    requires known { IsSome (W.contents out.old) }
    ensures wrong { IfOk result (λ _. Writes (W.contents out.old) (W.contents out.new) result
        (text (saved_of outcome.now)) → Fits (saved_of outcome.now) → ⊥) }
{
    write_saved(saved, out)?;
    Ok(())
}

/// A report has the lines of each ring: only the line of the farm is written.
pub fn report_without_its_rings<W: Write>(outcome: &Outcome, out: &mut W) -> Result<(), WriteFault>
    requires some { 1 ≤ length outcome.now.rings.items }
    requires most { length outcome.now.rings.items ≤ ring_limit }
    requires few { entries_in outcome.now < 2 ^ 64 }
    requires known { IsSome (W.contents out.old) }
    ensures wrong { IfOk result
        (λ _. Writes (W.contents out.old) (W.contents out.new) result (report outcome.now) → ⊥) }
{
    write_total(outcome, out)?;
    Ok(())
}

/// A report counts what its outcome has: that of another one is written, which reads otherwise.
pub fn report_of_another_outcome<W: Write>(
    outcome: &Outcome,
    other: &Outcome,
    out: &mut W,
) -> Result<(), WriteFault>
    requires most { length other.now.rings.items ≤ ring_limit }
    requires few { entries_in other.now < 2 ^ 64 }
    requires known { IsSome (W.contents out.old) }
    requires apart { report other.now ≢ report outcome.now }
    ensures wrong { IfOk result
        (λ _. Writes (W.contents out.old) (W.contents out.new) result (report outcome.now) → ⊥) }
{
    write_report(other, out)?;
    Ok(())
}

/// A total adds up over the rings of its outcome: that of another one is written, which reads otherwise.
pub fn total_of_another_outcome<W: Write>(
    outcome: &Outcome,
    other: &Outcome,
    out: &mut W,
) -> Result<(), WriteFault>
    requires most { length other.now.rings.items ≤ ring_limit }
    requires few { entries_in other.now < 2 ^ 64 }
    requires known { IsSome (W.contents out.old) }
    requires apart { farm_line other.now ≢ farm_line outcome.now }
    ensures wrong { IfOk result
        (λ _. Writes (W.contents out.old) (W.contents out.new) result (farm_line outcome.now) → ⊥) }
{
    write_total(other, out)?;
    Ok(())
}

/// A total is one line: the whole report is written.
pub fn total_with_the_rings<W: Write>(outcome: &Outcome, out: &mut W) -> Result<(), WriteFault>
    requires some { 1 ≤ length outcome.now.rings.items }
    requires most { length outcome.now.rings.items ≤ ring_limit }
    requires few { entries_in outcome.now < 2 ^ 64 }
    requires known { IsSome (W.contents out.old) }
    ensures wrong { IfOk result
        (λ _. Writes (W.contents out.old) (W.contents out.new) result (farm_line outcome.now) → ⊥) }
{
    write_report(outcome, out)?;
    Ok(())
}
