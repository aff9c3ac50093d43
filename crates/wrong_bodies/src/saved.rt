//! Wrong bodies of the reader, the writer and the upgrade of saved texts.

ghost use Rattle.std.specs.Prelude.{◌≡◌, ◌≢◌, ◌≤◌, ℕ, IfOk, IfErr, IsSome, length};
ghost use Rattle.text_lines.specs.Texts.{IsCutShort, IsFirstBadLine};
ghost use Rattle.text_lines.specs.Writing.{Writes};
ghost use Rattle.saved_history.specs.Content.{content, upgraded};
ghost use Rattle.saved_history.specs.Meaning.{IsRightRead, IsText};
ghost use Rattle.saved_history.specs.Spelling.{Fits, HasNoMember, text};
ghost use Rattle.saved_history.specs.Versions.{first_version, latest_version, IsVersion};

use crate::numbers::{another, another_narrow};
use saved_history::{
    ReadError, Saved, WriteFault, first_version_has_no_members, read_saved, upgrade, write_saved,
};
use std::alloc::Global;
use std::io::Write;

/// The written text is that of the value: here that of another, as of a history that is cut, of fewer surveys or of
/// another start.
pub fn writes_another_value<W: Write>(
    saved: &Saved,
    other: &Saved,
    out: &mut W,
) -> Result<(), WriteFault>
    requires some { 1 ≤ length other.now.rings.items }
    requires version { IsVersion other.now.version }
    requires members { other.now.version ≡ first_version → HasNoMember (content other.now) }
    requires fits { Fits (content saved.now) }
    requires apart { content other.now ≢ content saved.now }
    requires known { IsSome (W.contents out.old) }
    ensures wrong { IfOk result (λ _.
        Writes (W.contents out.old) (W.contents out.new) result (text (content saved.now)) → ⊥) }
{
    write_saved(other, out)?;
    Ok(())
}

/// A fault of the writer is reported just where there was one: here it is the other way.
pub fn tells_faults_the_other_way<W: Write>(
    saved: &Saved,
    out: &mut W,
    fault: WriteFault,
) -> Result<(), WriteFault>
    requires some { 1 ≤ length saved.now.rings.items }
    requires version { IsVersion saved.now.version }
    requires members { saved.now.version ≡ first_version → HasNoMember (content saved.now) }
    requires known { IsSome (W.contents out.old) }
    ensures wrong { Writes (W.contents out.old) (W.contents out.new) result
        (text (content saved.now)) → ⊥ }
{
    match write_saved(saved, out) {
        Ok(()) => Err(fault),
        Err(_) => Ok(()),
    }
}

/// A text is read as its value: here as one with another number of rings.
#[tactic(auto, using(crate::proofs::Texts::one_value_is_read))]
pub fn reads_another_count(alloc: Global, bytes: &[u8]) -> Result<Saved, ReadError>
    ensures wrong { IfOk result (λ saved. IsRightRead bytes.now (Ok saved) → ⊥) }
{
    match read_saved(alloc, bytes) {
        Ok(saved) => Ok(recounted(saved)),
        Err(error) => Err(error),
    }
}

/// A text is read as its value: here as another, as one that lacks an event or a survey.
#[tactic(auto, using(crate::proofs::Texts::one_value_is_read))]
pub fn reads_another_value(
    alloc: Global,
    bytes: &[u8],
    value: &Saved,
    other: Saved,
) -> Result<Saved, ReadError>
    requires value { IsRightRead bytes.now (Ok value.now) }
    requires apart { content other ≢ content value.now }
    ensures wrong { IfOk result (λ saved. IsRightRead bytes.now (Ok saved) → ⊥) }
{
    match read_saved(alloc, bytes) {
        Ok(_) => Ok(other),
        Err(error) => Err(error),
    }
}

/// The whole of the bytes is read: here others are, as all but the last of them.
pub fn reads_other_bytes(alloc: Global, bytes: &[u8], others: &[u8]) -> Result<Saved, ReadError>
    requires apart { others.now ≢ bytes.now }
    ensures wrong { IfOk result (λ saved. IsRightRead bytes.now (Ok saved) → ⊥) }
{
    read_saved(alloc, others)
}

/// A text of the first version has no line of a group's member: here it is read as a value that has one.
pub fn reads_a_member_in_the_first_version(
    alloc: Global,
    bytes: &[u8],
    saved: Saved,
) -> Result<Saved, ReadError>
    requires first { saved.version ≡ first_version }
    requires member { HasNoMember (content saved) → ⊥ }
    ensures wrong { IsRightRead bytes.now result → ⊥ }
{
    first_version_has_no_members();
    match read_saved(alloc, bytes) {
        Ok(_) => Ok(saved),
        Err(_) => Ok(saved),
    }
}

/// Bytes that are not a text have no value: here they are read as some value.
pub fn reads_what_is_no_text(alloc: Global, bytes: &[u8], saved: Saved) -> Result<Saved, ReadError>
    requires none { IsText bytes.now → ⊥ }
    ensures wrong { IsRightRead bytes.now result → ⊥ }
{
    match read_saved(alloc, bytes) {
        Ok(read) => Ok(read),
        Err(_) => Ok(saved),
    }
}

/// A text is not refused: here it is reported as cut short.
pub fn tells_a_text_as_cut_short(alloc: Global, bytes: &[u8]) -> Result<Saved, ReadError>
    requires text { IsText bytes.now }
    ensures wrong { IsRightRead bytes.now result → ⊥ }
{
    let _answer = read_saved(alloc, bytes);
    Err(ReadError::Truncated)
}

/// A bad line is reported: here the bytes are reported as cut short.
#[tactic(auto, using(crate::proofs::Texts::no_bad_line_is_cut))]
pub fn tells_a_bad_line_as_cut_short(
    alloc: Global,
    bytes: &[u8],
    line: u64,
) -> Result<Saved, ReadError>
    requires bad { IsFirstBadLine IsText bytes.now line }
    ensures wrong { IsRightRead bytes.now result → ⊥ }
{
    match read_saved(alloc, bytes) {
        Ok(_) => Err(ReadError::Truncated),
        Err(_) => Err(ReadError::Truncated),
    }
}

/// Bytes that are cut short are reported as that: here as a bad line.
#[tactic(auto, using(crate::proofs::Texts::no_cut_is_bad))]
pub fn tells_what_is_cut_short_as_a_bad_line(
    alloc: Global,
    bytes: &[u8],
) -> Result<Saved, ReadError>
    requires cut { IsCutShort IsText bytes.now }
    ensures wrong { IsRightRead bytes.now result → ⊥ }
{
    match read_saved(alloc, bytes) {
        Ok(_) => Err(ReadError::Syntax(1)),
        Err(_) => Err(ReadError::Syntax(1)),
    }
}

/// The first bad line is reported: here another.
#[tactic(auto, using(crate::proofs::Texts::one_bad_line))]
pub fn tells_another_bad_line(alloc: Global, bytes: &[u8]) -> Result<Saved, ReadError>
    ensures wrong { IfErr result
        (λ error. (line : ℕ) → error ≡ ReadError.Syntax line → IsRightRead bytes.now result → ⊥) }
{
    match read_saved(alloc, bytes) {
        Err(ReadError::Syntax(line)) => Err(ReadError::Syntax(another(line))),
        Err(error) => Err(error),
        Ok(saved) => Ok(saved),
    }
}

/// An upgrade changes nothing but the version: here the number of rings too.
pub fn upgrades_with_another_count(saved: Saved) -> Saved
    ensures wrong { content result ≡ upgraded (content saved) → ⊥ }
{
    recounted(upgrade(saved))
}

/// An upgrade gives the latest version: here the value stays in its own.
pub fn upgrades_nothing(saved: Saved) -> Saved
    requires earlier { saved.version ≢ latest_version }
    ensures wrong { content result ≡ upgraded (content saved) → ⊥ }
{
    saved
}

/// The value with another number of rings.
fn recounted(saved: Saved) -> Saved
    ensures { (content result).rings_said ≢ saved.rings_said }
{
    Saved {
        rings_said: another_narrow(saved.rings_said),
        ..saved
    }
}
