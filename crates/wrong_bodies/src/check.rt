//! Wrong bodies of the checker of saved histories.

ghost use Rattle.std.specs.Prelude.{◌≡◌, ◌≢◌, ℕ, ◌+◌, ◌<◌, ◌^◌, Bool, true, List, Ok, Err, length, map, IfOk};
ghost use Rattle.ring_model.specs.declared.events.Event.{Event};
ghost use Rattle.ring_model.specs.Scanning.{MayCome};
ghost use Rattle.ring_model.specs.Surveys.{corrupted_count, granted_count};
ghost use Rattle.saved_history.specs.Content.{content, upgraded};
ghost use Rattle.ring_check.specs.Legal.{IsLegalText, IsRightCheck, summary_of};
ghost use Rattle.ring_check.specs.Lines.{lines};
ghost use Rattle.ring_check.specs.Meaning.{IsRightText};
ghost use Rattle.ring_check.specs.Members.{run_of, may_come};
ghost use Rattle.ring_check.specs.Table.{event_of};

use crate::numbers::another;
use ring_check::{CheckError, Kind, Summary, check_saved, count_events, members_as_defined};
use saved_history::{Saved, SavedEvent};
use std::alloc::Global;

/// The first bad line is answered: here another.
pub fn tells_another_line(alloc: Global, saved: &Saved) -> Result<Summary, CheckError>
    requires few { length (lines (content saved.now)) + 1 < 2 ^ 64 }
    requires bad { IsLegalText (content saved.now) → ⊥ }
    ensures wrong { result ≢ Err CheckError.OutOfMemory → IsRightCheck (content saved.now) result
        → ⊥ }
{
    match check_saved(alloc, saved) {
        Err(CheckError::Bad { line, kind }) => Err(CheckError::Bad {
            line: another(line),
            kind,
        }),
        answer => answer,
    }
}

/// The first thing that is wrong with a line is answered: here another.
pub fn tells_another_kind(alloc: Global, saved: &Saved) -> Result<Summary, CheckError>
    requires few { length (lines (content saved.now)) + 1 < 2 ^ 64 }
    requires bad { IsLegalText (content saved.now) → ⊥ }
    ensures wrong { result ≢ Err CheckError.OutOfMemory → IsRightCheck (content saved.now) result
        → ⊥ }
{
    match check_saved(alloc, saved) {
        Err(CheckError::Bad { line, kind }) => Err(CheckError::Bad {
            line,
            kind: another_kind(kind),
        }),
        answer => answer,
    }
}

/// A text with a bad line is not legal: here it is called so.
pub fn calls_a_bad_text_legal(alloc: Global, saved: &Saved) -> Result<Summary, CheckError>
    requires few { length (lines (content saved.now)) + 1 < 2 ^ 64 }
    requires bad { IsLegalText (content saved.now) → ⊥ }
    ensures wrong { result ≢ Err CheckError.OutOfMemory → IsRightCheck (content saved.now) result
        → ⊥ }
{
    match check_saved(alloc, saved) {
        Err(CheckError::Bad { .. }) => Ok(Summary {
            rings: 1,
            events: 0,
            granted: 0,
            corrupted: 0,
            surveys: 0,
        }),
        answer => answer,
    }
}

/// A legal text has no bad line: here its second is called one.
pub fn calls_a_legal_text_bad(alloc: Global, saved: &Saved) -> Result<Summary, CheckError>
    requires few { length (lines (content saved.now)) + 1 < 2 ^ 64 }
    requires legal { IsLegalText (content saved.now) }
    ensures wrong { result ≢ Err CheckError.OutOfMemory → IsRightCheck (content saved.now) result
        → ⊥ }
{
    match check_saved(alloc, saved) {
        Ok(_) => Err(CheckError::Bad {
            line: 2,
            kind: Kind::Parameter,
        }),
        answer => answer,
    }
}

/// The surveys of a legal text are summed up: here another number of them.
pub fn sums_another_number_of_surveys(alloc: Global, saved: &Saved) -> Result<Summary, CheckError>
    requires few { length (lines (content saved.now)) + 1 < 2 ^ 64 }
    ensures wrong { IfOk result (λ sums. IsRightCheck (content saved.now) (Ok sums) → ⊥) }
{
    let sums = check_saved(alloc, saved)?;
    Ok(Summary {
        surveys: another(sums.surveys),
        ..sums
    })
}

/// The granted passes of a legal text are summed up: here another number of them.
pub fn sums_another_number_of_grants(alloc: Global, saved: &Saved) -> Result<Summary, CheckError>
    requires few { length (lines (content saved.now)) + 1 < 2 ^ 64 }
    ensures wrong { IfOk result (λ sums. IsRightCheck (content saved.now) (Ok sums) → ⊥) }
{
    let sums = check_saved(alloc, saved)?;
    Ok(Summary {
        granted: another(sums.granted),
        ..sums
    })
}

/// The text itself is checked: here another, as one without its surveys, which has other sums.
pub fn checks_another_text(
    alloc: Global,
    saved: &Saved,
    other: &Saved,
) -> Result<Summary, CheckError>
    requires few { length (lines (content other.now)) + 1 < 2 ^ 64 }
    requires apart { summary_of (content other.now) ≢ summary_of (content saved.now) }
    ensures wrong { IfOk result (λ sums. IsRightCheck (content saved.now) (Ok sums) → ⊥) }
{
    check_saved(alloc, other)
}

/// A text is checked by the limits of its version: here by those of the latest, by which it may be legal.
pub fn checks_by_the_latest_limits(
    alloc: Global,
    saved: &Saved,
    newer: &Saved,
) -> Result<Summary, CheckError>
    requires few { length (lines (content newer.now)) + 1 < 2 ^ 64 }
    requires newer { content newer.now ≡ upgraded (content saved.now) }
    requires bad { IsLegalText (content saved.now) → ⊥ }
    ensures wrong { IfOk result (λ sums. IsRightCheck (content saved.now) (Ok sums) → ⊥) }
{
    check_saved(alloc, newer)
}

/// The last line says how many rings there are: here a text is called legal in which it does not.
pub fn calls_a_wrong_count_legal(
    alloc: Global,
    saved: &Saved,
    corrected: &Saved,
) -> Result<Summary, CheckError>
    requires few { length (lines (content corrected.now)) + 1 < 2 ^ 64 }
    requires count { (content saved.now).rings_said ≢ length (content saved.now).rings }
    ensures wrong { IfOk result (λ sums. IsRightText (content saved.now) → ⊥) }
{
    check_saved(alloc, corrected)
}

/// The granted passes of a block are counted: here all events that are not corruptions, where a pass was refused.
pub fn counts_refused_passes(events: &[SavedEvent]) -> u64
    requires some { granted_count (map event_of events.now)
        + corrupted_count (map event_of events.now)
        < length events.now }
    ensures wrong { result ≡ granted_count (map event_of events.now) → ⊥ }
{
    events.len() as u64 - count_events(events).corrupted
}

/// The corruptions of a block are counted: here another number of them.
pub fn counts_another_number_of_corruptions(events: &[SavedEvent]) -> u64
    ensures wrong { result ≡ corrupted_count (map event_of events.now) → ⊥ }
{
    another(count_events(events).corrupted)
}

/// The table's test says which event may come after a history: a test that says otherwise of any event does not.
pub fn tests_groups_in_another_way()
    ensures wrong { (test : ℕ → List Event → Event → Bool) (n : ℕ) (h : List Event) (e : Event)
        → test n (run_of h) e ≢ may_come n (run_of h) e
        → ((test n (run_of h) e ≡ true → MayCome n (run_of h) e.seat e.op)
        × (MayCome n (run_of h) e.seat e.op → test n (run_of h) e ≡ true)) → ⊥ }
{
    members_as_defined();
}

/// Another thing that can be wrong with a line.
fn another_kind(kind: Kind) -> Kind
    ensures { result ≢ kind }
{
    match kind {
        Kind::Parameter => Kind::Range,
        _ => Kind::Parameter,
    }
}
