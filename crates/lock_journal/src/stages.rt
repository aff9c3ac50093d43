//! When a segment is to end, and whether lines are answered before that.

ghost use Rattle.std.specs.Prelude.{◌≡◌, ◌⊎◌, ◌&&◌};
ghost use Rattle.held_locks.specs.declared.answers.Refusal.{Refusal};
ghost use Rattle.lock_journal.specs.Stages.{is_to_end, stage_after};

use held_locks::Refusal;
use line_service::EndFault;

/// Whether lines are answered in a segment.
#[derive(Clone, Copy)]
pub enum Stage {
    /// They are.
    Open,
    /// It is to end first.
    Due,
    /// It is to end, and continues until it can be ended.
    KeptOn,
}

/// Whether lines are answered after a line.
pub fn stage_after(stage: Stage, past: bool) -> Stage
    ensures { result ≡ stage_after stage past }
{
    match stage {
        Stage::KeptOn => Stage::KeptOn,
        Stage::Open | Stage::Due => { if past { Stage::Due } else { Stage::Open } }
    }
}

/// Whether the segment is to end.
pub fn is_to_end(stage: Stage) -> bool
    ensures { result ≡ is_to_end stage }
{
    match stage {
        Stage::Open => false,
        Stage::Due | Stage::KeptOn => true,
    }
}

/// Whether no line is answered since the segment is to end, on strict terms.
pub fn is_stopped(strict: bool, stage: Stage) -> bool
    ensures { result ≡ (strict && is_to_end stage) }
{
    strict && is_to_end(stage)
}

/// Why a segment that is due is not ended.
pub fn end_fault(why: Refusal) -> EndFault
    ensures { ((result ≡ EndFault.Full) × (why ≡ Refusal.Full)) ⊎ (result ≡ EndFault.OutOfMemory) }
{
    match why {
        Refusal::Full => EndFault::Full,
        _ => EndFault::OutOfMemory,
    }
}
