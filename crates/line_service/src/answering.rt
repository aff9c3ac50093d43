//! What answers a line.

ghost use Rattle.std.specs.Prelude.{◌≡◌, ℕ, List, Option, Bool, true, false, OnOk, OnErr};
ghost use Rattle.disks.specs.Held.{Held};
ghost use Rattle.line_service.specs.Answering.{IsByStart};
ghost use Rattle.line_service.specs.Stands.{by_stand, IsAnsweredInto, IsSameOrAnswered, LeavesFiles};

use crate::pending::Pending;
use disks::Disk;
use std::alloc::AllocError;

/// What answers lines, one after the other. It may read files and change them.
pub trait AnswersLines {
    /// From the one to the other a line was answered, with the content of files before and after it: the line, the text of its
    /// answer, and its notes.
    ghost is_answered: { Self → Option Held → List ℕ → List ℕ → List ℕ → Self → Option Held
        → Type 0 };

    /// No line is answered any more until something else is done.
    ghost is_over: { Self → Bool };

    /// Whether an answer may change what is left of files (`leaves` of a disk). Where none does, none does later.
    ghost changes_files: { Self → Bool } = { λ _. true };

    /// Answers a line, which has its LF: its answer and its notes are pending then.
    ///
    /// # Errors
    ///
    /// Out of memory, where there was none for the answer or the notes: the line is answered, or nothing has changed.
    fn answer<D: Disk>(
        &mut self,
        disk: &mut D,
        line: &[u8],
        pending: &mut Pending,
    ) -> Result<(), AllocError>
        requires { is_over self.old ≡ false }
        ensures ok { OnOk result (IsAnsweredInto is_answered line.now self.old (D.holds disk.old)
            self.new (D.holds disk.new) pending.old pending.new) }
        ensures err { OnErr result (IsSameOrAnswered is_answered line.now self.old
            (D.holds disk.old) self.new (D.holds disk.new)) }
        ensures unchanged { LeavesFiles changes_files D.leaves self.old disk.old self.new disk.new };

    /// Whether no line is answered any more until something else is done.
    fn is_over(&self) -> bool
        ensures { result ≡ is_over self.now };

    /// Of a line that is too long only the kept part is looked at.
    ghost by_start: { IsByStart (by_stand is_answered) };
}
