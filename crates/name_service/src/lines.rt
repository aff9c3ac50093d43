//! Lines are answered by locks of any name.

ghost use Rattle.std.specs.Prelude.{◌≡◌, ◌++◌, ◌⊎◌, ℕ, List, false, OnOk, OnErr};
ghost use Rattle.name_service.specs.Serving.{IsNameServed};

use crate::service::{NameService, answer, are_kept};
use disks::Disk;
use line_service::{AnswersLines, Pending};
use lock_journal::Stage;
use lock_protocol::read_input;
use std::alloc::AllocError;

impl AnswersLines for NameService {
    ghost use Rattle.std.specs.Prelude.{false};
    ghost use Rattle.lock_journal.specs.Stages.{is_over};
    ghost use Rattle.name_service.specs.Serving.{IsNameServed};
    ghost use Rattle.name_service.specs.Starts.{by_start};

    ghost is_answered = { IsNameServed };

    ghost is_over = { λ s. is_over s.stage };

    ghost changes_files = { λ _. false };

    ghost by_start = { by_start };

    /// The line is answered, even if memory is short for the text of its answer; or on strict terms nothing has changed. The disk
    /// is not used.
    fn answer<D: Disk>(
        &mut self,
        disk: &mut D,
        line: &[u8],
        pending: &mut Pending,
    ) -> Result<(), AllocError>
        ensures ok { OnOk result ((said : List ℕ)
            × (noted : List ℕ)
            × IsNameServed self.old (D.holds disk.old) line.now said noted self.new
            (D.holds disk.new)
            × (pending.new.answers.items ≡ pending.old.answers.items ++ said)
            × (pending.new.notes.items ≡ pending.old.notes.items ++ noted)) }
        ensures err { OnErr result (((self.new ≡ self.old) × (D.holds disk.new ≡ D.holds disk.old))
            ⊎ ((said : List ℕ)
            × (noted : List ℕ)
            × IsNameServed self.old (D.holds disk.old) line.now said noted self.new
            (D.holds disk.new))) }
        ensures unchanged { false ≡ false
            → (D.leaves disk.new ≡ D.leaves disk.old) × (false ≡ false) }
    {
        let input = read_input(line);
        let told = answer(self, input, pending);
        are_kept(self); // says: they are, at each moment
        told
    }

    fn is_over(&self) -> bool {
        match self.stage {
            Stage::Due => true,
            Stage::Open | Stage::KeptOn => false,
        }
    }
}
