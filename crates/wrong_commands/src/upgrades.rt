//! Upgrades and joins, each broken.

ghost use Rattle.std.specs.Prelude.{◌≡◌, ◌≢◌, ◌⊎◌, ℕ, List, [], IsSome, IfSome};
ghost use Rattle.disks.specs.Held.{IsHeld};
ghost use Rattle.ring_check.specs.declared.answers.Summary.{Summary};
ghost use Rattle.saved_history.specs.Content.{Content};
ghost use Rattle.folder_commands.specs.JoinedFolder.{IsJoinable};
ghost use Rattle.text_commands.specs.Upgraded.{IsUpgradeOf};
ghost use Rattle.wrong_commands.specs.Nowhere.{IsGiven};

use disks::Disk;
use folder_commands::join;
use std::alloc::Global;
use std::io::{self, Read, Write};
use text_commands::upgrade;
use tool_parts::faults::ToolError;
use tool_parts::requests::{JoinWords, UpgradeWords};

/// A disk that counts how often a file was made there.
pub trait CountedDisk: Disk {
    ghost use Rattle.std.specs.Prelude.{ℕ, ◌≡◌, ◌+◌};

    ghost made: { Self → ℕ };

    /// Makes the file, and counts it. No file changes.
    fn make_counted(&mut self, name: &str) -> io::Result<Self::New>
        ensures counted { made self.new ≡ made self.old + 1 }
        ensures kept { Self.holds self.new ≡ Self.holds self.old };
}

/// The new file is made only where the text is legal: it is made before the text is read.
pub fn file_that_is_made_before_the_check<'a, D: CountedDisk, I: Read, W: Write, E: Write>(
    alloc: Global,
    disk: &mut D,
    words: &UpgradeWords<'a>,
    input: &mut I,
    out: &mut W,
    err: &mut E,
) -> Result<(), ToolError<'a>>
    ensures wrong { ((bytes : List ℕ) (c : Content) (sums : Summary)
        → IsGiven words.now D.holds disk.old I.remaining input.old input.new bytes
        → IsUpgradeOf bytes c sums → ⊥)
        → (disk.new ≡ disk.old)
        ⊎ ((bytes : List ℕ)
        × (c : Content)
        × (sums : Summary)
        × IsGiven words.now D.holds disk.old I.remaining input.old input.new bytes
        × IsUpgradeOf bytes c sums) → ⊥ }
{
    let _early = disk.make_counted(words.new);
    upgrade::run(alloc, disk, words, input, out, err)
}

/// After a refusal every file is as it was: the new file is emptied before the other one is read.
pub fn file_that_is_emptied_before_the_check<'a, D: Disk, I: Read, W: Write, E: Write>(
    alloc: Global,
    disk: &mut D,
    words: &UpgradeWords<'a>,
    input: &mut I,
    out: &mut W,
    err: &mut E,
) -> Option<ToolError<'a>>
    requires known { IsSome (D.holds disk.old) }
    requires some { IsHeld (D.holds disk.old) words.now.new.now [] → ⊥ }
    ensures wrong { IfSome result
        (λ e. e ≢ ToolError.Write → D.holds disk.new ≡ D.holds disk.old → ⊥) }
{
    let Ok(made) = disk.make(words.new) else {
        return None;
    };
    let Ok(()) = disk.finish(made, words.new) else {
        return None;
    };
    match upgrade::run(alloc, disk, words, input, out, err) {
        Ok(()) | Err(ToolError::Write) => None,
        Err(fault) => Some(fault),
    }
}

/// The new file is made only where the folder holds a chain: it is made before the folder is listed.
pub fn file_that_is_made_before_the_join<'a, D: CountedDisk, W: Write, E: Write>(
    alloc: Global,
    disk: &mut D,
    words: &JoinWords<'a>,
    out: &mut W,
    err: &mut E,
) -> Result<(), ToolError<'a>>
    ensures wrong { (IsJoinable words.now (D.holds disk.old) → ⊥)
        → (disk.new ≡ disk.old) ⊎ IsJoinable words.now (D.holds disk.old) → ⊥ }
{
    let _early = disk.make_counted(words.new);
    join::run(alloc, disk, words, out, err)
}
