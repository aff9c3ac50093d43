//! Wrong answers for a folder of segments: each accepts one that is refused, leaves a file out, refuses what is allowed, or lets the
//! folder's lock go.

ghost use Rattle.std.specs.Prelude.{◌≡◌, ◌≤◌, ◌+◌, ℕ, List, Option, Some, IsSome, IfSome, IfOk, IfErr, OnOk, false};
ghost use Rattle.segment_files.specs.Spelling.{no_digest};
ghost use Rattle.segment_files.specs.Files.{File};
ghost use Rattle.line_service.specs.SegmentNumbers.{IsRightNumbers};
ghost use Rattle.tool_parts.specs.Chained.{IsChainIn, sums_of, last_digest};
ghost use Rattle.folder_commands.specs.JoinedFolder.{IsJoinRefusal};
ghost use Rattle.disks.specs.Folders.{LeadsInto};
ghost use Rattle.tool_parts.specs.Outside.{LiesElsewhere};
ghost use Rattle.disks.specs.Held.{is_locked};
ghost use Rattle.tool_parts.specs.Locking.{lock_of, IsLocked};
ghost use Rattle.tool_parts.specs.Worlds.{world};

use disks::{Disk, FolderEntry};
use line_service::{FolderError, SegmentNumbers, numbers_among};
use segment_files::{ChainSums, DIGEST_DIGITS};
use std::alloc::Global;
use tool_parts::chain::chain_in;
use tool_parts::faults::ToolError;
use tool_parts::locking::hold_journal;
use tool_parts::requests::JoinWords;

/// Between two segments none is missing: here a gap is accepted, whichever the first and the last are said to be.
pub fn accepts_a_gap(
    alloc: Global,
    entries: &[FolderEntry],
    numbers: SegmentNumbers,
) -> Option<Result<Option<SegmentNumbers>, FolderError>>
    ensures wrong { IfSome result (λ answer. IsRightNumbers entries.now answer → ⊥) }
{
    match numbers_among(alloc, entries) {
        Err(FolderError::Missing(_)) => Some(Ok(Some(numbers))),
        _ => None,
    }
}

/// Each name has its place in a folder of segments: here a foreign one is accepted.
pub fn accepts_a_foreign_name(
    alloc: Global,
    entries: &[FolderEntry],
    numbers: Option<SegmentNumbers>,
) -> Option<Result<Option<SegmentNumbers>, FolderError>>
    ensures wrong { IfSome result (λ answer. IsRightNumbers entries.now answer → ⊥) }
{
    match numbers_among(alloc, entries) {
        Err(FolderError::Foreign(_)) => Some(Ok(numbers)),
        _ => None,
    }
}

/// The sums are those of all segments of the folder: here the first one is left out.
pub fn skips_the_first_file<'a, D: Disk>(
    alloc: Global,
    disk: &D,
    folder: &'a str,
    numbers: SegmentNumbers,
) -> Result<(ChainSums, [u8; DIGEST_DIGITS]), ToolError<'a>>
    requires some { numbers.first + 1 ≤ numbers.last }
    ensures wrong { IfOk result (λ x. (fs : List File)
        × IsChainIn (D.holds disk.now) folder.now numbers fs
        × (x.0 ≡ sums_of fs)
        × (x.1 ≡ last_digest no_digest fs) → ⊥) }
{
    let later = SegmentNumbers {
        first: numbers.first + 1,
        last: numbers.last,
    };
    match chain_in(alloc, disk, folder, later) {
        Ok(found) => Ok(found),
        Err(fault) => Err(fault),
    }
}

/// Only of a file that is to be made in the folder it is said that it lies there: here it is said of one elsewhere.
pub fn refuses_a_file_elsewhere<'a, D: Disk>(
    _disk: &D,
    words: &JoinWords<'a>,
) -> Result<(), ToolError<'a>>
    requires known { IsSome (D.holds _disk.now) }
    requires elsewhere { LiesElsewhere (D.holds _disk.now) words.now.folder.now
        (Some words.now.new.now) }
    requires apart { LeadsInto (D.holds _disk.now) words.now.folder.now words.now.new.now → ⊥ }
    ensures wrong { IfErr result (λ e. (input out err : Option (List ℕ))
        → IsJoinRefusal words.now (world (D.holds _disk.now) input out err)
        (world (D.holds _disk.now) input out err) e → ⊥) }
{
    Err(ToolError::InFolder(words.new))
}

/// A folder that is locked stays so: here its lock is let go at once.
pub fn lets_the_lock_go<'a, D: Disk>(
    disk: &mut D,
    name: &'a str,
    _folder: &str,
) -> Result<(), ToolError<'a>>
    requires named { name.now ≡ lock_of _folder.now }
    requires known { IsSome (D.holds disk.old) }
    requires free { IfSome (D.holds disk.old) (λ held. is_locked held name.now ≡ false) }
    ensures wrong { OnOk result (IsLocked (D.holds disk.old) (D.holds disk.new) _folder.now → ⊥) }
{
    let Ok(_made) = disk.create(name) else {
        return Err(ToolError::Save(name));
    };
    match hold_journal(disk, name) {
        Ok(lock) => {
            drop(lock);
            Ok(())
        }
        Err(fault) => Err(fault),
    }
}
