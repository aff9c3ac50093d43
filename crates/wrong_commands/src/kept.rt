//! Journals that are kept wrongly: in segments where no folder is, and in a file where one is; or emptied.

ghost use Rattle.std.specs.Prelude.{◌≡◌, ℕ, List, ◌∷◌, Option, true, false, Some, None, IsSome, IfSome, OnOk, IfOk};
ghost use Rattle.disks.specs.Held.{bytes_of, is_folder, is_there, IsOneFile};
ghost use Rattle.disks.specs.Entries.{held_of};
ghost use Rattle.line_service.specs.SegmentNames.{segment_file};
ghost use Rattle.saved_history.specs.declared.saved.Saved.{Saved};
ghost use Rattle.segment_files.specs.Spelling.{DigestFits};
ghost use Rattle.ring_service.specs.Standings.{Standing};
ghost use Rattle.serve_commands.specs.Served.{journal_of};
ghost use Rattle.serve_commands.specs.ServeAnswer.{IsServedTo, IsServeRefusal};
ghost use Rattle.tool_parts.specs.Worlds.{world};

use disks::{Contents, ContentsFault, Disk, MemoryDisk, ReplaceFault, replace};
use line_service::{EndFault, begin_segment, close_segment};
use ring_service::{ChainRules, RingService, Served};
use segment_files::DIGEST_DIGITS;
use serve_commands::serve::run;
use std::alloc::Global;
use std::io::{Read, Write};
use tool_parts::faults::ToolError;
use tool_parts::requests::ServeWords;

/// A journal is kept in segments only if its name is a folder's: here it is, where there was nothing.
pub fn serves_a_new_name_as_a_folder<D: Disk>(
    alloc: Global,
    disk: &mut D,
    _words: &ServeWords<'_>,
    served: Served,
    behind: [u8; DIGEST_DIGITS],
    rules: ChainRules<'_>,
) -> Result<(), EndFault>
    requires digits { DigestFits behind }
    requires named { journal_of _words.now ≡ Some rules.files.folder.now }
    requires known { IsSome (D.holds disk.old) }
    requires new { IfSome (D.holds disk.old) (λ held. is_there held rules.files.folder.now ≡ false) }
    requires apart { IfSome (D.holds disk.old) (λ held.
        IsOneFile held (segment_file rules.files.folder.now 1) rules.files.folder.now → ⊥) }
    ensures wrong { OnOk result ((saved : Option Saved) (end : List Standing)
        (was is old new : Option (List ℕ)) → IsServedTo _words.now saved end (D.holds disk.old)
        (D.holds disk.new) was is old new → ⊥) }
{
    if rules.limit == 0 {
        return Err(EndFault::File);
    }
    let service = RingService::in_segment(alloc, served, rules, 1);
    let first = match begin_segment(alloc, disk, &service, 1, behind, rules.files) {
        Ok(first) => first,
        Err(why) => return Err(why),
    };
    match close_segment(disk, first) {
        Ok(()) => Ok(()),
        Err(_) => Err(EndFault::File),
    }
}

/// A journal is kept in a file only if its name is not a folder's: here it is put into one beside an empty folder.
pub fn serves_an_empty_folder_as_a_file<D: Disk, C: Contents>(
    alloc: Global,
    disk: &mut D,
    _words: &ServeWords<'_>,
    _folder: &str,
    file: &str,
    journal: &C,
) -> Result<(), ReplaceFault>
    requires ready { C.ready journal.now }
    requires named { journal_of _words.now ≡ Some _folder.now }
    requires known { IsSome (D.holds disk.old) }
    requires folder { IfSome (D.holds disk.old) (λ held. is_folder held _folder.now ≡ true) }
    requires empty { IfSome (D.holds disk.old) (λ held. (n : ℕ)
        → bytes_of held (segment_file _folder.now n) ≡ None) }
    requires apart { IfSome (D.holds disk.old) (λ held. (n : ℕ)
        → IsOneFile held file.now (segment_file _folder.now n) → ⊥) }
    ensures wrong { OnOk result ((saved : Option Saved) (end : List Standing)
        (was is old new : Option (List ℕ)) → IsServedTo _words.now saved end (D.holds disk.old)
        (D.holds disk.new) was is old new → ⊥) }
{
    match replace(alloc, disk, file, journal) {
        Ok(()) => Ok(()),
        Err(fault) => Err(fault),
    }
}

/// No bytes, which a file is to hold.
#[derive(Drop)]
struct Nothing {}

impl Contents for Nothing {
    ghost use Rattle.std.specs.Prelude.{[]};

    ghost bytes = { λ _. [] };

    fn write_to<W: Write>(&self, _out: &mut W) -> Result<(), ContentsFault> {
        Ok(())
    }
}

/// A journal is as it was after a refusal before it is begun anew, and is begun anew after others: here it is emptied, and this is
/// reported as a refusal.
pub fn empties_the_journal_when_it_refuses<'a, D: Disk>(
    alloc: Global,
    disk: &mut D,
    _words: &ServeWords<'a>,
    name: &'a str,
) -> Result<ToolError<'a>, ReplaceFault>
    requires named { journal_of _words.now ≡ Some name.now }
    requires known { IsSome (D.holds disk.old) }
    requires some { IfSome (D.holds disk.old) (λ held. (b : ℕ)
        × (bs : List ℕ)
        × (bytes_of held name.now ≡ Some (b ∷ bs))) }
    ensures wrong { IfOk result (λ e. (input rest out after early late : Option (List ℕ))
        → IsServeRefusal _words.now (world (D.holds disk.old) input out early)
        (world (D.holds disk.new) rest after late) e → ⊥) }
{
    match replace(alloc, disk, name, &Nothing {}) {
        Ok(()) => Ok(ToolError::Save(name)),
        Err(fault) => Err(fault),
    }
}

/// A journal keeps what was answered when serving ends in a fault: here it is emptied then.
pub fn empties_the_journal_after_a_fault<'a, I: Read, W: Write, E: Write>(
    alloc: Global,
    disk: &mut MemoryDisk,
    words: &ServeWords<'a>,
    name: &'a str,
    input: &mut I,
    out: &mut W,
    err: &mut E,
) -> Option<ToolError<'a>>
    requires named { journal_of words.now ≡ Some name.now }
    requires some { (b : ℕ)
        × (bs : List ℕ)
        × (bytes_of (held_of disk.old.entries.items) name.now ≡ Some (b ∷ bs)) }
    ensures wrong { IfSome result (λ e. IsServeRefusal words.now
        (world (Some (held_of disk.old.entries.items)) (I.remaining input.old) (W.contents out.old)
        (E.contents err.old))
        (world (Some (held_of disk.new.entries.items)) (I.remaining input.new) (W.contents out.new)
        (E.contents err.new)) e → ⊥) }
{
    let fault = match run(alloc, disk, words, input, out, err) {
        Ok(()) => return None,
        Err(fault) => fault,
    };
    match replace(alloc, disk, name, &Nothing {}) {
        Ok(()) => Some(fault),
        Err(_) => None,
    }
}
