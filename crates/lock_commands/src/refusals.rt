//! The program's names for what is refused of locks.

ghost use Rattle.std.specs.Prelude.{◌≡◌};
ghost use Rattle.tool_parts.specs.Chained.{IsFolderFault};
ghost use Rattle.lock_commands.specs.Refusals.{cause_of, remark_cause, fault_of_list, IsStartName, IsBeginName, IsLoopName};

use folder_of_locks::{ListError, StartFault};
use line_service::{EndFault, FolderError, LoopFault};
use name_remarks::NotTaken;
use ring_settings::RingCause;
use ring_state::ParamsError;
use text_commands::names::judge_fault;
use tool_parts::faults::ToolError;

/// The fault of a size.
fn cause_of(error: ParamsError) -> RingCause
    ensures { result ≡ cause_of error }
{
    match error {
        ParamsError::TooFew => RingCause::TooFew,
        ParamsError::TooMany => RingCause::TooMany,
        ParamsError::FewValues => RingCause::FewValues,
        ParamsError::ManyValues => RingCause::ManyValues,
    }
}

/// Returns the refusal of a list that is named.
pub(crate) fn list_refusal<'a>(error: ListError) -> ToolError<'a>
    ensures { result ≡ fault_of_list error }
{
    match error {
        ListError::Syntax => ToolError::BadList,
        ListError::Many => ToolError::ManyLocks,
        ListError::Size(place, error) => ToolError::Ring(place, cause_of(error)),
        ListError::Twice(place) => ToolError::Twice(place),
        ListError::OutOfMemory => ToolError::OutOfMemory,
    }
}

/// Returns the refusal of the names in a folder.
pub(crate) fn folder_refusal<'a>(error: FolderError, folder: &'a str) -> ToolError<'a>
    ensures { IsFolderFault folder.now error result }
{
    match error {
        FolderError::Unlisted => ToolError::Read(folder),
        FolderError::Foreign(name) => ToolError::Foreign(folder, name),
        FolderError::Irregular(number) => ToolError::Irregular(folder, number),
        FolderError::Missing(number) => ToolError::Missing(folder, number),
        FolderError::OutOfMemory => ToolError::OutOfMemory,
    }
}

/// Why a line of a segment says nothing of names.
fn remark_cause(why: NotTaken) -> &'static str
    ensures { result.now ≡ remark_cause why }
{
    match why {
        NotTaken::Misspelled => "misspelled",
        NotTaken::Ring => "there is no such ring",
        NotTaken::OutOfMemory => "out of memory",
    }
}

/// Returns the refusal for locks of a folder that do not start, with holders of a file.
pub(crate) fn start_refusal<'a>(fault: StartFault, folder: &'a str, file: &'a str) -> ToolError<'a>
    ensures { IsStartName folder.now file.now fault result }
{
    match fault {
        StartFault::Folder(error) => folder_refusal(error, folder),
        StartFault::Word(error) => list_refusal(error),
        StartFault::NoLocks => ToolError::NoLocks(folder),
        StartFault::NoLocksFile => ToolError::NoLocksFile(folder),
        StartFault::UnreadLocks => ToolError::UnreadLocks(folder),
        StartFault::BadLocks => ToolError::BadLocks(folder),
        StartFault::ManyLocks => ToolError::ManyLocks,
        StartFault::OtherLock(place) => ToolError::OtherLock(folder, place),
        StartFault::UnreadSegment(number) => ToolError::UnreadSegment(folder, number),
        StartFault::Segment(number, error) => ToolError::Segment(folder, number, error),
        StartFault::OtherRing(place) => ToolError::OtherRing(folder, place),
        StartFault::Full(place) => ToolError::Full(place as u64),
        // a list with a pool is started by names only
        StartFault::NoPool => ToolError::BadLocks(folder),
        StartFault::Remark(number, line, why) => {
            ToolError::WrongNames(folder, number, line, remark_cause(why))
        }
        StartFault::Judged(number, why) => judge_fault(folder, number, why),
        StartFault::Names(_) => ToolError::BadNames(folder),
        StartFault::Holder(line) => ToolError::NoOpenHold(file, line),
        StartFault::Unsaved => ToolError::Save(folder),
        StartFault::OutOfMemory => ToolError::OutOfMemory,
    }
}

/// Returns the refusal for a segment that cannot be begun.
pub(crate) fn begin_refusal<'a>(why: EndFault, folder: &'a str) -> ToolError<'a>
    ensures { IsBeginName folder.now why result }
{
    match why {
        EndFault::OutOfMemory => ToolError::OutOfMemory,
        EndFault::File | EndFault::Full => ToolError::Save(folder),
    }
}

/// Returns the refusal for a fault while lines were served.
pub(crate) fn serving_refusal<'a>(fault: LoopFault, folder: &'a str) -> ToolError<'a>
    ensures { IsLoopName folder.now fault result }
{
    match fault {
        LoopFault::Read => ToolError::Read("-"),
        LoopFault::TooLong => ToolError::TooLarge("-"),
        LoopFault::Journal => ToolError::Save(folder),
        LoopFault::Write => ToolError::Write,
        LoopFault::OutOfMemory => ToolError::OutOfMemory,
    }
}
