//! The refusals of the program, and the line that it prints for each.

use crate::causes::{CauseText, FieldName, FileText, entry_text, of_journal};
use crate::line_ends::{NoHold, NoOpenHold, NotAnAction, OtherLock};
use crate::one_line::{OneLine, SegmentFile};
use journal::RecoverError;
use line_service::EntryName;
use ring_book::BookError;
use ring_check::{CheckError, Kind};
use ring_settings::{Field, RingCause, SettingsError};
use ring_state::{ParamsError, StateError};
use saved_history::ReadError;
use segment_files::SegmentError;
use std::error::Error;
use std::fmt;
use text_lines::WriteFault;

/// Why the program refuses a command. Its `Display` is the line on standard error.
///
/// A fault of a file has the file's name as it was given, with its control characters escaped.
#[derive(Clone, Copy)]
pub enum ToolError<'a> {
    /// A list is not one or more canonical decimals below 2 to the power 32, separated by commas.
    BadList,
    TooFew,
    TooMany,
    FewValues,
    ManyValues,
    Length,
    /// The index of the first start value that is not below K.
    Value(usize),
    /// The index of the first choice that is not below n.
    Choice(usize),
    /// The settings have no reading as JSON.
    Json,
    Shape(Field),
    Limit(Field),
    /// A ring of the settings, by its place, and its fault.
    Ring(usize, RingCause),
    /// A seat of the settings, and the place in its script of the first entry that is not an action.
    Script(usize, usize),
    Spawn,
    GateShut,
    /// No place is left for a seat to look at its ring from.
    NoSeat,
    HistoryFull,
    /// A seat's log does not fit its ring's history.
    Mismatch,
    /// The first line, from 1, that cannot be in a saved text.
    Syntax(u64),
    /// A saved text ends too early.
    Truncated,
    /// The first bad line of a saved text, from 1, and its fault.
    Bad(u64, Kind),
    /// A file cannot be opened or read.
    Read(&'a str),
    /// A file has more bytes than are read.
    TooLarge(&'a str),
    /// A file cannot be made, written or put in its place.
    Save(&'a str),
    /// A file that is to be made is the one that is read.
    SameFile(&'a str),
    /// A file that is to be made is one that the process reads or writes by a standard descriptor.
    Stream(&'a str),
    /// Standard output failed, or took no byte.
    Write,
    OutOfMemory,
    /// A saved text has no ring at this place.
    NoRing(u32),
    /// The ring that is to be drawn has fewer events.
    NoPlace(u32),
    /// More events are to be drawn than a picture may have.
    ManyDrawn,
    /// No history is given, and no journal says where the rings are.
    NoHistory,
    /// A journal's file is kept by another process.
    InUse(&'a str),
    /// The ring at this place has more events than a ring can resume.
    Full(u64),
    /// Nothing is recovered of the journal in this file.
    Journal(&'a str, RecoverError),
    /// The sums over the rings that were served do not fit into 64 bits, or the number of rings does not fit into 32.
    TotalsTooLarge,
    /// The folder that lines may save in is that of the journal.
    SavesInJournal(&'a str),
    /// A folder has no segment.
    NoSegment(&'a str),
    /// A name in a folder of segments has no place there.
    Foreign(&'a str, EntryName),
    /// The segment of this number in a folder is not a regular file.
    Irregular(&'a str, u64),
    /// The segment of this number is missing in a folder, between two that are there.
    Missing(&'a str, u64),
    /// The file of the segment of this number in a folder cannot be opened or read.
    UnreadSegment(&'a str, u64),
    /// It has more bytes than are read.
    LargeSegment(&'a str, u64),
    /// It does not follow in the chain of the folder's segments, or is none.
    Segment(&'a str, u64, SegmentError),
    /// The first segment of a folder has this number, so what came before it is gone.
    Begins(&'a str, u64),
    /// A file that is to be made lies in the folder that is read.
    InFolder(&'a str),
    /// A list has more locks than there may be.
    ManyLocks,
    /// The lock at this place of a list has the name of one before it.
    Twice(usize),
    /// No locks are named, and a folder has no file of locks.
    NoLocks(&'a str),
    /// A folder has segments, but no file of locks.
    NoLocksFile(&'a str),
    /// The file of locks in a folder cannot be read.
    UnreadLocks(&'a str),
    /// It is not the text of a list of locks.
    BadLocks(&'a str),
    /// The lock at this place in a folder is not the one that is named, or none is named there.
    OtherLock(&'a str, usize),
    /// The ring at this place in a folder is not of the size of its lock, or there is no such lock.
    OtherRing(&'a str, usize),
    /// The names that the last segment of a folder records are not those of its rings.
    BadNames(&'a str),
    /// The line of this number, from 1, of a file of holders is not that of an open hold.
    NoOpenHold(&'a str, u64),
    /// The history of the lock of this number, in a file or a folder of segments, is not that of a lock after this many events.
    NoHold(&'a str, u64, u64),
    /// What the segment of this number in a folder says of the names of locks is wrong in this line, from 1, and why.
    WrongNames(&'a str, u64, u64, &'a str),
}

impl ToolError<'_> {
    ghost use Rattle.std.specs.Prelude.{◌≡◌};
    ghost use Rattle.tool_parts.specs.Faults.{status_of};

    /// The program's exit status: 2 for a list that is not well written, as for other words that
    /// cannot be read, and 1 for each other refusal.
    pub fn status(&self) -> u8
        ensures { result ≡ status_of self.now }
    {
        match self {
            ToolError::BadList => 2,
            _ => 1,
        }
    }
}

impl ToolError<'_> {
    ghost use Rattle.std.specs.Fmt.{WritesOnOk};
    ghost use Rattle.tool_parts.specs.FaultLines.{valued_line, file_line, folder_line, locks_line};

    /// Writes the line of a refusal of words or settings, or else of files.
    fn put_valued<W: fmt::Write>(&self, f: &mut fmt::Formatter<W>) -> fmt::Result
        ensures { WritesOnOk W.write_str_gives f.old result (valued_line self.now) f.new }
    {
        match *self {
            ToolError::TooFew => write!(f, "{}", CauseText(RingCause::TooFew)),
            ToolError::TooMany => write!(f, "{}", CauseText(RingCause::TooMany)),
            ToolError::FewValues => write!(f, "{}", CauseText(RingCause::FewValues)),
            ToolError::ManyValues => write!(f, "{}", CauseText(RingCause::ManyValues)),
            ToolError::Length => write!(f, "{}", CauseText(RingCause::Length)),
            ToolError::Value(place) => write!(f, "{}", CauseText(RingCause::Value(place))),
            ToolError::Choice(place) => write!(f, "choice {place} is not below n"),
            ToolError::Shape(field) => write!(
                f,
                "settings: {} is missing or has the wrong shape",
                FieldName(field)
            ),
            ToolError::Limit(field) => write!(f, "settings: {} is out of limits", FieldName(field)),
            ToolError::Ring(place, cause) => write!(f, "ring {place}: {}", CauseText(cause)),
            ToolError::Script(seat, place) => write!(f, "seat {seat}, {}", NotAnAction(place)),
            _ => self.put_of_file(f),
        }
    }

    /// Writes the line of a refusal of a file or a saved text, or else of what is in folders.
    fn put_of_file<W: fmt::Write>(&self, f: &mut fmt::Formatter<W>) -> fmt::Result
        ensures { WritesOnOk W.write_str_gives f.old result (file_line self.now) f.new }
    {
        match *self {
            ToolError::Syntax(line) => write!(f, "line {line}: syntax"),
            ToolError::Bad(line, kind) => write!(f, "line {line}: {kind}"),
            ToolError::Read(name) => write!(f, "cannot read {}", OneLine(name)),
            ToolError::TooLarge(name) => write!(f, "{} is too large", OneLine(name)),
            ToolError::Save(name) => write!(f, "cannot write {}", OneLine(name)),
            ToolError::SameFile(name) => write!(f, "{} is the file that is read", OneLine(name)),
            ToolError::Stream(name) => {
                write!(f, "{} is the file of a standard stream", OneLine(name))
            }
            ToolError::NoRing(place) => write!(f, "there is no ring {place}"),
            ToolError::InUse(name) => write!(f, "{} is in use", OneLine(name)),
            ToolError::Journal(name, error) => {
                write!(f, "{}: {}", OneLine(name), FileText(of_journal(error)))
            }
            ToolError::Full(place) => write!(f, "ring {place}: the history is full"),
            ToolError::NoPlace(place) => write!(f, "the ring has fewer than {place} events"),
            _ => self.put_of_folder(f),
        }
    }

    /// Writes the line of a refusal of a folder of segments, or else of locks.
    fn put_of_folder<W: fmt::Write>(&self, f: &mut fmt::Formatter<W>) -> fmt::Result
        ensures { WritesOnOk W.write_str_gives f.old result (folder_line self.now) f.new }
    {
        match *self {
            ToolError::SavesInJournal(name) => {
                write!(f, "{} is the folder of the journal", OneLine(name))
            }
            ToolError::NoSegment(folder) => write!(f, "{} has no segments", OneLine(folder)),
            ToolError::Foreign(folder, name) => {
                let name = OneLine(entry_text(&name));
                write!(f, "{}/{name}: foreign", OneLine(folder))
            }
            ToolError::Irregular(folder, number) => {
                write!(f, "{}: not a regular file", SegmentFile(folder, number))
            }
            ToolError::Missing(folder, number) => {
                write!(f, "{}: missing", SegmentFile(folder, number))
            }
            ToolError::UnreadSegment(folder, number) => {
                write!(f, "cannot read {}", SegmentFile(folder, number))
            }
            ToolError::LargeSegment(folder, number) => {
                write!(f, "{} is too large", SegmentFile(folder, number))
            }
            ToolError::Segment(folder, number, error) => {
                write!(f, "{}: {}", SegmentFile(folder, number), FileText(error))
            }
            ToolError::Begins(folder, number) => {
                write!(f, "{} begins at segment {number}", OneLine(folder))
            }
            ToolError::InFolder(name) => {
                write!(f, "{} is in the folder that is read", OneLine(name))
            }
            _ => self.put_of_locks(f),
        }
    }

    /// Writes the line of a refusal of locks.
    fn put_of_locks<W: fmt::Write>(&self, f: &mut fmt::Formatter<W>) -> fmt::Result
        ensures { WritesOnOk W.write_str_gives f.old result (locks_line self.now) f.new }
    {
        match *self {
            ToolError::Twice(place) => write!(f, "lock {place} has the name of a lock before it"),
            ToolError::NoLocks(folder) => {
                write!(f, "no locks are named, and {} has none", OneLine(folder))
            }
            ToolError::NoLocksFile(folder) => {
                write!(f, "{} has segments, but no file `locks`", OneLine(folder))
            }
            ToolError::UnreadLocks(folder) => write!(f, "cannot read {}/locks", OneLine(folder)),
            ToolError::BadLocks(folder) => {
                write!(f, "{}/locks is not a list of locks", OneLine(folder))
            }
            ToolError::OtherLock(folder, place) => {
                write!(f, "lock {place} in {}", OtherLock(folder))
            }
            ToolError::OtherRing(folder, place) => {
                let folder = OneLine(folder);
                write!(
                    f,
                    "ring {place} in {folder} is not of the size in {folder}/locks"
                )
            }
            ToolError::BadNames(folder) => {
                write!(
                    f,
                    "the names in {} are not those of its rings",
                    OneLine(folder)
                )
            }
            ToolError::NoOpenHold(name, line) => {
                write!(f, "{}: line {}", OneLine(name), NoOpenHold(line))
            }
            ToolError::NoHold(name, lock, at) => {
                write!(f, "{}: lock {}", OneLine(name), NoHold(lock, at))
            }
            ToolError::WrongNames(folder, number, line, cause) => write!(
                f,
                "{}: line {line}: name: {}",
                SegmentFile(folder, number),
                OneLine(cause)
            ),
            // the lines of the others are written before
            _ => Ok(()),
        }
    }
}

impl fmt::Display for ToolError<'_> {
    ghost use Rattle.std.specs.Prelude.{Some};
    ghost use Rattle.tool_parts.specs.FaultLines.{line_of};

    ghost output = { λ e. Some (line_of e) };

    fn fmt<W: fmt::Write>(&self, f: &mut fmt::Formatter<W>) -> fmt::Result {
        match self {
            ToolError::BadList => f.write_str("bad list"),
            ToolError::Json => f.write_str("settings are not JSON"),
            ToolError::Spawn => f.write_str("a thread could not be started"),
            ToolError::GateShut => f.write_str("the gate was shut"),
            ToolError::NoSeat => f.write_str("no reader place"),
            ToolError::HistoryFull => f.write_str("a history is full"),
            ToolError::Mismatch => f.write_str("logs and history differ"),
            ToolError::Truncated => f.write_str("text is truncated"),
            ToolError::Write => f.write_str("cannot write"),
            ToolError::OutOfMemory => f.write_str("out of memory"),
            ToolError::ManyDrawn => f.write_str("a picture has at most 20000 events"),
            ToolError::TotalsTooLarge => f.write_str("the totals are too large"),
            ToolError::NoHistory => {
                f.write_str("no history is given, and no journal tells of rings")
            }
            ToolError::ManyLocks => f.write_str("there are more than 1000000 locks"),
            _ => self.put_valued(f),
        }
    }
}

/// The same line: a derived form would be proved for 50 variants and shown only by tests.
impl fmt::Debug for ToolError<'_> {
    fn fmt<W: fmt::Write>(&self, f: &mut fmt::Formatter<W>) -> fmt::Result {
        fmt::Display::fmt(self, f)
    }
}

impl Error for ToolError<'_> {}

impl From<ParamsError> for ToolError<'_> {
    ghost use Rattle.std.specs.Prelude.{◌≡◌};
    ghost use Rattle.tool_parts.specs.Faults.{fault_of_params};

    ghost from_gives = { λ p e. e ≡ fault_of_params p };

    fn from(error: ParamsError) -> Self {
        match error {
            ParamsError::TooFew => ToolError::TooFew,
            ParamsError::TooMany => ToolError::TooMany,
            ParamsError::FewValues => ToolError::FewValues,
            ParamsError::ManyValues => ToolError::ManyValues,
        }
    }
}

impl From<StateError> for ToolError<'_> {
    ghost use Rattle.std.specs.Prelude.{◌≡◌};
    ghost use Rattle.tool_parts.specs.Faults.{fault_of_state};

    ghost from_gives = { λ p e. e ≡ fault_of_state p };

    fn from(error: StateError) -> Self {
        match error {
            StateError::Length => ToolError::Length,
            StateError::Value(index) => ToolError::Value(index),
            StateError::OutOfMemory => ToolError::OutOfMemory,
        }
    }
}

impl From<BookError> for ToolError<'_> {
    ghost use Rattle.std.specs.Prelude.{◌≡◌};
    ghost use Rattle.tool_parts.specs.Faults.{fault_of_book};

    ghost from_gives = { λ p e. e ≡ fault_of_book p };

    fn from(error: BookError) -> Self {
        match error {
            BookError::HistoryFull => ToolError::HistoryFull,
            BookError::OutOfMemory => ToolError::OutOfMemory,
        }
    }
}

impl From<SettingsError> for ToolError<'_> {
    ghost use Rattle.std.specs.Prelude.{◌≡◌};
    ghost use Rattle.tool_parts.specs.Faults.{fault_of_settings};

    ghost from_gives = { λ p e. e ≡ fault_of_settings p };

    fn from(error: SettingsError) -> Self {
        match error {
            SettingsError::Json => ToolError::Json,
            SettingsError::Shape(field) => ToolError::Shape(field),
            SettingsError::Limit(field) => ToolError::Limit(field),
            SettingsError::Ring(place, cause) => ToolError::Ring(place, cause),
            SettingsError::Script(seat, place) => ToolError::Script(seat, place),
            SettingsError::OutOfMemory => ToolError::OutOfMemory,
        }
    }
}

impl From<ReadError> for ToolError<'_> {
    ghost use Rattle.std.specs.Prelude.{◌≡◌};
    ghost use Rattle.tool_parts.specs.Faults.{fault_of_read};

    ghost from_gives = { λ p e. e ≡ fault_of_read p };

    fn from(error: ReadError) -> Self {
        match error {
            ReadError::Syntax(line) => ToolError::Syntax(line),
            ReadError::Truncated => ToolError::Truncated,
            ReadError::OutOfMemory => ToolError::OutOfMemory,
        }
    }
}

impl From<CheckError> for ToolError<'_> {
    ghost use Rattle.std.specs.Prelude.{◌≡◌};
    ghost use Rattle.tool_parts.specs.Faults.{fault_of_check};

    ghost from_gives = { λ p e. e ≡ fault_of_check p };

    fn from(error: CheckError) -> Self {
        match error {
            CheckError::Bad { line, kind } => ToolError::Bad(line, kind),
            CheckError::OutOfMemory => ToolError::OutOfMemory,
        }
    }
}

impl From<RecoverError> for ToolError<'_> {
    ghost use Rattle.std.specs.Prelude.{◌≡◌};
    ghost use Rattle.tool_parts.specs.Faults.{fault_of_recovery};

    ghost from_gives = { λ p e. e ≡ fault_of_recovery p };

    fn from(error: RecoverError) -> Self {
        match error {
            RecoverError::Truncated => ToolError::Truncated,
            RecoverError::Syntax(line) => ToolError::Syntax(line),
            RecoverError::Bad { line, kind } => ToolError::Bad(line, kind),
            RecoverError::OutOfMemory => ToolError::OutOfMemory,
        }
    }
}

impl From<WriteFault> for ToolError<'_> {
    ghost use Rattle.std.specs.Prelude.{◌≡◌};
    ghost use Rattle.tool_parts.specs.declared.faults.ToolError.TheVariants.{Write};

    ghost from_gives = { λ _ e. e ≡ Write };

    fn from(_fault: WriteFault) -> Self {
        ToolError::Write
    }
}
