//! Why the locks of a folder do not start.

use crate::locks::ListError;
use judged_files::JudgeError;
use line_service::FolderError;
use lock_names::NotRestored;
use name_remarks::NotTaken;
use segment_files::SegmentError;

/// Why the locks of a folder do not start. Places are from 0.
#[derive(Clone, Copy)]
pub enum StartFault {
    /// The names in the folder are not those of a folder of segments.
    Folder(FolderError),
    /// The word is not a list of locks.
    Word(ListError),
    /// No locks are named, and the folder has none.
    NoLocks,
    /// The folder has segments, but no file of locks.
    NoLocksFile,
    /// The file of locks cannot be read.
    UnreadLocks,
    /// It is not that of a list of locks.
    BadLocks,
    /// It is that of more locks than there may be, or they are with the rings with which its pool begins.
    ManyLocks,
    /// The lock at this place in the folder is not the one that is named, or none is named there.
    OtherLock(usize),
    /// The last segment, which has this number, cannot be read.
    UnreadSegment(u64),
    /// No chain can end with it, or it says another number.
    Segment(u64, SegmentError),
    /// Its ring at this place is not of the size of its lock, or there is no such lock.
    OtherRing(usize),
    /// There is no room for the lock at this place: its ring has none for its repair, or there are as many locks as there may be.
    Full(usize),
    /// The list has no pool, so no name beside those of its locks can be held.
    NoPool,
    /// In the last segment, which has the first number, the line of the second number, from 1, says
    /// something of names, and is misspelled or about a ring that is not there.
    Remark(u64, u64, NotTaken),
    /// The judge of names refuses the last segment, which has this number.
    Judged(u64, JudgeError),
    /// The names that its lines record are not those of its rings.
    Names(NotRestored),
    /// The hold on this line of the holders, from 1, is not open.
    Holder(u64),
    /// The file of locks cannot be written.
    Unsaved,
    OutOfMemory,
}
