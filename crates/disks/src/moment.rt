//! The names in a folder of the system at one moment, while others make and remove files there.
//!
//! The system lists names one after the other, and what comes or goes meanwhile is listed or not. Of files that are made and removed
//! in a row, by rising numbers, it may so list a later one and not an earlier one, though both were there. So the names are listed
//! twice: when the first list ends, all of the row up to the last one in it had been made, and the second list counts up to that one.
//! Then each name is looked at, from the last to the first: where one has gone, those before it have gone too, and are not found.

use crate::disk::FolderEntry;
use std::cmp::Ordering;
use std::fs::{self, File};
use std::io::{self, ErrorKind};
use std::rt::Files;

/// How the name of a file of the row ends, after its number.
const ROW: &str = ".ring";

/// Is listed for a name that is not UTF-8.
const UNREADABLE: &str = "\u{FFFD}";

/// How often a folder is listed anew, if meanwhile the whole row went.
const MOST_LISTINGS: u32 = 32;

/// The entries of a folder at one moment.
#[derive(Drop)]
struct Moment {
    entries: Vec<FolderEntry>,
    /// Whether there was a row, of which no file is found any more: later ones may be there.
    is_past: bool,
}

/// The names that the system lists, one after the other.
fn listed<R: Files<File = File> + AllocGlobal>(files: &R, folder: &str) -> io::Result<Vec<String>> {
    let mut names = Vec::new(files.alloc());
    for entry in fs::read_dir(&files, folder)? {
        let name = match entry {
            Ok(entry) => String::from_str(files.alloc(), entry.file_name())?,
            Err(e) if e.kind() == ErrorKind::InvalidFilename => {
                String::from_str(files.alloc(), UNREADABLE)?
            }
            Err(e) => return Err(e),
        };
        names.push(name)?;
    }
    Ok(names)
}

/// Whether this is the name of a file of the row.
fn is_of_row(name: &str) -> bool {
    name.ends_with(ROW)
}

/// Whether the number in a name is greater than that in another: the name is longer, or as long and greater.
fn is_after(name: &str, other: &str) -> bool {
    match name.len().cmp(&other.len()) {
        Ordering::Less => false,
        Ordering::Equal => matches!(name.cmp(other), Ordering::Greater),
        Ordering::Greater => true,
    }
}

/// The last name of the row among these; empty if there is none.
fn last_of_row(names: &[String]) -> &str {
    let mut last: &str = "";
    for name in names {
        if is_of_row(name.as_str()) && is_after(name.as_str(), last) {
            last = name.as_str();
        }
    }
    last
}

/// The entry of a name, if it is not after the last of the row, and is still there.
fn entry_of<R: Files<File = File> + AllocGlobal>(
    files: &R,
    folder: &str,
    last: &str,
    name: String,
) -> io::Result<Option<FolderEntry>> {
    if is_of_row(name.as_str()) && is_after(name.as_str(), last) {
        return Ok(None);
    }
    let path = format!(in files.alloc(); "{folder}/{name}")?;
    let is_regular = match fs::symlink_metadata(files, path.as_str()) {
        Ok(there) => there.is_file(),
        Err(e) if e.kind() != ErrorKind::NotFound => return Err(e),
        Err(_) if name.as_str() == UNREADABLE => false,
        Err(_) => return Ok(None),
    };
    Ok(Some(FolderEntry { name, is_regular }))
}

/// The entries of these names that are still there, the last name first.
fn entries_of<R: Files<File = File> + AllocGlobal>(
    files: &R,
    folder: &str,
    last: &str,
    mut names: Vec<String>,
) -> io::Result<Vec<FolderEntry>> {
    names.sort_unstable();
    names.as_mut_slice().reverse();
    let mut entries = Vec::new(files.alloc());
    for name in names {
        if let Some(entry) = entry_of(files, folder, last, name)? {
            entries.push(entry)?;
        }
    }
    Ok(entries)
}

/// The entries of a folder now.
fn look<R: Files<File = File> + AllocGlobal>(files: &R, folder: &str) -> io::Result<Moment> {
    let before = listed(files, folder)?;
    let last = last_of_row(&before);
    let names = listed(files, folder)?;
    let entries = entries_of(files, folder, last, names)?;
    let has_row = entries.iter().any(|entry| is_of_row(entry.name.as_str()));
    Ok(Moment {
        entries,
        is_past: !last.is_empty() && !has_row,
    })
}

/// The entries of a folder at one moment.
pub(crate) fn entries<R: Files<File = File> + AllocGlobal>(
    files: &R,
    folder: &str,
) -> io::Result<Vec<FolderEntry>> {
    let mut found = look(files, folder)?;
    for _ in 0..MOST_LISTINGS {
        if found.is_past {
            found = look(files, folder)?;
        }
    }
    let Moment { entries, .. } = found;
    Ok(entries)
}
