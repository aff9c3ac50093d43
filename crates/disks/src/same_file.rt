//! Which file an open one is, where links lead, and in which folder a name lies.

use std::fs::{self, File, Metadata};
use std::io::{self, ErrorKind};
use std::os::unix::fs::MetadataExt;
use std::rt::Files;

/// How many links are followed one after the other, as the system does.
const MOST_LINKS: u32 = 40;

/// What distinguishes a file from each other one of the machine.
#[derive(Clone, Copy, Debug, PartialEq, Eq)]
pub(crate) struct FileId {
    device: u64,
    inode: u64,
}

/// What distinguishes the file of this description from others.
pub(crate) fn file_id(there: &Metadata) -> FileId {
    FileId {
        device: there.dev(),
        inode: there.ino(),
    }
}

/// Whether this name leads to the open file, links followed.
pub(crate) fn leads_to<R: Files>(files: &R, name: &str, file: &File) -> io::Result<bool> {
    let there = fs::metadata(files, name)?;
    let open = file.metadata()?;
    Ok(file_id(&there) == file_id(&open))
}

/// Whether this name is one of the open file itself, and not of a link to it.
pub(crate) fn names<R: Files>(files: &R, name: &str, file: &File) -> io::Result<bool> {
    let there = fs::symlink_metadata(files, name)?;
    let open = file.metadata()?;
    Ok(file_id(&there) == file_id(&open))
}

/// The folder in which a file of this name lies.
pub(crate) fn folder_of(name: &str) -> &str {
    match name.rsplit_once('/') {
        None => ".",
        Some(("", _)) => "/",
        Some((folder, _)) => folder,
    }
}

/// Whether the links that begin with this name end in this folder.
pub(crate) fn ends_in<R: Files + AllocGlobal>(
    files: &R,
    folder: &str,
    name: &str,
) -> io::Result<bool> {
    let end = end_of_links(files, name)?;
    let one = fs::metadata(files, folder)?;
    let other = fs::metadata(files, folder_of(end.as_str()))?;
    Ok(file_id(&one) == file_id(&other))
}

/// The name to which the link of this name leads.
fn next_name<R: Files + AllocGlobal>(files: &R, link: &str) -> io::Result<String> {
    let next = fs::read_link(files, link)?.into_string();
    if next.as_str().starts_with('/') {
        return Ok(next);
    }
    match link.rsplit_once('/') {
        None => Ok(next),
        Some((folder, _)) => Ok(format!(in files.alloc(); "{folder}/{next}")?),
    }
}

/// The name at the end of the links that begin with this name: that of a file, or of none.
pub(crate) fn end_of_links<R: Files + AllocGlobal>(files: &R, name: &str) -> io::Result<String> {
    let mut end = String::from_str(files.alloc(), name)?;
    for _ in 0..MOST_LINKS {
        match fs::symlink_metadata(files, end.as_str()) {
            Ok(there) if there.is_symlink() => end = next_name(files, end.as_str())?,
            _ => return Ok(end),
        }
    }
    Err(io::Error::from(ErrorKind::InvalidFilename))
}

/// Which file or folder a name leads to, if there is one.
fn known<R: Files>(files: &R, name: &str) -> io::Result<Option<FileId>> {
    match fs::metadata(files, name) {
        Ok(there) => Ok(Some(file_id(&there))),
        Err(e) if e.kind() == ErrorKind::NotFound => Ok(None),
        Err(e) => Err(e),
    }
}

/// The part of a name after its last slash.
fn last_part(name: &str) -> &str {
    match name.rsplit_once('/') {
        None => name,
        Some((_, last)) => last,
    }
}

/// Whether two names that lead to nothing are of one place: a file that was made by the one would have the other too.
fn are_of_one_place<R: Files + AllocGlobal>(files: &R, one: &str, other: &str) -> io::Result<bool> {
    let one = end_of_links(files, one)?;
    let other = end_of_links(files, other)?;
    if last_part(one.as_str()) != last_part(other.as_str()) {
        return Ok(false);
    }
    let first = fs::metadata(files, folder_of(one.as_str()))?;
    let second = fs::metadata(files, folder_of(other.as_str()))?;
    Ok(file_id(&first) == file_id(&second))
}

/// Whether two names lead to one file or folder. One that leads to nothing, as if its file has just gone, is not of the file of the
/// other; if both are of one place with nothing, this fails.
pub(crate) fn are_one<R: Files + AllocGlobal>(
    files: &R,
    one: &str,
    other: &str,
) -> io::Result<bool> {
    let first = known(files, one)?;
    let second = known(files, other)?;
    match (first, second) {
        (Some(first), Some(second)) => Ok(first == second),
        (None, None) => {
            if are_of_one_place(files, one, other)? {
                return Err(io::Error::from(ErrorKind::NotFound));
            }
            Ok(false)
        }
        _ => Ok(false),
    }
}
