//! Folders of the system, in which a test makes files by the system's own calls.

use std::os::unix::fs::symlink;
use std::rt::Files;
use std::{fs, io, process};

/// A new folder of this process. Each test gives its own another name.
pub fn folder_of(rt: &HostRuntime, name: &str) -> io::Result<String> {
    let folder = std::env::temp_dir(rt)?;
    let folder = folder.as_path().to_string_lossy();
    let number = process::id(rt.process());
    let own = format!(in rt.alloc(); "{folder}/disks-{number}-{name}")?;
    fs::create_dir(rt, own.as_str())?;
    Ok(own)
}

/// The name of a file in a folder.
pub fn within<R: AllocGlobal>(rt: &R, folder: &str, name: &str) -> io::Result<String> {
    Ok(format!(in rt.alloc(); "{folder}/{name}")?)
}

/// Makes a file in a folder.
pub fn write_in<R: AllocGlobal + Files>(
    rt: &R,
    folder: &str,
    name: &str,
    text: &str,
) -> io::Result<()> {
    fs::write(rt, within(rt, folder, name)?.as_str(), text)
}

/// Whether a file of a folder holds just this text; `None` is a file that is not there.
pub fn has_text<R: AllocGlobal + Files>(
    rt: &R,
    folder: &str,
    name: &str,
    text: Option<&str>,
) -> io::Result<bool> {
    let name = within(rt, folder, name)?;
    match text {
        Some(text) => Ok(fs::read(rt, name.as_str())?.as_slice() == text.as_bytes()),
        None => Ok(!fs::exists(rt, name.as_str())?),
    }
}

/// Takes a folder away, and answers how many files it had.
pub fn removed<R: AllocGlobal + Files + Clone>(rt: &R, folder: &str) -> io::Result<usize> {
    let count = fs::read_dir(rt, folder)?.count();
    fs::remove_dir_all(rt, folder)?;
    Ok(count)
}

/// Makes a link in a folder that leads to this name.
pub fn link_in<R: AllocGlobal + Files>(
    rt: &R,
    folder: &str,
    name: &str,
    to: &str,
) -> io::Result<()> {
    symlink(rt, to, within(rt, folder, name)?.as_str())
}
