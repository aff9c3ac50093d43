//! The standard descriptors: one that the program was started without, and the files that they are of.

use crate::same_file::file_id;
use std::fs::{self, File, Metadata, OpenOptions};
use std::io;
use std::os::fd::{AsRawFd, IntoRawFd};
use std::rt::Files;

/// Takes descriptor 0, if it is free, only for writing.
fn take_first<R: Files<File = File>>(rt: &R) -> io::Result<()> {
    let first = OpenOptions::new().write(true).open(rt, "/dev/null")?;
    if first.as_raw_fd() == 0 {
        let _ = first.into_raw_fd();
    }
    Ok(())
}

/// Ensures that the descriptors 0, 1 and 2 are taken, so that no file that is opened later gets one of them, and
/// printed text cannot go into a file. One that was closed still fails if it is read or written: it cannot be used in its
/// direction.
pub fn take_low<R: Files<File = File>>(rt: &R) -> io::Result<()> {
    take_first(rt)?;
    for _ in 0..3 {
        let file = fs::open(rt, "/dev/null")?;
        if file.as_raw_fd() > 2 {
            return Ok(());
        }
        let _ = file.into_raw_fd();
    }
    Ok(())
}

/// Whether one of these descriptors is of this regular file. Of a device or a pipe none is: it takes what several write.
fn is_one_of<R: Files>(rt: &R, descriptors: &[&str], there: &Metadata) -> bool {
    there.is_file()
        && descriptors.iter().any(|name| match fs::metadata(rt, *name) {
            Ok(open) => file_id(&open) == file_id(there),
            Err(_) => false,
        })
}

/// Whether standard output or standard error goes into this regular file.
pub(crate) fn is_printed_into<R: Files>(rt: &R, there: &Metadata) -> bool {
    is_one_of(rt, &["/proc/self/fd/1", "/proc/self/fd/2"], there)
}

/// Whether this regular file is that of standard input, standard output or standard error.
pub(crate) fn is_standard<R: Files>(rt: &R, there: &Metadata) -> bool {
    is_one_of(rt, &["/proc/self/fd/0"], there) || is_printed_into(rt, there)
}
