//! What tests of the system's files do in a folder of their own, and what is then in it.

use disks::{Disk, SystemDisk};
use std::fs::{self, File};
use std::io;
use std::process::Abort;
use std::rt::Files;
use test_files::{bytes_of, has_text, put, removed, within};

/// What a test does in a folder, with two disks of the system.
pub trait Play {
    fn play<R: Abort + AllocGlobal + Files + Clone, D: Disk>(
        &self,
        rt: &R,
        disk: &mut D,
        other: &mut D,
        folder: &str,
    ) -> io::Result<()>
    where
        D::Grown: Drop;
}

/// Has it done in a folder of the system. Each test names the types of the disks here only, since that is dear to prove.
pub fn play_in<R: Abort + AllocGlobal + Files<File = File> + Clone, P: Play>(
    rt: &R,
    folder: &str,
    played: &P,
) -> io::Result<()> {
    played.play(
        rt,
        &mut SystemDisk::new(rt),
        &mut SystemDisk::new(rt),
        folder,
    )
}

/// Compares what the file of this name holds, by the system's own call.
pub fn expect_bytes<R: Abort + AllocGlobal + Files>(
    rt: &R,
    name: &str,
    bytes: &[u8],
) -> io::Result<()> {
    let held = fs::read(rt, name)?;
    assert!(rt; held.as_slice() == bytes, "at {name}");
    Ok(())
}

/// Compares how many files a folder has, and takes it away.
pub fn expect_count<R: Abort + AllocGlobal + Files + Clone>(
    rt: &R,
    folder: &str,
    want: usize,
) -> io::Result<()> {
    assert_eq!(rt; removed(rt, folder)?, want);
    Ok(())
}

/// Compares what a file of a folder holds; `None` is a file that is not there.
pub fn expect<R: Abort + AllocGlobal + Files>(
    rt: &R,
    folder: &str,
    name: &str,
    text: Option<&str>,
) -> io::Result<()> {
    assert!(rt; has_text(rt, folder, name, text)?, "at {name}");
    Ok(())
}

/// Puts bytes into a file of a folder, and compares them with what the disk then reads.
pub fn put_in<R: Abort + AllocGlobal, D: Disk>(
    rt: &R,
    disk: &mut D,
    folder: &str,
    name: &str,
    bytes: &[u8],
) -> io::Result<()>
where
    D::Grown: Drop,
{
    let name = within(rt, folder, name)?;
    put(disk, &name, bytes)?;
    let held = bytes_of(rt.alloc(), disk, &name)?;
    assert!(rt; held.as_slice() == bytes);
    Ok(())
}
