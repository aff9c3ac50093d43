//! Files in memory.

use disks::{Disk, MemoryDisk, Stored, StoredEntry};
use std::alloc::Global;
use std::io::{self, Read, Write};

/// No files.
pub fn no_files(alloc: Global) -> MemoryDisk {
    MemoryDisk {
        alloc,
        entries: Vec::new(alloc),
    }
}

/// Has a folder of this name be there.
pub fn make_folder(disk: &mut MemoryDisk, name: &str) -> io::Result<()> {
    disk.entries.push(StoredEntry {
        name: String::from_str(disk.alloc, name)?,
        stored: Stored::Folder,
    })?;
    Ok(())
}

/// Has the file of this name hold just these bytes.
pub fn put<D: Disk>(disk: &mut D, name: &str, bytes: &[u8]) -> io::Result<()> {
    let mut made = disk.make(name)?;
    made.write_all(bytes)?;
    made.flush()?;
    disk.finish(made, name)
}

/// All bytes of the file of this name.
pub fn bytes_of<D: Disk>(alloc: Global, disk: &D, name: &str) -> io::Result<Vec<u8>> {
    let mut bytes = Vec::new(alloc);
    disk.open(name)?.read_to_end(&mut bytes)?;
    Ok(bytes)
}
