//! Two servers of one folder at once.

use crate::commands::lend;
use crate::power::LENT;
use disks::SystemDisk;
use std::io::{self, Read};
use std::test::Fail;
use test_files::{folder_of, has_text, removed};
use tool_parts::faults::ToolError;

/// Whether one more server of a folder is refused: it reads no line, and answers nothing.
fn is_refused(rt: &HostRuntime, folder: &str) -> bool {
    let alloc = rt.alloc();
    let mut disk = SystemDisk::new(rt);
    let mut input: &[u8] = b"2 acquire deploy 78\n";
    let mut out = Vec::new(alloc);
    let mut err = Vec::new(alloc);
    match lend(
        alloc, &mut disk, folder, false, &mut input, &mut out, &mut err,
    ) {
        Err(ToolError::InUse(name)) => name == folder && input.len() == 20 && out.is_empty(),
        _ => false,
    }
}

/// The lines of a server. Before they are read another server begins in its folder.
#[derive(Drop)]
struct Beside<'a> {
    rt: &'a HostRuntime,
    folder: &'a str,
    lines: &'a [u8],
    /// How many others were refused.
    refused: u32,
}

impl<'a> Read for Beside<'a> {
    fn read(&mut self, buf: &mut [u8]) -> io::Result<usize> {
        if is_refused(self.rt, self.folder) {
            self.refused = self.refused.saturating_add(1);
        }
        self.lines.read(buf)
    }
}

#[test]
fn a_folder_has_one_server_at_a_time(rt: HostRuntime) -> Result<(), Fail> {
    let alloc = rt.alloc();
    let folder = folder_of(&rt, "one_server")?;
    let mut disk = SystemDisk::new(&rt);
    let mut input = Beside {
        rt: &rt,
        folder: folder.as_str(),
        lines: b"1 acquire deploy 77\n",
        refused: 0,
    };
    let mut out = Vec::new(alloc);
    let mut err = Vec::new(alloc);
    assert!(rt;
        lend(
            alloc,
            &mut disk,
            folder.as_str(),
            false,
            &mut input,
            &mut out,
            &mut err
        )
        .is_ok()
    );
    assert!(rt; out.as_slice() == b"1 granted deploy 1\n".as_slice());
    // One began before the line was read, and one before the end was.
    assert!(rt; input.refused == 2);
    assert!(rt; has_text(&rt, &folder, "0000000001.ring", Some(LENT))?);
    // The folder is locked as long as the first one's disk is there.
    assert!(rt; is_refused(&rt, folder.as_str()));
    drop(disk);
    let mut disk = SystemDisk::new(&rt);
    let mut input: &[u8] = b"1 acquire deploy 79\n";
    let mut out = Vec::new(alloc);
    let mut err = Vec::new(alloc);
    assert!(rt;
        lend(
            alloc,
            &mut disk,
            folder.as_str(),
            false,
            &mut input,
            &mut out,
            &mut err
        )
        .is_ok()
    );
    assert!(rt; out.as_slice() == b"1 waiting deploy 0\n".as_slice());
    // The list of locks, the lock of the folder, and the segment, in which the second one began where the first one ended.
    assert!(rt; removed(&rt, &folder)? == 3);
    Ok(())
}
