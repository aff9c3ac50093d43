//! `join` into a file that has another name in the folder.

use crate::segments::FIRST;
use disks::SystemDisk;
use folder_commands::join;
use std::fs::{self, File};
use std::rt::Files;
use std::test::Fail;
use test_files::{folder_of, has_text, link_in, removed, within, write_in};
use tool_parts::faults::ToolError;
use tool_parts::requests::JoinWords;

/// Whether `join` says of NEW that it lies in the folder, or that it is another name of a file there; or none of both.
fn lies_in<R: AllocGlobal + Files<File = File>>(rt: &R, folder: &str, new: &str) -> Option<bool> {
    let words = JoinWords { folder, new };
    let mut disk = SystemDisk::new(rt);
    let mut out = Vec::new(rt.alloc());
    let mut err = Vec::new(rt.alloc());
    match join::run(rt.alloc(), &mut disk, &words, &mut out, &mut err) {
        Err(ToolError::InFolder(name)) if name == new => Some(true),
        Err(ToolError::SameFile(name)) if name == new => Some(false),
        _ => None,
    }
}

#[test]
fn no_file_of_the_folder_is_written_by_another_name(rt: HostRuntime) -> Result<(), Fail> {
    let folder = folder_of(&rt, "joined")?;
    let elsewhere = folder_of(&rt, "elsewhere")?;
    write_in(&rt, &folder, "0000000001.ring", FIRST)?;
    let segment = within(&rt, &folder, "0000000001.ring")?;
    link_in(&rt, &elsewhere, "link", &segment)?;
    let hard = within(&rt, &elsewhere, "hard")?;
    fs::hard_link(&rt, segment.as_str(), hard.as_str())?;
    let inside = within(&rt, &folder, "new.txt")?;
    assert_eq!(rt; lies_in(&rt, &folder, &inside), Some(true));
    assert_eq!(rt; lies_in(&rt, &folder, &hard), Some(false));
    let link = within(&rt, &elsewhere, "link")?;
    assert_eq!(rt; lies_in(&rt, &folder, &link), Some(false));
    link_in(&rt, &elsewhere, "new", &within(&rt, &folder, "other.txt")?)?;
    let new = within(&rt, &elsewhere, "new")?;
    assert_eq!(rt; lies_in(&rt, &folder, &new), Some(true));
    assert!(rt; has_text(&rt, &folder, "0000000001.ring", Some(FIRST))?);
    assert!(rt; removed(&rt, &folder)? == 1 && removed(&rt, &elsewhere)? == 3);
    Ok(())
}
