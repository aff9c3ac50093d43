//! Which segments a folder has, by its name: no command asks so.

use line_service::{FolderError, SegmentNumbers, numbers_in};
use std::test::Fail;
use test_files::{make_folder, no_files, put};

#[test]
fn a_folder_has_the_segments_from_the_first_to_the_last(rt: HostRuntime) -> Result<(), Fail> {
    let mut disk = no_files(rt.alloc());
    make_folder(&mut disk, "f")?;
    put(&mut disk, "f/lock", b"")?;
    let found = numbers_in(rt.alloc(), &disk, "f");
    assert!(rt; matches!(found, Ok(None)));
    for name in [
        "f/0000000009.ring",
        "f/0000000007.ring",
        "f/0000000008.ring",
    ] {
        put(&mut disk, name, b"text")?;
    }
    put(&mut disk, "f/0000000009.ring", b"other text")?;
    put(&mut disk, "f/0000000010.ring.part3", b"text")?;
    put(&mut disk, "g/0000000002.ring", b"text")?;
    match numbers_in(rt.alloc(), &disk, "f") {
        Ok(Some(numbers)) => assert!(rt; numbers == SegmentNumbers { first: 7, last: 9 }),
        _ => panic!(rt; "refused"),
    }
    put(&mut disk, "f/0000000012.ring", b"text")?;
    match numbers_in(rt.alloc(), &disk, "f") {
        Err(FolderError::Missing(number)) => assert_eq!(rt; number, 10),
        _ => panic!(rt; "not refused"),
    }
    put(&mut disk, "f/7.ring", b"text")?;
    match numbers_in(rt.alloc(), &disk, "f") {
        Err(FolderError::Foreign(name)) => {
            assert_eq!(rt; name.to_string(rt.alloc())?.as_str(), "7.ring")
        }
        _ => panic!(rt; "not refused"),
    }
    Ok(())
}
