//! A list without a pool, for locks by any name that start in a folder.

use folder_of_locks::{StartFault, has_pool, start_names};
use std::test::Fail;
use test_files::{make_folder, no_files};

#[test]
fn a_list_without_a_pool_is_refused(rt: HostRuntime) -> Result<(), Fail> {
    let mut disk = no_files(rt.alloc());
    make_folder(&mut disk, "f")?;
    assert!(rt; matches!(has_pool(rt.alloc(), &disk, "f", Some("gpu")), Ok(false)));
    let start = start_names(rt.alloc(), &mut disk, "f", Some("gpu"), 4, &[]);
    assert!(rt; matches!(start, Err(StartFault::NoPool)));
    Ok(())
}
