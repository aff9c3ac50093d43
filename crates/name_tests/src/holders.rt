//! Lines of holders with the greatest numbers, which no hold has.

use folder_of_locks::read_holders;

#[test]
fn reads_lines(rt: HostRuntime) {
    let alloc = rt.alloc();
    let text = b"hold gpu/0 7 3\nhold 4294967296 18446744073709551615 0\n";
    let Ok(holders) = read_holders(alloc, text) else {
        panic!(rt; "holders");
    };
    assert!(rt; holders.len() == 2);
    assert!(rt; holders[0].name.as_slice() == b"gpu/0".as_slice());
    assert!(rt; holders[0].token == 7 && holders[0].client == 3);
    assert!(rt; holders[1].name.as_slice() == b"4294967296".as_slice());
    assert!(rt; holders[1].token == u64::MAX && holders[1].client == 0);
    assert!(rt; matches!(read_holders(alloc, b""), Ok(none) if none.is_empty()));
}
