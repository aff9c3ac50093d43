//! How many seats settings have once they are read. What else they hold is seen in rows of `tests/rows`.

use super::settings_of;
use std::alloc::{AllocError, Global};
use std::test::Fail;

/// A document with one ring, two drawn workers and these further members.
fn with_members(alloc: Global, members: &str) -> Result<String, AllocError> {
    let start =
        r#"{"rings":[{"n":2,"k":2,"start":[0,1]}],"workers":[{"seed":1,"actions":0},{"seed":2,"actions":0}]"#;
    format!(in alloc; "{start}{members}}}")
}

#[test]
fn an_injector_is_absent_null_or_drawn(rt: HostRuntime) -> Result<(), Fail> {
    let alloc = rt.alloc();
    for (injector, seats) in [
        ("", 2),
        (r#","injector":null"#, 2),
        (r#","injector":{"seed":9,"actions":1000000}"#, 3),
    ] {
        let text = with_members(alloc, injector)?;
        assert_eq!(rt; settings_of(&rt, alloc, text.as_str()).seat_count(), seats);
    }
    Ok(())
}
