//! The files of a folder with a fixed lock and a pool of one ring.

use judged_files::{Cause, FolderJudge, JudgeError};
use std::alloc::Global;
use std::process::Abort;

/// With which rings the first file begins: nothing came before.
const FIRST: &str = "ringsegment 1 1 2
behind 0000000000000000000000000000000000000000000000000000000000000000
base 0 0 0 0
base 0 0 0 0
ringjournal 1
ringfarm 2
ring 0 2 2
start 0 0
end 0
ring 1 2 2
start 0 0
end 0
done 2
";

/// A name is bound, and granted.
const BOUND: &str = "# floor 0\n# name 1 0 0 a\n1 p 0 0 8 g 1 8\n";

fn file(rt: &impl Abort, alloc: Global, rings: &str, rest: &str) -> Vec<u8> {
    let mut bytes = Vec::new(alloc);
    assert!(rt; bytes.extend_from_slice(rings.as_bytes()).is_ok());
    assert!(rt; bytes.extend_from_slice(rest.as_bytes()).is_ok());
    bytes
}

fn fixed_names(rt: &impl Abort, alloc: Global) -> Vec<String> {
    let mut names = Vec::new(alloc);
    let Ok(name) = String::from_str(alloc, "deploy") else {
        panic!(rt; "there is memory");
    };
    assert!(rt; names.push(name).is_ok());
    names
}

/// The answer to a last file after the first one.
fn after_first(rt: &impl Abort, alloc: Global, rings: &str, rest: &str) -> Option<JudgeError> {
    let names = fixed_names(rt, alloc);
    let first = file(rt, alloc, FIRST, BOUND);
    let Ok(judge) = FolderJudge::new().with_file(alloc, &names, &first, false) else {
        panic!(rt; "refused");
    };
    let last = file(rt, alloc, rings, rest);
    judge.with_file(alloc, &names, &last, true).err()
}

// A later file that begins with the rings of the first one leaves out what came since.
#[test]
fn files_begin_as_they_were_left(rt: HostRuntime) {
    let alloc = rt.alloc();
    let why = after_first(&rt, alloc, FIRST, BOUND);
    assert!(&rt; why == Some(JudgeError::Line(1, Cause::OtherRings)));
}
