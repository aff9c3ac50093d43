//! The first file of the chain in [`segments`](crate::segments), with remarks.

use crate::segments::FIRST;
use segment_files::{has_remark, put_remark, without_remarks};
use std::test::Fail;

const REMARKED: &str = "ringsegment 1 1 2\n\
    behind 0000000000000000000000000000000000000000000000000000000000000000\n\
    base 0 0 0 0\n\
    base 0 0 0 0\n\
    ringjournal 1\n\
    ringfarm 2\n\
    ring 0 3 3\n\
    start 0 2 0\n\
    end 0\n\
    ring 1 4 4\n\
    start 0 2 1 0\n\
    end 0\n\
    done 2\n\
    # 7 1 did granted 5\n\
    # at 3 00000000000000000000000000000000000000000000000000000000000000aa\n\
    0 p 0 0 5 g 1 5\n\
    # 7 2 did # 0 p 0 0 5 g 1 5\n\
    0 s 1 1 2 1 1 3\n\
    #\n\
    1 m 0 1 2 2 1 2\n\
    1 m 0 0 2 1 2 4\n\
    1 m 0 3 2 0 3 6\n\
    # 8 1 forget\n";

#[test]
fn remarks_are_left_out(rt: HostRuntime) -> Result<(), Fail> {
    assert!(rt; has_remark(REMARKED.as_bytes()) && !has_remark(FIRST.as_bytes()));
    let kept = without_remarks(rt.alloc(), REMARKED.as_bytes())?;
    assert!(rt; kept.as_slice() == FIRST.as_bytes());
    let mut text = Vec::new(rt.alloc());
    put_remark(b"8 1 forget\n", &mut text)?;
    assert!(rt; text.as_slice() == b"# 8 1 forget\n".as_slice());
    Ok(())
}
