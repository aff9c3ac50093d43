//! Remarks about names: their lines, and what lines record of three rings.

use name_remarks::{NameRemark, NotTaken, Recorded, put_name_remark, read_name_remark};
use std::alloc::Global;
use std::process::Abort;

fn bind(ring: u32, before: u64, floor: u64, name: &str) -> NameRemark<'_> {
    NameRemark::Bind {
        ring,
        before,
        floor,
        name: name.as_bytes(),
    }
}

fn are_same(one: NameRemark<'_>, other: NameRemark<'_>) -> bool {
    match (one, other) {
        (
            NameRemark::Bind {
                ring,
                before,
                floor,
                name,
            },
            NameRemark::Bind {
                ring: r,
                before: b,
                floor: f,
                name: n,
            },
        ) => ring == r && before == b && floor == f && name == n,
        (NameRemark::Free { ring }, NameRemark::Free { ring: r }) => ring == r,
        (NameRemark::Top { grants }, NameRemark::Top { grants: g }) => grants == g,
        _ => false,
    }
}

fn is_read_as(line: &str, remark: NameRemark<'_>) -> bool {
    match read_name_remark(line.as_bytes()) {
        Ok(Some(read)) => are_same(read, remark),
        _ => false,
    }
}

#[test]
fn remarks_are_written_and_read(rt: HostRuntime) {
    let alloc = rt.alloc();
    let free = NameRemark::Free { ring: 4294967295 };
    let top = NameRemark::Top {
        grants: 18446744073709551615,
    };
    let rows: [(NameRemark<'_>, &str); 5] = [
        (
            bind(17, 41, 8812, "order/4711"),
            "# name 17 41 8812 order/4711\n",
        ),
        (bind(0, 0, 0, "name"), "# name 0 0 0 name\n"),
        (bind(1, 0, 3, "-_./aZ09"), "# name 1 0 3 -_./aZ09\n"),
        (free, "# free 4294967295\n"),
        (top, "# floor 18446744073709551615\n"),
    ];
    for (remark, line) in rows {
        let mut text = Vec::new(alloc);
        assert!(&rt; put_name_remark(&mut text, remark).is_ok());
        assert!(&rt; text.as_slice() == line.as_bytes());
        assert!(&rt; is_read_as(line, remark));
    }
}

/// What is recorded of three rings after these lines.
fn recorded(rt: &impl Abort, alloc: Global, lines: &[&str]) -> Recorded {
    let Ok(mut recorded) = Recorded::nothing(alloc, 3) else {
        panic!(rt; "there is memory");
    };
    for line in lines {
        assert!(rt; recorded.take_in(alloc, line.as_bytes()).is_ok());
    }
    recorded
}

/// What is recorded, as the lines that say so.
fn text_of(rt: &impl Abort, alloc: Global, recorded: &Recorded) -> Vec<u8> {
    let mut text = Vec::new(alloc);
    if let Some(grants) = recorded.top() {
        assert!(rt; put_name_remark(&mut text, NameRemark::Top { grants }).is_ok());
    }
    for ring in 0..3 {
        let Some(bound) = recorded.binding(ring) else {
            continue;
        };
        let remark = NameRemark::Bind {
            ring,
            before: bound.before(),
            floor: bound.floor(),
            name: bound.name(),
        };
        assert!(rt; put_name_remark(&mut text, remark).is_ok());
    }
    text
}

#[test]
fn the_last_remark_about_a_ring_counts(rt: HostRuntime) {
    let alloc = rt.alloc();
    let rows: [(&[&str], &str); 5] = [
        (&[], ""),
        (&["# floor 9\n"], "# floor 9\n"),
        (
            &[
                "# floor 9\n",
                "# name 2 4 9 b\n",
                "2 p 0 3 77 g 5 99\n",
                "# name 1 0 10 a\n",
            ],
            "# floor 9\n# name 1 0 10 a\n# name 2 4 9 b\n",
        ),
        (&["# name 2 4 9 b\n", "# free 2\n"], ""),
        (
            &[
                "# name 2 4 9 b\n",
                "# free 2\n",
                "# name 2 5 12 c\n",
                "# at 5 0\n",
            ],
            "# name 2 5 12 c\n",
        ),
    ];
    for (lines, text) in rows {
        let recorded = recorded(&rt, alloc, lines);
        assert!(&rt; text_of(&rt, alloc, &recorded).as_slice() == text.as_bytes());
    }
}

#[test]
fn what_is_recorded_is_looked_up(rt: HostRuntime) {
    let alloc = rt.alloc();
    let Ok(mut recorded) = Recorded::nothing(alloc, 3) else {
        panic!(&rt; "there is memory");
    };
    assert!(&rt; recorded.top().is_none());
    assert!(&rt; recorded.binding(2).is_none());
    let rows: [(&str, Option<NotTaken>); 5] = [
        ("# floor 8812\n", None),
        ("# name 2 41 8812 order/4711\n", None),
        ("# name 3 0 0 a\n", Some(NotTaken::Ring)),
        ("# free 3\n", Some(NotTaken::Ring)),
        ("# free 02\n", Some(NotTaken::Misspelled)),
    ];
    for (line, why) in rows {
        assert!(&rt; recorded.take_in(alloc, line.as_bytes()).err() == why);
    }
    assert!(&rt; recorded.top() == Some(8812));
    assert!(&rt; recorded.binding(1).is_none());
    assert!(&rt; recorded.binding(3).is_none());
    match recorded.binding(2) {
        Some(bound) => {
            assert!(&rt; bound.before() == 41 && bound.floor() == 8812);
            assert!(&rt; bound.name() == "order/4711".as_bytes());
        }
        None => panic!(&rt; "the ring is bound"),
    }
}
