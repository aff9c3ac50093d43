//! The line of each fault, also of those that no command line causes, and the words of the checker's answers.

use journal::RecoverError;
use ring_check::{CheckError, Kind};
use ring_settings::{Field, RingCause};
use segment_files::SegmentError;
use std::alloc::Global;
use std::process::Abort;
use std::test::Fail;
use tool_parts::endings::tell;
use tool_parts::faults::ToolError;

/// A fault, the status that it gives, and its line.
type Told = (ToolError<'static>, u8, &'static str);

const TOLD: [Told; 55] = [
    (ToolError::BadList, 2, "bad list\n"),
    (ToolError::TooFew, 1, "n is less than 2\n"),
    (ToolError::TooMany, 1, "n is more than 1024\n"),
    (ToolError::FewValues, 1, "k is less than n\n"),
    (ToolError::ManyValues, 1, "k is more than 65536\n"),
    (ToolError::Length, 1, "start does not have n values\n"),
    (ToolError::Value(255), 1, "start value 255 is not below k\n"),
    (ToolError::Choice(7), 1, "choice 7 is not below n\n"),
    (ToolError::Json, 1, "settings are not JSON\n"),
    (
        ToolError::Shape(Field::Top),
        1,
        "settings: document is missing or has the wrong shape\n",
    ),
    (
        ToolError::Limit(Field::Script),
        1,
        "settings: script is out of limits\n",
    ),
    (
        ToolError::Ring(15, RingCause::Value(2)),
        1,
        "ring 15: start value 2 is not below k\n",
    ),
    (
        ToolError::Script(9, 999_999),
        1,
        "seat 9, action 999999: not an action\n",
    ),
    (ToolError::Spawn, 1, "a thread could not be started\n"),
    (ToolError::GateShut, 1, "the gate was shut\n"),
    (ToolError::NoSeat, 1, "no reader place\n"),
    (ToolError::HistoryFull, 1, "a history is full\n"),
    (ToolError::Mismatch, 1, "logs and history differ\n"),
    (
        ToolError::Syntax(u64::MAX),
        1,
        "line 18446744073709551615: syntax\n",
    ),
    (ToolError::Truncated, 1, "text is truncated\n"),
    (ToolError::Bad(2, Kind::Parameter), 1, "line 2: parameter\n"),
    (ToolError::Bad(3, Kind::Range), 1, "line 3: range\n"),
    (ToolError::Bad(4, Kind::Reply), 1, "line 4: reply\n"),
    (ToolError::Bad(5, Kind::Count), 1, "line 5: count\n"),
    (ToolError::Bad(6, Kind::Survey), 1, "line 6: survey\n"),
    (ToolError::Bad(7, Kind::Group), 1, "line 7: group\n"),
    (ToolError::Read("in.txt"), 1, "cannot read in.txt\n"),
    (ToolError::TooLarge("in.txt"), 1, "in.txt is too large\n"),
    (ToolError::Save("out.txt"), 1, "cannot write out.txt\n"),
    (
        ToolError::SameFile("out.txt"),
        1,
        "out.txt is the file that is read\n",
    ),
    (
        ToolError::Stream("out.txt"),
        1,
        "out.txt is the file of a standard stream\n",
    ),
    (
        ToolError::Read("evil\nlegal rings 9\r\u{1b}[2Kä"),
        1,
        "cannot read evil\\nlegal rings 9\\r\\u{1b}[2Kä\n",
    ),
    (ToolError::Write, 1, "cannot write\n"),
    (ToolError::OutOfMemory, 1, "out of memory\n"),
    (ToolError::NoRing(16), 1, "there is no ring 16\n"),
    (
        ToolError::NoPlace(7),
        1,
        "the ring has fewer than 7 events\n",
    ),
    (
        ToolError::ManyDrawn,
        1,
        "a picture has at most 20000 events\n",
    ),
    (ToolError::InUse("kept.txt"), 1, "kept.txt is in use\n"),
    (ToolError::Full(15), 1, "ring 15: the history is full\n"),
    (ToolError::TotalsTooLarge, 1, "the totals are too large\n"),
    (
        ToolError::Journal("kept.txt", RecoverError::Truncated),
        1,
        "kept.txt: truncated\n",
    ),
    (
        ToolError::Journal("kept.txt", RecoverError::Syntax(7)),
        1,
        "kept.txt: line 7: syntax\n",
    ),
    (
        ToolError::Journal(
            "kept.txt",
            RecoverError::Bad {
                line: 8,
                kind: Kind::Reply,
            },
        ),
        1,
        "kept.txt: line 8: reply\n",
    ),
    (
        ToolError::Journal("kept.txt", RecoverError::OutOfMemory),
        1,
        "kept.txt: out of memory\n",
    ),
    (ToolError::NoSegment("kept"), 1, "kept has no segments\n"),
    (
        ToolError::Begins("kept", 3),
        1,
        "kept begins at segment 3\n",
    ),
    (
        ToolError::InFolder("kept/new.txt"),
        1,
        "kept/new.txt is in the folder that is read\n",
    ),
    (
        ToolError::Irregular("kept", 7),
        1,
        "kept/0000000007.ring: not a regular file\n",
    ),
    (
        ToolError::Missing("kept", 12_345_678_901),
        1,
        "kept/12345678901.ring: missing\n",
    ),
    (
        ToolError::UnreadSegment("kept", 1),
        1,
        "cannot read kept/0000000001.ring\n",
    ),
    (
        ToolError::LargeSegment("kept", u64::MAX),
        1,
        "kept/18446744073709551615.ring is too large\n",
    ),
    (
        ToolError::Segment(
            "kept",
            2,
            SegmentError::Bad {
                line: 15,
                kind: Kind::Reply,
            },
        ),
        1,
        "kept/0000000002.ring: line 15: reply\n",
    ),
    (
        ToolError::Segment("kept", 3, SegmentError::Full),
        1,
        "kept/0000000003.ring: full\n",
    ),
    (
        ToolError::BadNames("kept"),
        1,
        "the names in kept are not those of its rings\n",
    ),
    (
        ToolError::WrongNames("kept", 3, 7, "misspelled"),
        1,
        "kept/0000000003.ring: line 7: name: misspelled\n",
    ),
];

/// Compares the line and the status of a fault.
fn expect_told(rt: &impl Abort, alloc: Global, (fault, status, text): &Told) {
    let mut err = Vec::new(alloc);
    let got = tell(fault, &mut err);
    assert!(rt; got == *status, "at {fault}: status {got}");
    assert!(rt; err.as_slice() == text.as_bytes(), "at {fault}");
}

#[test]
fn each_fault_has_its_line(rt: HostRuntime) {
    for told in &TOLD {
        expect_told(&rt, rt.alloc(), told);
    }
}

#[test]
fn each_answer_of_the_checker_has_its_words(rt: HostRuntime) -> Result<(), Fail> {
    for (kind, words) in [
        (Kind::Parameter, "line 12: parameter"),
        (Kind::Range, "line 12: range"),
        (Kind::Reply, "line 12: reply"),
        (Kind::Count, "line 12: count"),
        (Kind::Survey, "line 12: survey"),
        (Kind::Group, "line 12: group"),
    ] {
        let text = CheckError::Bad { line: 12, kind }.to_string(rt.alloc())?;
        assert_eq!(rt; text.as_str(), words);
    }
    let text = CheckError::OutOfMemory.to_string(rt.alloc())?;
    assert_eq!(rt; text.as_str(), "out of memory");
    Ok(())
}
