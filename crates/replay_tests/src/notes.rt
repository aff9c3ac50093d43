//! Notes: their sum, their text, and what is none. The sums are those of another program.

use noted_lines::{Beginning, put_beginning, put_note, read_beginning, read_note, sum};
use std::alloc::AllocError;

// The sums that the authors of FNV give.
#[test]
fn sums_are_those_of_fnv(rt: HostRuntime) {
    assert!(rt; sum(b"") == 0x811c9dc5);
    assert!(rt; sum(b"a") == 0xe40c292c);
    assert!(rt; sum(b"foobar") == 0xbf9cf968);
}

/// Lines, their counts and their notes.
const NOTES: [(u64, &[u8], &[u8]); 4] = [
    (1, b"up\n", b"# do 1 2842856361 up\n"),
    (2, b"arm\n", b"# do 2 714458255 arm\n"),
    (0, b"\n", b"# do 0 1336098613 \n"),
    (
        u64::MAX,
        b"x\n",
        b"# do 18446744073709551615 2075505906 x\n",
    ),
];

#[test]
fn notes_are_written_and_read(rt: HostRuntime) -> Result<(), AllocError> {
    for (count, line, text) in &NOTES {
        let mut written = Vec::new(rt.alloc());
        put_note(&mut written, *count, *line)?;
        assert!(rt; written.as_slice() == *text);
        let Some(note) = read_note(*text) else {
            panic!(rt; "it is a note");
        };
        assert!(rt; note.count == *count && note.line == *line);
    }
    Ok(())
}

/// Texts that no note has: of another sum, count or spelling.
const OTHERS: [&[u8]; 10] = [
    b"# do 1 2842856362 up\n",
    b"# do 2 2842856361 up\n",
    b"# do 1 2842856361 us\n",
    b"# do 01 2842856361 up\n",
    b"# do 18446744073709551616 2842856361 up\n",
    b"# do 1  2842856361 up\n",
    b"# do 1 2842856361\n",
    b"# do ",
    b"#do 1 2842856361 up\n",
    b"",
];

#[test]
fn others_are_no_notes(rt: HostRuntime) {
    for text in &OTHERS {
        assert!(rt; read_note(*text).is_none());
    }
}

/// Texts, and with what they say that a segment begins.
const BEGINNINGS: [(&[u8], Option<Beginning>); 6] = [
    (
        b"# done 1 0\n",
        Some(Beginning {
            version: 1,
            count: 0,
        }),
    ),
    (
        b"# done 2 18446744073709551615\n",
        Some(Beginning {
            version: 2,
            count: u64::MAX,
        }),
    ),
    (b"# done 1 00\n", None),
    (b"# done 1 0 \n", None),
    (b"# done 1 18446744073709551616\n", None),
    (b"done\n", None),
];

#[test]
fn beginnings_are_read(rt: HostRuntime) {
    for (text, beginning) in &BEGINNINGS {
        assert!(rt; read_beginning(*text) == *beginning);
    }
}

#[test]
fn a_beginning_is_written(rt: HostRuntime) -> Result<(), AllocError> {
    let mut text = Vec::new(rt.alloc());
    let beginning = Beginning {
        version: 1,
        count: 41,
    };
    put_beginning(&mut text, beginning)?;
    assert!(rt; text.as_slice() == b"# done 1 41\n".as_slice());
    Ok(())
}
