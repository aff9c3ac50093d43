//! Pieces, lists, and a text of a toy grammar, with its values and its refusals.

use super::toy::{Item, read};
use super::{What, is_put, is_whole, is_written};
use crate::scripted::{Refusal, writer_with};
use std::test::Fail;
use text_lines::{ReadError, put_all};

const TOY: &[u8] = b"toy\nrow 3\n0 7 4294967295\nsum 18446744073709551615\nrow 1\n12\nsum 0\nend\n";

#[test]
fn a_text_has_its_items_and_is_written_again(rt: HostRuntime) -> Result<(), Fail> {
    let items = read(rt.alloc(), TOY)?;
    assert!(rt; items.len() == 4);
    match &items[0] {
        Item::Row(numbers) => assert!(rt; numbers.as_slice() == [0, 7, 4_294_967_295].as_slice()),
        Item::Sum(_) => return Err(Fail::new("no row")),
    }
    match &items[1] {
        Item::Sum(total) => assert!(rt; *total == 18_446_744_073_709_551_615),
        Item::Row(_) => return Err(Fail::new("no sum")),
    }
    is_written(&rt, rt.alloc(), What::Toy(&items), TOY);
    Ok(())
}

#[test]
fn pieces_and_lists_are_written(rt: HostRuntime) {
    let written: [(What, &[u8]); 5] = [
        (What::Piece(b"four"), b"four"),
        (What::Pieces(b"fo", b"ur"), b"four"),
        (What::List(4), b"0,7,10,18446744073709551615"),
        (What::List(1), b"0"),
        (What::List(2), b"0,7"),
    ];
    for (what, text) in written {
        is_written(&rt, rt.alloc(), what, text);
    }
    // Nothing to write asks nothing.
    for what in [What::Piece(b""), What::Pieces(b"", b""), What::List(0)] {
        let mut out = writer_with(rt.alloc(), 0, 1, Refusal::Fails);
        assert!(rt; is_put(&rt, rt.alloc(), what, &mut out));
        assert!(rt; out.held.is_empty() && out.room == 0 && out.asked == 0);
    }
    let mut out = writer_with(rt.alloc(), 0, 1, Refusal::Fails);
    assert!(rt; put_all(&mut out, &[]).is_ok() && out.asked == 0);
}

#[test]
fn a_piece_of_many_bytes_is_written(rt: HostRuntime) -> Result<(), Fail> {
    let mut piece = Vec::new(rt.alloc());
    for _ in 0..4096 {
        for byte in 0..=255u8 {
            piece.push(byte)?;
        }
    }
    assert!(rt; piece.len() == 1_048_576);
    is_whole(&rt, rt.alloc(), What::Piece(&piece), &piece);
    Ok(())
}

/// Texts of the toy grammar, and what they are refused for.
const REFUSED: [(&[u8], Option<ReadError>); 26] = [
    (b"", Some(ReadError::Truncated)),
    (b"toy\nend\n", None),
    (b"toy\nend", Some(ReadError::Truncated)),
    (b"toy\nend\n\n", Some(ReadError::Syntax(3))),
    (b"toy\nend\ntoy\n", Some(ReadError::Syntax(3))),
    (b"toy\r\nend\n", Some(ReadError::Syntax(1))),
    (b"toy\nend\r\n", Some(ReadError::Syntax(2))),
    (b"\ntoy\nend\n", Some(ReadError::Syntax(1))),
    (b"toy\nsum 4294967296\nend\n", None),
    (b"toy\nsum 18446744073709551615\nend\n", None),
    (
        b"toy\nsum 18446744073709551616\nend\n",
        Some(ReadError::Syntax(2)),
    ),
    (
        b"toy\nsum 18446744073709551620\nend\n",
        Some(ReadError::Syntax(2)),
    ),
    (
        b"toy\nsum 123456789012345678901234567890123456789012\nend\n",
        Some(ReadError::Syntax(2)),
    ),
    (b"toy\nsum 01\nend\n", Some(ReadError::Syntax(2))),
    (b"toy\nsum 00\nend\n", Some(ReadError::Syntax(2))),
    (b"toy\nsum \nend\n", Some(ReadError::Syntax(2))),
    (b"toy\nsum +1\nend\n", Some(ReadError::Syntax(2))),
    (b"toy\nsum  1\nend\n", Some(ReadError::Syntax(2))),
    (b"toy\nrow 0\n\nend\n", Some(ReadError::Syntax(2))),
    (b"toy\nrow 1\n4294967295\nend\n", None),
    (b"toy\nrow 1\n4294967296\nend\n", Some(ReadError::Syntax(3))),
    (b"toy\nrow 4294967296\n1\nend\n", Some(ReadError::Syntax(2))),
    (b"toy\nrow 4294967295\n1 2 3", Some(ReadError::Truncated)),
    (b"toy\nrow 4294967295\n1 2 3\n", Some(ReadError::Syntax(3))),
    (b"toy\nrow 3\n1 2\nend\n", Some(ReadError::Syntax(3))),
    (b"toy\nrow 3\n1 2 3 4\nend\n", Some(ReadError::Syntax(3))),
];

#[test]
fn what_is_no_text_is_refused(rt: HostRuntime) {
    for (place, (bytes, wanted)) in REFUSED.iter().enumerate() {
        assert!(rt; read(rt.alloc(), bytes).err() == *wanted, "text {place}");
    }
    for k in 0..TOY.len() {
        let cut = read(rt.alloc(), &TOY[..k]).err();
        assert!(rt; cut == Some(ReadError::Truncated), "after {k} bytes");
    }
}
