//! A toy grammar: `toy`, then any number of lines `row N` with N numbers on a line below and of
//! lines `sum T`, and `end`.

use itoa::Buffer;
use std::alloc::Global;
use std::io::Write;
use text_lines::{
    ReadError, Stop, WriteFault, nothing_more, number64, positive32, put, put_all, put_row,
    refusal, row32, word,
};

#[derive(Drop)]
pub(super) enum Item {
    Row(Vec<u32>),
    Sum(u64),
}

fn row(alloc: Global, bytes: &[u8]) -> Result<(Item, &[u8]), Stop> {
    let rest = word(bytes, b"row ")?;
    let (count, rest) = positive32(rest, b'\n')?;
    let (numbers, rest) = row32(alloc, count, rest)?;
    Ok((Item::Row(numbers), rest))
}

fn sum(bytes: &[u8]) -> Result<(Item, &[u8]), Stop> {
    let rest = word(bytes, b"sum ")?;
    let (total, rest) = number64(rest, b'\n')?;
    Ok((Item::Sum(total), rest))
}

fn items(alloc: Global, bytes: &[u8]) -> Result<(Vec<Item>, &[u8]), Stop> {
    let mut found = Vec::new(alloc);
    let mut rest = bytes;
    // An item has a byte at least, so no text has more items than bytes.
    for _ in bytes {
        let (item, after) = match rest {
            [b'r', ..] => row(alloc, rest)?,
            [b's', ..] => sum(rest)?,
            _ => return Ok((found, word(rest, b"end\n")?)),
        };
        found.push(item)?;
        rest = after;
    }
    Ok((found, word(rest, b"end\n")?))
}

fn whole(alloc: Global, bytes: &[u8]) -> Result<Vec<Item>, Stop> {
    let rest = word(bytes, b"toy\n")?;
    let (found, rest) = items(alloc, rest)?;
    nothing_more(rest)?;
    Ok(found)
}

/// The items of the text that the bytes are.
pub(super) fn read(alloc: Global, bytes: &[u8]) -> Result<Vec<Item>, ReadError> {
    match whole(alloc, bytes) {
        Ok(items) => Ok(items),
        Err(stop) => Err(refusal(bytes, stop)),
    }
}

fn write_row<W: Write>(out: &mut W, numbers: &[u32]) -> Result<(), WriteFault> {
    let mut buffer = Buffer::new();
    put_all(
        out,
        &[b"row ", buffer.format(numbers.len()).as_bytes(), b"\n"],
    )?;
    put_row(out, numbers)
}

/// Writes the text of the items.
pub(super) fn write<W: Write>(out: &mut W, items: &[Item]) -> Result<(), WriteFault> {
    put(out, b"toy\n")?;
    for item in items {
        match item {
            Item::Row(numbers) => write_row(out, numbers)?,
            Item::Sum(total) => {
                let mut buffer = Buffer::new();
                put_all(out, &[b"sum ", buffer.format(*total).as_bytes(), b"\n"])?
            }
        }
    }
    put(out, b"end\n")
}
