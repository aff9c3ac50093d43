//! Rows as records of a table of comma-separated values.

ghost use Rattle.std.specs.Prelude.{◌≡◌, ◌++◌, IfOk, decimal, map};
ghost use Rattle.csv.specs.Writing.{default_writer, row_text};
ghost use Rattle.repair_texts.specs.Columns.{heading, record_of};

use crate::columns::{Number, Row, Word, numbers_of, words_of};
use csv::{Error, WriterBuilder};
use itoa::Buffer;
use std::alloc::{AllocError, Global};

/// The names of the columns.
const NAMES: [&[u8]; 16] = [
    b"measure",
    b"daemon",
    b"from",
    b"n",
    b"k",
    b"faults",
    b"trials",
    b"bound",
    b"longest",
    b"least",
    b"mean_hundredths",
    b"median",
    b"p90",
    b"p99",
    b"p999",
    b"greatest",
];

/// The text of a record.
fn text_of(alloc: Global, fields: &[&[u8]]) -> Result<Vec<u8>, Error>
    ensures { IfOk result (λ text. text.items ≡ row_text default_writer (map (λ f. f.now) fields.now)) }
{
    let mut writer = WriterBuilder::new().from_writer(Vec::new(alloc));
    writer.write_fields(fields)?;
    match writer.into_inner() {
        Ok(text) => Ok(text),
        Err(fault) => Err(fault.into_error()),
    }
}

/// The digits of a number.
fn digits(alloc: Global, number: u64) -> Result<Vec<u8>, AllocError>
    ensures { IfOk result (λ text. text.items ≡ decimal number) }
{
    let mut buffer = Buffer::new();
    Vec::from_slice(alloc, buffer.format(number).as_bytes())
}

/// The digits of each number.
fn all_digits(alloc: Global, numbers: &[Number]) -> Result<Vec<Vec<u8>>, AllocError>
    ensures { IfOk result
        (λ texts. map (λ text. text.items) texts.items ≡ map (λ n. decimal n.number) numbers.now) }
{
    let mut texts = Vec::new(alloc);
    for number in numbers {
        texts.push(digits(alloc, number.number)?)?;
    }
    Ok(texts)
}

/// The words, and then the texts.
fn fields_of<'a>(
    alloc: Global,
    words: &[Word<'a>],
    texts: &'a [Vec<u8>],
) -> Result<Vec<&'a [u8]>, AllocError>
    ensures { IfOk result (λ fields. map (λ f. f.now) fields.items
        ≡ map (λ w. w.word.now) words.now ++ map (λ text. text.items) texts.now) }
{
    let mut fields = Vec::new(alloc);
    for word in words {
        fields.push(word.word.as_bytes())?;
    }
    for text in texts {
        fields.push(text.as_slice())?;
    }
    Ok(fields)
}

/// The record of the columns' names.
///
/// # Errors
///
/// Only if memory runs out.
pub fn heading(alloc: Global) -> Result<Vec<u8>, AllocError>
    ensures { IfOk result (λ text. text.items ≡ heading) }
{
    match text_of(alloc, &NAMES) {
        Ok(text) => Ok(text),
        Err(_) => Err(AllocError),
    }
}

/// The record of a row.
///
/// # Errors
///
/// Only if memory runs out.
pub fn record(alloc: Global, row: &Row<'_>) -> Result<Vec<u8>, AllocError>
    ensures { IfOk result (λ text. text.items ≡ record_of row.now) }
{
    let texts = all_digits(alloc, &numbers_of(row))?;
    let fields = fields_of(alloc, &words_of(&row.head), texts.as_slice())?;
    match text_of(alloc, fields.as_slice()) {
        Ok(text) => Ok(text),
        Err(_) => Err(AllocError),
    }
}
