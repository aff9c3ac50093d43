//! Rows as objects of JSON.

ghost use Rattle.std.specs.Prelude.{◌≡◌, IfOk, OnOk, map, string_bytes};
ghost use Rattle.serde_json.specs.View.{members_view};
ghost use Rattle.repair_texts.specs.Columns.{with_words, with_numbers, word_of, number_of, object_of};

use crate::columns::{Number, Row, Word, numbers_of, words_of};
use serde_json::{Map, Value, put};
use std::alloc::{AllocError, Global};

/// Puts each word into an object, under its name.
fn put_words(
    alloc: Global,
    object: &mut Map<String, Value>,
    words: &[Word<'_>],
) -> Result<(), AllocError>
    ensures { OnOk result (members_view object.new.entries
        ≡ with_words (map word_of words.now) (members_view object.old.entries)) }
{
    for word in words {
        let value = Value::String(String::from_str(alloc, word.word)?);
        put(object, alloc, word.name, value)?;
    }
    Ok(())
}

/// Puts each number into an object, under its name.
fn put_numbers(
    alloc: Global,
    object: &mut Map<String, Value>,
    numbers: &[Number],
) -> Result<(), AllocError>
    ensures { OnOk result (members_view object.new.entries
        ≡ with_numbers (map number_of numbers.now) (members_view object.old.entries)) }
{
    for number in numbers {
        put(object, alloc, number.name, Value::from(number.number))?;
    }
    Ok(())
}

/// The row as an object of JSON, without its line's end: its members are in the order of their names.
///
/// # Errors
///
/// Only if memory runs out.
pub fn object_line(alloc: Global, row: &Row<'_>) -> Result<String, AllocError>
    ensures { IfOk result (λ text. string_bytes text ≡ object_of row.now) }
{
    let mut object = Map::new(alloc);
    put_words(alloc, &mut object, &words_of(&row.head))?;
    put_numbers(alloc, &mut object, &numbers_of(row))?;
    Value::Object(object).to_string(alloc)
}
