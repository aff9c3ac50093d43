//! The writers of cells.

ghost use Rattle.std.specs.Prelude.{◌++◌, None, Some};
ghost use Rattle.std.specs.Fmt.{decimal};
ghost use Rattle.std.specs.List.{flat_map};
ghost use Rattle.text_lines.specs.Writing.{Writes};
ghost use Rattle.history_states.specs.Cells.{name_text, number_text, quoted, opening, between, closing, cell_text, Word, Numbers};
ghost use Rattle.text_lines.specs.Spelling.{numbers_text};
ghost use Rattle.history_states.specs.Walks.{cell_of};

use crate::form::{Form, between, closing};
use itoa::Buffer;
use std::io::Write;
use text_lines::{WriteFault, put, put_all, put_numbers};

/// A cell of a row, by its name.
#[derive(Clone, Copy)]
pub enum Cell<'a> {
    /// A number, or none.
    Number(&'static [u8], Option<u64>),
    /// A word.
    Word(&'static [u8], &'static [u8]),
    /// A list of numbers.
    Numbers(&'static [u8], &'a [u32]),
}

/// Writes what comes before the content of a cell.
fn put_name<W: Write>(out: &mut W, form: Form, name: &[u8]) -> Result<(), WriteFault>
    ensures { Writes (W.contents out.old) (W.contents out.new) result (name_text form name.now) }
{
    match form {
        Form::Words => put_all(out, &[b" ", name, b" "]),
        Form::Csv => put(out, b","),
        Form::Json => put_all(out, &[b",\"", name, b"\":"]),
    }
}

/// Writes a number.
fn put_decimal<W: Write>(out: &mut W, number: u64) -> Result<(), WriteFault>
    ensures { Writes (W.contents out.old) (W.contents out.new) result (decimal number) }
{
    let mut buffer = Buffer::new();
    put(out, buffer.format(number).as_bytes())
}

/// Writes a cell with a number.
#[tactic(auto, using(text_lines::proofs::Writing::writes_then))]
fn put_some<W: Write>(out: &mut W, form: Form, name: &[u8], number: u64) -> Result<(), WriteFault>
    ensures { Writes (W.contents out.old) (W.contents out.new) result
        (number_text form name.now (Some number)) }
{
    match put_name(out, form, name) {
        Ok(()) => put_decimal(out, number),
        Err(fault) => Err(fault),
    }
}

/// Writes a cell with no number.
fn put_none<W: Write>(out: &mut W, form: Form, name: &[u8]) -> Result<(), WriteFault>
    ensures { Writes (W.contents out.old) (W.contents out.new) result
        (number_text form name.now None) }
{
    match form {
        Form::Words => Ok(()),
        Form::Csv => put(out, b","),
        Form::Json => Ok(()),
    }
}

/// Writes a word, between quotes in JSON.
fn put_quoted<W: Write>(out: &mut W, form: Form, word: &[u8]) -> Result<(), WriteFault>
    ensures { Writes (W.contents out.old) (W.contents out.new) result (quoted form word.now) }
{
    match form {
        Form::Words => put(out, word),
        Form::Csv => put(out, word),
        Form::Json => put_all(out, &[b"\"", word, b"\""]),
    }
}

/// Writes a cell with a word.
#[tactic(auto, using(text_lines::proofs::Writing::writes_then))]
fn put_word<W: Write>(out: &mut W, form: Form, name: &[u8], word: &[u8]) -> Result<(), WriteFault>
    ensures { Writes (W.contents out.old) (W.contents out.new) result
        (cell_text form (Word name.now word.now)) }
{
    match put_name(out, form, name) {
        Ok(()) => put_quoted(out, form, word),
        Err(fault) => Err(fault),
    }
}

/// Writes the numbers of a list.
fn put_list<W: Write>(out: &mut W, form: Form, numbers: &[u32]) -> Result<(), WriteFault>
    ensures { Writes (W.contents out.old) (W.contents out.new) result
        (numbers_text (between form) (closing form) numbers.now) }
{
    put_numbers(
        out,
        numbers.len(),
        between(form),
        closing(form),
        |i| numbers[i] as u64,
    )
}

/// Writes the text before the first number of a list.
fn put_opening<W: Write>(out: &mut W, form: Form) -> Result<(), WriteFault>
    ensures { Writes (W.contents out.old) (W.contents out.new) result (opening form) }
{
    match form {
        Form::Words => Ok(()),
        Form::Csv => Ok(()),
        Form::Json => put(out, b"["),
    }
}

/// Writes a list.
#[tactic(auto, using(text_lines::proofs::Writing::writes_then))]
fn put_whole_list<W: Write>(out: &mut W, form: Form, numbers: &[u32]) -> Result<(), WriteFault>
    ensures { Writes (W.contents out.old) (W.contents out.new) result
        (opening form ++ numbers_text (between form) (closing form) numbers.now) }
{
    match put_opening(out, form) {
        Ok(()) => put_list(out, form, numbers),
        Err(fault) => Err(fault),
    }
}

/// Writes a cell with a list.
#[tactic(auto, using(text_lines::proofs::Writing::writes_then))]
fn put_listed<W: Write>(
    out: &mut W,
    form: Form,
    name: &[u8],
    numbers: &[u32],
) -> Result<(), WriteFault>
    ensures { Writes (W.contents out.old) (W.contents out.new) result
        (cell_text form (Numbers name.now numbers.now)) }
{
    match put_name(out, form, name) {
        Ok(()) => put_whole_list(out, form, numbers),
        Err(fault) => Err(fault),
    }
}

/// Writes a cell.
fn put_cell<W: Write>(out: &mut W, form: Form, cell: Cell<'_>) -> Result<(), WriteFault>
    ensures { Writes (W.contents out.old) (W.contents out.new) result
        (cell_text form (cell_of cell.entry)) }
{
    match cell {
        Cell::Number(name, Some(number)) => put_some(out, form, name, number),
        Cell::Number(name, None) => put_none(out, form, name),
        Cell::Word(name, word) => put_word(out, form, name, word),
        Cell::Numbers(name, numbers) => put_listed(out, form, name, numbers),
    }
}

/// Writes cells, one after the other. It takes no memory.
///
/// # Errors
///
/// As [`put`]: the writer holds a prefix of the cells then, but not all of them.
pub fn put_cells<W: Write>(out: &mut W, form: Form, cells: &[Cell<'_>]) -> Result<(), WriteFault>
    ensures { Writes (W.contents out.old) (W.contents out.new) result
        (flat_map (λ cell. cell_text form (cell_of cell)) cells.now) }
{
    for cell in cells {
        match put_cell(out, form, *cell) {
            Ok(()) => {}
            Err(fault) => return Err(fault),
        }
    }
    Ok(())
}
