//! Numbers with names.

ghost use Rattle.std.specs.Prelude.{◌++◌, codes};
ghost use Rattle.std.specs.List.{flat_map};
ghost use Rattle.text_lines.specs.Writing.{Writes};
ghost use Rattle.repair_texts.specs.Lines.{field_text};

use itoa::Buffer;
use std::io::Write;
use text_lines::{WriteFault, put, put_all};

/// A number, and the text before it.
#[derive(Clone, Copy)]
pub(crate) struct Field {
    pub(crate) name: &'static [u8],
    pub(crate) number: u64,
}

/// Writes a number after its name.
fn put_field<W: Write>(out: &mut W, field: Field) -> Result<(), WriteFault>
    ensures { Writes (W.contents out.old) (W.contents out.new) result (field_text field) }
{
    let mut buffer = Buffer::new();
    put_all(out, &[field.name, buffer.format(field.number).as_bytes()])
}

/// Writes numbers after their names.
fn put_fields<W: Write>(out: &mut W, fields: &[Field]) -> Result<(), WriteFault>
    ensures { Writes (W.contents out.old) (W.contents out.new) result
        (flat_map field_text fields.now) }
{
    for field in fields {
        match put_field(out, *field) {
            Ok(()) => {}
            Err(fault) => return Err(fault),
        }
    }
    Ok(())
}

/// Writes numbers after their names, and the end of the line.
#[tactic(auto, using(text_lines::proofs::Writing::writes_then, text_lines::proofs::Writing::writes_err))]
pub(crate) fn put_rest<W: Write>(out: &mut W, fields: &[Field]) -> Result<(), WriteFault>
    ensures { Writes (W.contents out.old) (W.contents out.new) result
        (flat_map field_text fields.now ++ codes "\n") }
{
    match put_fields(out, fields) {
        Ok(()) => put(out, b"\n"),
        Err(fault) => Err(fault),
    }
}
