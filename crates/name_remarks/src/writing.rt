//! Writes remarks about names.

ghost use Rattle.std.specs.Prelude.{◌≡◌, ◌++◌, List, ℕ, codes, OnOk, OnErr};
ghost use Rattle.text_lines.specs.Spelling.{spaced};
ghost use Rattle.lock_protocol.specs.Names.{name_ended};
ghost use Rattle.name_remarks.specs.Remarks.{remark_text};
ghost use Rattle.name_remarks.specs.Views.{seen};

use crate::remarks::NameRemark;
use std::alloc::AllocError;
use text_lines::{Line, put_word, with_number};

/// The line of a binding, up to the name.
fn bind_front(ring: u32, before: u64, floor: u64) -> Line
    ensures { result ≡ codes "# name " ++ (spaced ring ++ (spaced before ++ spaced floor)) }
{
    let mut line = Line::new();
    line.byte(b' ');
    line.number(floor);
    line.byte(b' ');
    line.number(before);
    line.byte(b' ');
    line.number(ring as u64);
    put_word(&mut line, b"# name ");
    line
}

/// Adds the parts of a line that ends with a name. If memory is short the text may have some.
fn put_parts(text: &mut Vec<u8>, front: &[u8], name: &[u8]) -> Result<(), AllocError>
    ensures ok { OnOk result
        (text.new.items ≡ text.old.items ++ (front.now ++ name_ended name.now)) }
    ensures err { OnErr result ((more : List ℕ) × (text.new.items ≡ text.old.items ++ more)) }
{
    text.extend_from_slice(front)?;
    text.extend_from_slice(name)?;
    text.extend_from_slice(b"\n")
}

/// Adds a line that ends with a name.
fn put_named(text: &mut Vec<u8>, front: &[u8], name: &[u8]) -> Result<(), AllocError>
    ensures ok { OnOk result
        (text.new.items ≡ text.old.items ++ (front.now ++ name_ended name.now)) }
    ensures err { OnErr result (text.new.items ≡ text.old.items) }
{
    let length = text.len();
    match put_parts(text, front, name) {
        Ok(()) => Ok(()),
        Err(error) => {
            text.truncate(length);
            Err(error)
        }
    }
}

/// Adds the remark to a text.
///
/// # Errors
///
/// Only out of memory. The text is as it was then.
pub fn put_name_remark(text: &mut Vec<u8>, remark: NameRemark<'_>) -> Result<(), AllocError>
    ensures ok { OnOk result
        (text.new.items ≡ text.old.items ++ remark_text (seen remark.entry)) }
    ensures err { OnErr result (text.new.items ≡ text.old.items) }
{
    match remark {
        NameRemark::Bind {
            ring,
            before,
            floor,
            name,
        } => put_named(text, bind_front(ring, before, floor).as_bytes(), name),
        NameRemark::Free { ring } => {
            text.extend_from_slice(with_number(b"# free ", ring as u64).as_bytes())
        }
        NameRemark::Top { grants } => {
            text.extend_from_slice(with_number(b"# floor ", grants).as_bytes())
        }
    }
}
