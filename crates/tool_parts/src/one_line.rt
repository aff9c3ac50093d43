//! Text that stays on one line.

ghost use Rattle.std.specs.Fmt.{WritesOnOk};
ghost use Rattle.tool_parts.specs.OneLine.{escaped, one_line};

use std::fmt;

/// A text whose control characters are escaped when it is printed: a name that has an end of line in it begins no line of its own.
#[derive(Clone, Copy)]
pub struct OneLine<'a>(pub &'a str);

/// Writes a character, or its escape.
fn put_char<W: fmt::Write>(c: char, f: &mut fmt::Formatter<W>) -> fmt::Result
    ensures { WritesOnOk W.write_str_gives f.old result (escaped c) f.new }
{
    if !c.is_control() {
        return f.write_char(c);
    }
    for part in c.escape_default() {
        f.write_char(part)?;
    }
    Ok(())
}

/// Writes each character of a text, or its escape.
fn put_text<W: fmt::Write>(text: &str, f: &mut fmt::Formatter<W>) -> fmt::Result
    ensures { WritesOnOk W.write_str_gives f.old result (one_line text.now) f.new }
{
    for c in text.chars() {
        put_char(c, f)?;
    }
    Ok(())
}

impl fmt::Display for OneLine<'_> {
    ghost use Rattle.std.specs.Prelude.{Some};

    ghost output = { λ text. Some (one_line text.0.now) };

    fn fmt<W: fmt::Write>(&self, f: &mut fmt::Formatter<W>) -> fmt::Result {
        put_text(self.0, f)
    }
}

/// The file of the segment of this number in a folder: its name, where it is printed.
#[derive(Clone, Copy)]
pub(crate) struct SegmentFile<'a>(pub(crate) &'a str, pub(crate) u64);

impl fmt::Display for SegmentFile<'_> {
    ghost use Rattle.std.specs.Prelude.{Some};
    ghost use Rattle.line_service.specs.SegmentNames.{segment_file};

    ghost output = { λ file. Some (segment_file (one_line file.0.now) file.1) };

    fn fmt<W: fmt::Write>(&self, f: &mut fmt::Formatter<W>) -> fmt::Result {
        write!(f, "{}/{:010}.ring", OneLine(self.0), self.1)
    }
}
