//! The shapes of a picture, and their text as SVG.

ghost use Rattle.std.specs.Prelude.{◌≡◌};
ghost use Rattle.std.specs.List.{flat_map};
ghost use Rattle.text_lines.specs.Writing.{Writes};
ghost use Rattle.repair_picture.specs.Shapes.{colour, dashes, shape_text};
ghost use Rattle.repair_picture.specs.declared.shapes.Shape.TheVariants as shape;

use itoa::Buffer;
use std::io::Write;
use text_lines::{WriteFault, put_all};

/// A point of the page, in tenths of its units.
#[derive(Clone, Copy, Debug, PartialEq, Eq)]
pub struct Point {
    pub x: u128,
    pub y: u128,
}

/// What a shape shows.
#[derive(Clone, Copy, Debug, PartialEq, Eq)]
pub enum Style {
    /// Trials.
    Spread,
    Greatest,
    /// What 99 in 100 trials do not exceed.
    NinetyNine,
    /// What 90 in 100 trials do not exceed.
    Ninety,
    Median,
    Least,
    /// The longest repair.
    Longest,
    Bound,
}

/// A shape.
#[derive(Clone, Copy, Debug, PartialEq, Eq)]
pub enum Shape {
    Box {
        style: Style,
        at: Point,
        width: u128,
        height: u128,
    },
    Line {
        style: Style,
        from: Point,
        to: Point,
    },
    /// A number, which ends at a point.
    Number {
        at: Point,
        number: u128,
    },
}

/// The colour of what is shown.
fn colour(style: Style) -> &'static [u8]
    ensures { result.now ≡ colour style }
{
    match style {
        Style::Spread => b"#8fb0de",
        Style::Greatest => b"#b3261e",
        Style::NinetyNine => b"#d55e00",
        Style::Ninety => b"#e69f00",
        Style::Median => b"#111",
        Style::Least => b"#0a7d4f",
        Style::Longest => b"#6a3d9a",
        Style::Bound => b"#555",
    }
}

/// The dashes of its lines.
fn dashes(style: Style) -> &'static [u8]
    ensures { result.now ≡ dashes style }
{
    match style {
        Style::Longest => b" stroke-dasharray=\"120 60\"",
        Style::Bound => b" stroke-dasharray=\"30 50\"",
        _ => b"",
    }
}

fn put_box<W: Write>(
    out: &mut W,
    style: Style,
    at: Point,
    width: u128,
    height: u128,
) -> Result<(), WriteFault>
    ensures { Writes (W.contents out.old) (W.contents out.new) result
        (shape_text (shape.Box style at width height)) }
{
    let mut places = (Buffer::new(), Buffer::new());
    let mut sizes = (Buffer::new(), Buffer::new());
    let x = places.0.format(at.x).as_bytes();
    let y = places.1.format(at.y).as_bytes();
    let width = sizes.0.format(width).as_bytes();
    let height = sizes.1.format(height).as_bytes();
    put_all(
        out,
        &[
            b"<rect x=\"",
            x,
            b"\" y=\"",
            y,
            b"\" width=\"",
            width,
            b"\" height=\"",
            height,
            b"\" fill=\"",
            colour(style),
            b"\"/>\n",
        ],
    )
}

fn put_line<W: Write>(out: &mut W, style: Style, from: Point, to: Point) -> Result<(), WriteFault>
    ensures { Writes (W.contents out.old) (W.contents out.new) result
        (shape_text (shape.Line style from to)) }
{
    let mut starts = (Buffer::new(), Buffer::new());
    let mut ends = (Buffer::new(), Buffer::new());
    let x = starts.0.format(from.x).as_bytes();
    let y = starts.1.format(from.y).as_bytes();
    let right = ends.0.format(to.x).as_bytes();
    let down = ends.1.format(to.y).as_bytes();
    put_all(
        out,
        &[
            b"<path d=\"M",
            x,
            b" ",
            y,
            b"L",
            right,
            b" ",
            down,
            b"\" stroke=\"",
            colour(style),
            b"\"",
            dashes(style),
            b"/>\n",
        ],
    )
}

fn put_number<W: Write>(out: &mut W, at: Point, number: u128) -> Result<(), WriteFault>
    ensures { Writes (W.contents out.old) (W.contents out.new) result
        (shape_text (shape.Number at number)) }
{
    let mut buffers = (Buffer::new(), Buffer::new(), Buffer::new());
    let x = buffers.0.format(at.x).as_bytes();
    let y = buffers.1.format(at.y).as_bytes();
    let number = buffers.2.format(number).as_bytes();
    put_all(
        out,
        &[
            b"<text x=\"",
            x,
            b"\" y=\"",
            y,
            b"\">",
            number,
            b"</text>\n",
        ],
    )
}

/// Writes a shape.
fn put_shape<W: Write>(out: &mut W, shape: Shape) -> Result<(), WriteFault>
    ensures { Writes (W.contents out.old) (W.contents out.new) result (shape_text shape) }
{
    match shape {
        Shape::Box {
            style,
            at,
            width,
            height,
        } => put_box(out, style, at, width, height),
        Shape::Line { style, from, to } => put_line(out, style, from, to),
        Shape::Number { at, number } => put_number(out, at, number),
    }
}

/// Writes shapes, one after the other.
///
/// # Errors
///
/// As [`put_all`]: the writer then holds a prefix of them, but not all of it, after what it held.
pub fn put_shapes<W: Write>(out: &mut W, shapes: &[Shape]) -> Result<(), WriteFault>
    ensures { Writes (W.contents out.old) (W.contents out.new) result
        (flat_map shape_text shapes.now) }
{
    for shape in shapes {
        match put_shape(out, *shape) {
            Ok(()) => {}
            Err(fault) => return Err(fault),
        }
    }
    Ok(())
}
