//! The picture of more sizes: how the numbers grow with n.

ghost use Rattle.std.specs.Prelude.{◌≡◌, ◌≤◌, ◌^◌, ◌+◌, ◌-◌, ◌++◌, OnOk, IfOk, length};
ghost use Rattle.std.specs.List.{flat_map};
ghost use Rattle.repair_picture.specs.Growth.{halvings, level, place, value, points, point_at, dot, curve, curve_of, styles, growth_shapes};
ghost use Rattle.repair_picture.specs.Spread.{shapes_below};
ghost use Rattle.repair_picture.specs.declared.shapes.Shape.TheVariants as shape;

use crate::shapes::{Point, Shape, Style};
use repair_texts::{Figures, Row};
use std::alloc::{AllocError, Global};

/// How often a number can be halved until it is below 2.
fn halvings(number: u64) -> u32
    ensures is { result ≡ halvings 64 number }
    ensures most { result ≤ 64 }
{
    let mut left = number;
    for turn in 0..64 {
        if left < 2 {
            return turn;
        }
        left /= 2;
    }
    64
}

/// How high a number is where each doubling is 64 steps.
fn level(number: u64) -> u128
    ensures is { result ≡ level number }
    ensures most { result ≤ 2 ^ 80 }
{
    let number = number.max(1);
    let doublings = halvings(number);
    (64 * doublings as u128 + 64 * number as u128 / (1u128 << doublings)).saturating_sub(64)
}

/// Where a number of n machines is.
fn place(n: u32, number: u64) -> Point
    ensures { result ≡ place n number }
{
    Point {
        x: 900 + 7_700 * level(n as u64).saturating_sub(64) / 576,
        y: 5_700u128.saturating_sub(5_000 * level(number) / 1_312),
    }
}

/// The number that a curve shows.
fn value(style: Style, figures: &Figures) -> u64
    ensures { result ≡ value style figures.now }
{
    match style {
        Style::Spread => figures.trials,
        Style::Greatest => figures.greatest,
        Style::NinetyNine => figures.p99,
        Style::Ninety => figures.p90,
        Style::Median => figures.median,
        Style::Least => figures.least,
        Style::Longest => figures.longest,
        Style::Bound => figures.bound,
    }
}

/// The points of a curve.
fn points(alloc: Global, style: Style, rows: &[Row<'_>]) -> Result<Vec<Point>, AllocError>
    ensures { IfOk result (λ ps. ps.items ≡ points style rows.now) }
{
    let mut points = Vec::new(alloc);
    for row in rows {
        points.push(place(row.head.n, value(style, &row.figures)))?;
    }
    Ok(points)
}

/// A mark at a point.
fn dot(style: Style, point: Point) -> Shape
    ensures { result ≡ dot style point }
{
    Shape::Box {
        style,
        at: Point {
            x: point.x.saturating_sub(25),
            y: point.y.saturating_sub(25),
        },
        width: 50,
        height: 50,
    }
}

/// Adds a mark at each point.
fn add_dots(shapes: &mut Vec<Shape>, style: Style, points: &[Point]) -> Result<(), AllocError>
    ensures { OnOk result (shapes.new.items ≡ shapes.old.items
        ++ shapes_below (λ i. dot style (point_at points.now i)) (length points.now)) }
{
    for place in 0..points.len() {
        shapes.push(dot(style, points[place]))?;
    }
    Ok(())
}

/// Adds a line from each point to the next.
fn add_lines(shapes: &mut Vec<Shape>, style: Style, points: &[Point]) -> Result<(), AllocError>
    ensures { OnOk result (shapes.new.items ≡ shapes.old.items
        ++ shapes_below (λ i. shape.Line style (point_at points.now i) (point_at points.now (i + 1)))
        (length points.now - 1)) }
{
    for place in 0..points.len().saturating_sub(1) {
        shapes.push(Shape::Line {
            style,
            from: points[place],
            to: points[place + 1],
        })?;
    }
    Ok(())
}

/// Adds a curve.
fn add_curve(
    alloc: Global,
    shapes: &mut Vec<Shape>,
    style: Style,
    rows: &[Row<'_>],
) -> Result<(), AllocError>
    ensures { OnOk result (shapes.new.items ≡ shapes.old.items ++ curve rows.now style) }
{
    let points = points(alloc, style, rows)?;
    add_dots(shapes, style, points.as_slice())?;
    add_lines(shapes, style, points.as_slice())
}

/// What is shown.
const STYLES: [Style; 7] = [
    Style::Bound,
    Style::Longest,
    Style::Greatest,
    Style::NinetyNine,
    Style::Ninety,
    Style::Median,
    Style::Least,
];

/// The shapes of the picture of more sizes: a curve of each number.
///
/// # Errors
///
/// Only if memory runs out.
pub fn growth_shapes(alloc: Global, rows: &[Row<'_>]) -> Result<Vec<Shape>, AllocError>
    ensures { IfOk result (λ shapes. shapes.items ≡ growth_shapes rows.now) }
{
    let mut shapes = Vec::new(alloc);
    for place in 0..STYLES.len() {
        add_curve(alloc, &mut shapes, STYLES[place], rows)?;
    }
    Ok(shapes)
}
