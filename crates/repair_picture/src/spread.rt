//! The picture of one size: how often each number occurred.

ghost use Rattle.std.specs.Prelude.{◌≡◌, ◌<◌, ◌≤◌, ◌+◌, ◌*◌, ◌^◌, ◌++◌, OnOk, IfOk, slice_index};
ghost use Rattle.repair_picture.specs.Shapes.{point};
ghost use Rattle.repair_picture.specs.Spread.{shapes_below, spread, counted_in, bar_width, bar_count, bar_trials, most_trials, bar_left, tall, bar_of, bar, along, mark, marks_of, spread_shapes};

use crate::shapes::{Point, Shape, Style};
use repair_texts::Figures;
use std::alloc::{AllocError, Global};

/// How many trials had a number.
fn count_of(counts: &[u64], number: u128) -> u64
    ensures is { result ≡ slice_index counts.now number }
    ensures few { result < 2 ^ 64 }
{
    if number < counts.len() as u128 {
        counts[number as usize]
    } else {
        0
    }
}

/// How many trials had one of `many` numbers, from one on.
fn counted_in(counts: &[u64], from: u128, many: u64) -> u128
    requires { from < 2 ^ 80 }
    ensures is { result ≡ counted_in counts.now from many }
    ensures most { result < 2 ^ 64 * (many + 1) }
{
    let mut sum = 0;
    for place in 0..many {
        sum += count_of(counts, from + place as u128) as u128;
    }
    sum
}

/// How far it is from the least number to the greatest.
fn spread(figures: &Figures) -> u64
    ensures is { result ≡ spread figures.now }
    ensures few { result < 2 ^ 32 }
{
    figures
        .greatest
        .min(u32::MAX as u64)
        .saturating_sub(figures.least)
}

/// How many numbers each bar has.
fn bar_width(figures: &Figures) -> u64
    ensures is { result ≡ bar_width figures.now }
    ensures some { 0 < result }
    ensures few { result < 2 ^ 32 }
{
    spread(figures) / 100 + 1
}

/// How many bars there are, at most 100.
fn bar_count(figures: &Figures) -> u64
    ensures is { result ≡ bar_count figures.now }
    ensures most { result ≤ 100 }
{
    spread(figures) / bar_width(figures) + 1
}

/// How many trials a bar has.
fn bar_trials(counts: &[u64], figures: &Figures, place: u64) -> u128
    requires { place < 100 }
    ensures is { result ≡ bar_trials counts.now figures.now place }
    ensures most { result < 2 ^ 110 }
{
    let width = bar_width(figures);
    let from = figures.least as u128 + place as u128 * width as u128;
    counted_in(counts, from, width)
}

/// The most trials of a bar.
fn most_trials(counts: &[u64], figures: &Figures, count: u64) -> u128
    requires { count ≤ 100 }
    ensures { result ≡ most_trials counts.now figures.now count }
{
    let mut most = 0;
    for place in 0..count {
        most = bar_trials(counts, figures, place).max(most);
    }
    most
}

/// Where a bar begins.
fn bar_left(count: u64, place: u64) -> u128
    requires { 0 < count }
    ensures { result ≡ bar_left count place }
{
    700 + 9_000 * place as u128 / count as u128
}

/// A bar.
fn bar_of(count: u64, most: u128, place: u64, trials: u128) -> Shape
    requires count { 0 < count }
    requires place { place < 100 }
    requires trials { trials < 2 ^ 110 }
    ensures { result ≡ bar_of count most place trials }
{
    let tall = 3_200 * trials / most.max(1);
    let left = bar_left(count, place);
    Shape::Box {
        style: Style::Spread,
        at: Point {
            x: left,
            y: 4_100u128.saturating_sub(tall),
        },
        width: bar_left(count, place + 1).saturating_sub(left),
        height: tall,
    }
}

/// Adds the bars.
fn add_bars(
    shapes: &mut Vec<Shape>,
    counts: &[u64],
    figures: &Figures,
    count: u64,
    most: u128,
) -> Result<(), AllocError>
    requires count { count ≤ 100 }
    requires bars { count ≡ bar_count figures.now }
    requires most { most ≡ most_trials counts.now figures.now count }
    ensures { OnOk result (shapes.new.items
        ≡ shapes.old.items ++ shapes_below (bar counts.now figures.now) count) }
{
    for place in 0..count {
        let trials = bar_trials(counts, figures, place);
        shapes.push(bar_of(count, most, place, trials))?;
    }
    Ok(())
}

/// Where a number is on the line from 0 to the bound.
fn along(figures: &Figures, number: u64) -> u128
    ensures { result ≡ along figures.now number }
{
    700 + 9_000 * number as u128 / (figures.bound as u128).max(1)
}

/// A mark on that line.
fn mark(style: Style, figures: &Figures, number: u64) -> Shape
    ensures { result ≡ mark style figures.now number }
{
    let x = along(figures, number);
    Shape::Line {
        style,
        from: Point { x, y: 4_550 },
        to: Point { x, y: 4_950 },
    }
}

/// The numbers at the bars, and what is on the line from 0 to the bound.
fn marks_of(most: u128, figures: &Figures) -> [Shape; 9]
    ensures { result ≡ marks_of most figures.now }
{
    let first = along(figures, figures.least);
    let last = along(figures, figures.greatest);
    [
        Shape::Number {
            at: Point { x: 1_000, y: 4_270 },
            number: figures.least as u128,
        },
        Shape::Number {
            at: Point { x: 9_700, y: 4_270 },
            number: figures.greatest as u128,
        },
        Shape::Number {
            at: Point { x: 9_700, y: 860 },
            number: bar_width(figures) as u128,
        },
        Shape::Number {
            at: Point { x: 680, y: 1_000 },
            number: most,
        },
        Shape::Box {
            style: Style::Spread,
            at: Point { x: first, y: 4_600 },
            width: last.saturating_sub(first).max(20),
            height: 300,
        },
        mark(Style::Median, figures, figures.median),
        mark(Style::Longest, figures, figures.longest),
        mark(Style::Bound, figures, figures.bound),
        Shape::Number {
            at: Point { x: 9_700, y: 5_090 },
            number: figures.bound as u128,
        },
    ]
}

/// The shapes of the picture of one size: bars of how many trials had each number, and where these are on a line from 0 to the
/// bound.
///
/// # Errors
///
/// Only if memory runs out.
pub fn spread_shapes(
    alloc: Global,
    counts: &[u64],
    figures: &Figures,
) -> Result<Vec<Shape>, AllocError>
    ensures { IfOk result (λ shapes. shapes.items ≡ spread_shapes counts.now figures.now) }
{
    let count = bar_count(figures);
    let most = most_trials(counts, figures, count);
    let mut shapes = Vec::new(alloc);
    add_bars(&mut shapes, counts, figures, count, most)?;
    shapes.extend_from_slice(&marks_of(most, figures))?;
    Ok(shapes)
}
