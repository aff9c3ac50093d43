//! The shapes of the pictures, computed by hand from their definitions, and the pages around them.

use repair_picture::{Point, Shape, Style, growth_shapes, put_growth, put_spread, spread_shapes};
use repair_texts::{Figures, Head, Row};

const FIGURES: Figures = Figures {
    trials: 4,
    bound: 9,
    longest: 5,
    least: 0,
    mean: 125,
    median: 1,
    p90: 3,
    p99: 3,
    p999: 3,
    greatest: 3,
};

const fn point(x: u128, y: u128) -> Point {
    Point { x, y }
}

const fn bar(at: Point, width: u128, height: u128) -> Shape {
    Shape::Box {
        style: Style::Spread,
        at,
        width,
        height,
    }
}

const fn line(style: Style, from: Point, to: Point) -> Shape {
    Shape::Line { style, from, to }
}

const fn number(at: Point, number: u128) -> Shape {
    Shape::Number { at, number }
}

#[test]
fn each_number_has_a_bar_as_high_as_it_has_trials(rt: HostRuntime) {
    let shapes = spread_shapes(rt.alloc(), &[1, 2, 0, 1], &FIGURES).expect(&rt, "memory");
    let wanted = [
        bar(point(700, 2_500), 2_250, 1_600),
        bar(point(2_950, 900), 2_250, 3_200),
        bar(point(5_200, 4_100), 2_250, 0),
        bar(point(7_450, 2_500), 2_250, 1_600),
        number(point(1_000, 4_270), 0),
        number(point(9_700, 4_270), 3),
        number(point(9_700, 860), 1),
        number(point(680, 1_000), 2),
        bar(point(700, 4_600), 3_000, 300),
        line(Style::Median, point(1_700, 4_550), point(1_700, 4_950)),
        line(Style::Longest, point(5_700, 4_550), point(5_700, 4_950)),
        line(Style::Bound, point(9_700, 4_550), point(9_700, 4_950)),
        number(point(9_700, 5_090), 9),
    ];
    assert!(rt; shapes.as_slice() == wanted.as_slice());
}

/// The row of a size with these figures.
fn row_of(n: u32, figures: Figures) -> Row<'static> {
    let head = Head {
        measure: "repairs",
        n,
        k: n,
        daemon: "last",
        start: "faults",
        faults: Some(2),
    };
    Row { head, figures }
}

#[test]
fn each_curve_has_a_mark_for_each_size(rt: HostRuntime) {
    let rows = [
        row_of(
            4,
            Figures {
                bound: 18,
                ..FIGURES
            },
        ),
        row_of(
            8,
            Figures {
                bound: 84,
                ..FIGURES
            },
        ),
    ];
    let shapes = growth_shapes(rt.alloc(), &rows).expect(&rt, "memory");
    let wanted = [
        Shape::Box {
            style: Style::Bound,
            at: point(1_730, 4_669),
            width: 50,
            height: 50,
        },
        Shape::Box {
            style: Style::Bound,
            at: point(2_586, 4_136),
            width: 50,
            height: 50,
        },
        line(Style::Bound, point(1_755, 4_694), point(2_611, 4_161)),
    ];
    assert!(rt; shapes.len() == 21);
    assert!(rt; &shapes.as_slice()[..3] == wanted.as_slice());
}

#[test]
fn pages_have_their_shapes(rt: HostRuntime) {
    let row = row_of(3, FIGURES);
    let shapes = [number(point(1, 2), 3)];
    let text: &[u8] = b"<text x=\"1\" y=\"2\">3</text>\n</g>\n";
    let mut spread = Vec::new(rt.alloc());
    assert!(rt; put_spread(&mut spread, &row, &shapes).is_ok());
    let mut growth = Vec::new(rt.alloc());
    assert!(rt; put_growth(&mut growth, &[row], &shapes).is_ok());
    for page in [spread.as_slice(), growth.as_slice()] {
        let mut found = false;
        for piece in page.windows(text.len()) {
            found = found || piece == text;
        }
        assert!(rt; found && page.starts_with(b"<svg") && page.ends_with(b"</svg>\n"));
    }
}
