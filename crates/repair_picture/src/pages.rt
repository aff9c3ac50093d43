//! The pages of the pictures.

ghost use Rattle.std.specs.Prelude.{◌++◌, codes};
ghost use Rattle.std.specs.List.{flat_map};
ghost use Rattle.text_lines.specs.Writing.{Writes};
ghost use Rattle.repair_texts.specs.Lines.{start_text, figures_text};
ghost use Rattle.repair_picture.specs.Shapes.{shape_text};
ghost use Rattle.repair_picture.specs.Pages.{spread_opening, spread_frame, spread_ending, growth_opening, growth_frame, growth_ending, study_text, first_study, spread_page, growth_page};

use crate::shapes::{Shape, put_shapes};
use itoa::Buffer;
use repair_texts::{Row, put_figures};
use std::io::Write;
use text_lines::{WriteFault, put, put_all};

/// Shapes, and the end of the page after them.
#[tactic(auto, using(text_lines::proofs::Writing::writes_then, text_lines::proofs::Writing::writes_err))]
fn put_rest<W: Write>(out: &mut W, shapes: &[Shape], ending: &[u8]) -> Result<(), WriteFault>
    ensures { Writes (W.contents out.old) (W.contents out.new) result
        (flat_map shape_text shapes.now ++ ending.now) }
{
    match put_shapes(out, shapes) {
        Ok(()) => put(out, ending),
        Err(fault) => Err(fault),
    }
}

/// A page from its frame on.
#[tactic(auto, using(text_lines::proofs::Writing::writes_then, text_lines::proofs::Writing::writes_err))]
fn put_framed<W: Write>(
    out: &mut W,
    frame: &[u8],
    shapes: &[Shape],
    ending: &[u8],
) -> Result<(), WriteFault>
    ensures { Writes (W.contents out.old) (W.contents out.new) result
        (frame.now ++ (flat_map shape_text shapes.now ++ ending.now)) }
{
    match put(out, frame) {
        Ok(()) => put_rest(out, shapes, ending),
        Err(fault) => Err(fault),
    }
}

/// The page of one size from its figures on.
#[tactic(auto, using(text_lines::proofs::Writing::writes_then, text_lines::proofs::Writing::writes_err))]
fn put_spread_body<W: Write>(out: &mut W, row: &Row<'_>, shapes: &[Shape]) -> Result<(), WriteFault>
    ensures { Writes (W.contents out.old) (W.contents out.new) result
        (figures_text row.now.head row.now.figures
        ++ (spread_frame ++ (flat_map shape_text shapes.now ++ spread_ending))) }
{
    match put_figures(out, &row.head, &row.figures) {
        Ok(()) => put_framed(
            out,
            b"</text>\n<path d=\"M700 900V4100H9700M700 4750H9700M700 4650V4850\" fill=\"none\" stroke=\"#555\" stroke-width=\"15\"/>\n<g text-anchor=\"end\">\n<text x=\"9100\" y=\"860\">passes in a bar:</text>\n<text x=\"680\" y=\"4100\">0</text>\n<text x=\"680\" y=\"4800\">0</text>\n<g stroke-width=\"30\">\n",
            shapes,
            b"</g>\n</g>\n<text x=\"5200\" y=\"4270\" text-anchor=\"middle\">granted passes</text>\n<text x=\"700\" y=\"5090\">the same trials, from 0 to the bound that is proved:</text>\n<path d=\"M700 5350H1100\" stroke=\"#111\" stroke-width=\"30\"/>\n<text x=\"1180\" y=\"5400\">median</text>\n<path d=\"M2400 5350H2800\" stroke=\"#6a3d9a\" stroke-width=\"30\" stroke-dasharray=\"120 60\"/>\n<text x=\"2880\" y=\"5400\">proved: none is longer</text>\n<path d=\"M5200 5350H5600\" stroke=\"#555\" stroke-width=\"30\" stroke-dasharray=\"30 50\"/>\n<text x=\"5680\" y=\"5400\">proved: bound</text>\n</svg>\n",
        ),
        Err(fault) => Err(fault),
    }
}

/// Writes the picture of one size.
///
/// # Errors
///
/// As [`put_shapes`].
#[tactic(auto, using(text_lines::proofs::Writing::writes_then, text_lines::proofs::Writing::writes_err))]
pub fn put_spread<W: Write>(out: &mut W, row: &Row<'_>, shapes: &[Shape]) -> Result<(), WriteFault>
    ensures { Writes (W.contents out.old) (W.contents out.new) result
        (spread_page row.now shapes.now) }
{
    match put(
        out,
        b"<svg xmlns=\"http://www.w3.org/2000/svg\" viewBox=\"0 0 10000 5600\" font-family=\"sans-serif\" font-size=\"150\">\n<rect width=\"10000\" height=\"5600\" fill=\"#fff\"/>\n<text x=\"700\" y=\"380\" font-size=\"220\">granted passes until settled: how many trials took how many</text>\n<text x=\"700\" y=\"640\" font-size=\"112\">",
    ) {
        Ok(()) => put_spread_body(out, row, shapes),
        Err(fault) => Err(fault),
    }
}

/// Writes which machines move.
fn put_daemon<W: Write>(out: &mut W, daemon: &str) -> Result<(), WriteFault>
    ensures { Writes (W.contents out.old) (W.contents out.new) result
        (codes "daemon " ++ (daemon.now ++ codes " from ")) }
{
    put_all(out, &[b"daemon ", daemon.as_bytes(), b" from "])
}

/// Writes where trials start.
fn put_start<W: Write>(out: &mut W, start: &str, faults: Option<u32>) -> Result<(), WriteFault>
    ensures { Writes (W.contents out.old) (W.contents out.new) result (start_text start.now faults) }
{
    let Some(faults) = faults else {
        return put(out, start.as_bytes());
    };
    let mut buffer = Buffer::new();
    put_all(
        out,
        &[start.as_bytes(), b":", buffer.format(faults).as_bytes()],
    )
}

/// Writes which machines move, and where trials start.
#[tactic(auto, using(text_lines::proofs::Writing::writes_then, text_lines::proofs::Writing::writes_err))]
fn put_study<W: Write>(out: &mut W, row: &Row<'_>) -> Result<(), WriteFault>
    ensures { Writes (W.contents out.old) (W.contents out.new) result (study_text row.now) }
{
    match put_daemon(out, row.head.daemon) {
        Ok(()) => put_start(out, row.head.start, row.head.faults),
        Err(fault) => Err(fault),
    }
}

/// Writes that of the first row, if there is one.
fn put_first_study<W: Write>(out: &mut W, rows: &[Row<'_>]) -> Result<(), WriteFault>
    ensures { Writes (W.contents out.old) (W.contents out.new) result (first_study rows.now) }
{
    match rows {
        [] => put(out, b""),
        [row, ..] => put_study(out, row),
    }
}

/// The page of more sizes from the words about its study on.
#[tactic(auto, using(text_lines::proofs::Writing::writes_then, text_lines::proofs::Writing::writes_err))]
fn put_growth_body<W: Write>(
    out: &mut W,
    rows: &[Row<'_>],
    shapes: &[Shape],
) -> Result<(), WriteFault>
    ensures { Writes (W.contents out.old) (W.contents out.new) result
        (first_study rows.now
        ++ (growth_frame ++ (flat_map shape_text shapes.now ++ growth_ending))) }
{
    match put_first_study(out, rows) {
        Ok(()) => put_framed(
            out,
            b"</text>\n<g stroke=\"#ddd\" stroke-width=\"12\">\n<path d=\"M900 5700H8600M900 4908H8600M900 4100H8600M900 3273H8600M900 2476H8600M900 1672H8600M900 845H8600\"/>\n<path d=\"M900 700V5700M1755 700V5700M2611 700V5700M3466 700V5700M4322 700V5700M5177 700V5700M6033 700V5700M6888 700V5700M7744 700V5700M8600 700V5700\"/>\n</g>\n<g text-anchor=\"end\">\n<text x=\"840\" y=\"5750\">1</text>\n<text x=\"840\" y=\"4958\">10</text>\n<text x=\"840\" y=\"4150\">100</text>\n<text x=\"840\" y=\"3323\">1000</text>\n<text x=\"840\" y=\"2526\">10000</text>\n<text x=\"840\" y=\"1722\">100000</text>\n<text x=\"840\" y=\"895\">1000000</text>\n</g>\n<g text-anchor=\"middle\">\n<text x=\"900\" y=\"5920\">2</text>\n<text x=\"1755\" y=\"5920\">4</text>\n<text x=\"2611\" y=\"5920\">8</text>\n<text x=\"3466\" y=\"5920\">16</text>\n<text x=\"4322\" y=\"5920\">32</text>\n<text x=\"5177\" y=\"5920\">64</text>\n<text x=\"6033\" y=\"5920\">128</text>\n<text x=\"6888\" y=\"5920\">256</text>\n<text x=\"7744\" y=\"5920\">512</text>\n<text x=\"8600\" y=\"5920\">1024</text>\n<text x=\"4750\" y=\"6200\">machines</text>\n</g>\n<g stroke-width=\"30\">\n",
            shapes,
            b"</g>\n<path d=\"M8680 1000h260\" stroke=\"#555\" stroke-width=\"30\" stroke-dasharray=\"30 50\"/>\n<text x=\"8980\" y=\"1050\">bound</text>\n<path d=\"M8680 1300h260\" stroke=\"#6a3d9a\" stroke-width=\"30\" stroke-dasharray=\"120 60\"/>\n<text x=\"8980\" y=\"1350\">none longer</text>\n<path d=\"M8680 1600h260\" stroke=\"#b3261e\" stroke-width=\"30\"/>\n<text x=\"8980\" y=\"1650\">greatest</text>\n<path d=\"M8680 1900h260\" stroke=\"#d55e00\" stroke-width=\"30\"/>\n<text x=\"8980\" y=\"1950\">99 in 100</text>\n<path d=\"M8680 2200h260\" stroke=\"#e69f00\" stroke-width=\"30\"/>\n<text x=\"8980\" y=\"2250\">90 in 100</text>\n<path d=\"M8680 2500h260\" stroke=\"#111\" stroke-width=\"30\"/>\n<text x=\"8980\" y=\"2550\">median</text>\n<path d=\"M8680 2800h260\" stroke=\"#0a7d4f\" stroke-width=\"30\"/>\n<text x=\"8980\" y=\"2850\">least</text>\n</svg>\n",
        ),
        Err(fault) => Err(fault),
    }
}

/// Writes the picture of more sizes.
///
/// # Errors
///
/// As [`put_shapes`].
#[tactic(auto, using(text_lines::proofs::Writing::writes_then, text_lines::proofs::Writing::writes_err))]
pub fn put_growth<W: Write>(
    out: &mut W,
    rows: &[Row<'_>],
    shapes: &[Shape],
) -> Result<(), WriteFault>
    ensures { Writes (W.contents out.old) (W.contents out.new) result
        (growth_page rows.now shapes.now) }
{
    match put(
        out,
        b"<svg xmlns=\"http://www.w3.org/2000/svg\" viewBox=\"0 0 10000 6400\" font-family=\"sans-serif\" font-size=\"150\">\n<rect width=\"10000\" height=\"6400\" fill=\"#fff\"/>\n<text x=\"900\" y=\"380\" font-size=\"220\">granted passes until settled, by the number of machines</text>\n<text x=\"900\" y=\"600\">",
    ) {
        Ok(()) => put_growth_body(out, rows, shapes),
        Err(fault) => Err(fault),
    }
}
