//! The parts around the rows and the curves: the title, the numbers at the axes, and the text that opens and ends each part.

ghost use Rattle.std.specs.Prelude.{◌+◌, ◌<◌, ◌≤◌, ◌^◌};
ghost use Rattle.text_lines.specs.Writing.{Writes};
ghost use Rattle.saved_history.specs.Content.{block_of};
ghost use Rattle.history_picture.specs.Picture.{title_text, axes_text, rows_opening, curves_opening, ending_text};

use crate::page::up;
use itoa::Buffer;
use ring_check::count_events;
use saved_history::SavedRing;
use std::io::Write;
use text_lines::{WriteFault, put, put_all};

/// The head and the title.
pub(crate) fn put_title<W: Write>(
    out: &mut W,
    ring: &SavedRing,
    from: usize,
    count: u32,
) -> Result<(), WriteFault>
    requires { from + count < 2 ^ 63 }
    ensures { Writes (W.contents out.old) (W.contents out.new) result
        (title_text (block_of ring.now) from count) }
{
    let tally = count_events(&ring.events);
    let mut sizes = (Buffer::new(), Buffer::new(), Buffer::new());
    let mut sums = (Buffer::new(), Buffer::new(), Buffer::new(), Buffer::new());
    let index = sizes.0.format(ring.index).as_bytes();
    let n = sizes.1.format(ring.n).as_bytes();
    let k = sizes.2.format(ring.k).as_bytes();
    let events = sums.0.format(ring.events.len()).as_bytes();
    let granted = sums.1.format(tally.granted).as_bytes();
    let corrupted = sums.2.format(tally.corrupted).as_bytes();
    let surveys = sums.3.format(ring.surveys.len()).as_bytes();
    let mut shown = (Buffer::new(), Buffer::new());
    let first = shown.0.format(from).as_bytes();
    let end = shown.1.format(from + count as usize).as_bytes();
    put_all(
        out,
        &[
            b"<svg xmlns=\"http://www.w3.org/2000/svg\" viewBox=\"0 0 1000 680\" font-family=\"sans-serif\" font-size=\"15\">\n",
            b"<rect width=\"1000\" height=\"680\" rx=\"8\" fill=\"#fff\"/>\n",
            b"<text x=\"70\" y=\"36\" font-size=\"22\">ring ",
            index,
            b": n ",
            n,
            b", K ",
            k,
            b"</text>\n<text x=\"70\" y=\"62\">events ",
            first,
            b" to ",
            end,
            b" of ",
            events,
            b", granted ",
            granted,
            b", corrupted ",
            corrupted,
            b", surveys ",
            surveys,
            b"</text>\n",
        ],
    )
}

/// The ticks and the numbers at the axes.
pub(crate) fn put_axes<W: Write>(
    out: &mut W,
    n: u32,
    from: usize,
    count: u32,
    height: u64,
) -> Result<(), WriteFault>
    requires some { 1 ≤ n }
    requires room { from + count < 2 ^ 63 }
    ensures { Writes (W.contents out.old) (W.contents out.new) result
        (axes_text n from count height) }
{
    let mut buffers = (Buffer::new(), Buffer::new(), Buffer::new(), Buffer::new());
    let last = buffers.0.format(n - 1).as_bytes();
    let first = buffers.1.format(from).as_bytes();
    let end = buffers.2.format(from + count as usize).as_bytes();
    let high = buffers.3.format(height).as_bytes();
    put_all(
        out,
        &[
            b"<path d=\"M70 380v5M295 380v5M520 380v5M745 380v5M970 380v5\" stroke=\"#555\"/>\n",
            b"<text x=\"24\" y=\"230\" text-anchor=\"middle\" transform=\"rotate(-90 24 230)\">machine</text>\n",
            b"<text x=\"62\" y=\"94\" text-anchor=\"end\">0</text>\n",
            b"<text x=\"62\" y=\"380\" text-anchor=\"end\">",
            last,
            b"</text>\n<text x=\"70\" y=\"402\">",
            first,
            b"</text>\n",
            b"<text x=\"520\" y=\"402\" text-anchor=\"middle\">granted passes and other events</text>\n",
            b"<text x=\"970\" y=\"402\" text-anchor=\"end\">",
            end,
            b"</text>\n<text x=\"62\" y=\"436\" text-anchor=\"end\">",
            high,
            b"</text>\n<text x=\"62\" y=\"590\" text-anchor=\"end\">0</text>\n",
        ],
    )
}

/// Writes the text that opens the rows.
pub(crate) fn put_rows_opening<W: Write>(out: &mut W) -> Result<(), WriteFault>
    ensures { Writes (W.contents out.old) (W.contents out.new) result rows_opening }
{
    put(
        out,
        b"<rect x=\"70\" y=\"80\" width=\"900\" height=\"300\" fill=\"#f3f3f3\"/>\n<svg x=\"70\" y=\"80\" width=\"900\" height=\"300\" viewBox=\"0 0 90000 30000\" fill=\"#15489f\" stroke=\"#15489f\" stroke-width=\"100\">\n",
    )
}

/// Writes the text that ends the marks and opens the curves.
pub(crate) fn put_curves_opening<W: Write>(
    out: &mut W,
    height: u64,
    limit: u64,
) -> Result<(), WriteFault>
    ensures { Writes (W.contents out.old) (W.contents out.new) result (curves_opening height limit) }
{
    let mut buffers = (Buffer::new(), Buffer::new());
    let far = buffers.0.format(limit).as_bytes();
    let line = buffers.1.format(up(height, limit)).as_bytes();
    put_all(
        out,
        &[
            b"\"/>\n</svg>\n<rect x=\"70\" y=\"430\" width=\"900\" height=\"160\" fill=\"#f3f3f3\"/>\n<text x=\"970\" y=\"424\" text-anchor=\"end\">bound ",
            far,
            b"</text>\n<svg x=\"70\" y=\"430\" width=\"900\" height=\"160\" viewBox=\"0 0 90000 16000\" fill=\"none\">\n<g transform=\"translate(0 16000) scale(1 -1)\">\n<path d=\"M0 ",
            line,
            b"h90000\" stroke=\"#555\" stroke-width=\"150\" stroke-dasharray=\"200 300\"/>\n<polyline stroke=\"#111\" stroke-width=\"250\" points=\"",
        ],
    )
}

/// The end of the curves, and the meaning of each colour.
pub(crate) fn put_ending<W: Write>(out: &mut W) -> Result<(), WriteFault>
    ensures { Writes (W.contents out.old) (W.contents out.new) result ending_text }
{
    put_all(
        out,
        &[
            b"\"/>\n</g>\n</svg>\n<g font-size=\"14\">\n",
            b"<rect x=\"70\" y=\"608\" width=\"16\" height=\"10\" fill=\"#15489f\"/>\n<text x=\"92\" y=\"618\">privileged</text>\n",
            b"<path d=\"M200 606v14\" stroke=\"#e69f00\" stroke-width=\"5\" stroke-linecap=\"round\"/>\n<text x=\"212\" y=\"618\">corruption</text>\n",
            b"<path d=\"M322 610v6\" stroke=\"#888\" stroke-width=\"1.5\" stroke-linecap=\"square\"/>\n<text x=\"332\" y=\"618\">refused pass</text>\n",
            b"<path d=\"M456 613h24\" stroke=\"#111\" stroke-width=\"2.5\"/>\n<text x=\"488\" y=\"618\">rest</text>\n",
            b"<path d=\"M556 613h24\" stroke=\"#0a7d4f\" stroke-width=\"1.5\" stroke-dasharray=\"5 3\"/>\n<text x=\"588\" y=\"618\">calm, cut off at the top</text>\n",
            b"<path d=\"M776 613h24\" stroke=\"#555\" stroke-width=\"1.5\" stroke-dasharray=\"2 3\"/>\n<text x=\"808\" y=\"618\">bound</text>\n",
            b"<text x=\"70\" y=\"644\">rest: at most so many granted passes are left until one machine alone is privileged</text>\n",
            b"<text x=\"70\" y=\"664\">calm: so many passes were granted since the last corruption, or since the start</text>\n",
            b"</g>\n</svg>\n",
        ],
    )
}
