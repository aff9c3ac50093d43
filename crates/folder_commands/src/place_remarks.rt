//! The last place in a log that the remarks of a file give.

ghost use Rattle.std.specs.Prelude.{◌≡◌, ◌<◌, ◌^◌, length, take, cond, IfSome};
ghost use Rattle.segment_files.specs.Chain.{line_in};
ghost use Rattle.segment_files.specs.Remarks.{lines_in, line_among};
ghost use Rattle.tool_parts.specs.LastPlace.{tells_place, last_place, kept_lines};

use journal::RecoverError;
use segment_files::{line_among, split_line};

/// Whether a line is a whole remark of a place.
fn tells_place(line: &[u8]) -> bool
    ensures { result ≡ tells_place line.now }
{
    line.starts_with(b"# at ") && line.ends_with(b"\n")
}

/// A line if it is such a remark, or else what was found before it.
fn place_or<'a>(found: &'a [u8], line: &'a [u8]) -> &'a [u8]
    ensures { result.now ≡ cond (tells_place line.now) line.now found.now }
{
    if tells_place(line) { line } else { found }
}

/// The last such remark among the first `many` lines of a text; nothing if there is none.
fn place_among(text: &[u8], many: u64) -> &[u8]
    ensures { result.now ≡ last_place (take many (lines_in text.now)) }
{
    let mut found: &[u8] = &[];
    let mut rest = text;
    for _ in 0..many {
        if rest.is_empty() {
            break;
        }
        let (line, after) = split_line(rest);
        found = place_or(found, line);
        rest = after;
    }
    found
}

/// The line that a refusal names, 0 if it names none.
fn line_in(fault: RecoverError) -> u64
    ensures { result ≡ line_in fault }
{
    match fault {
        RecoverError::Syntax(line) => line,
        RecoverError::Bad { line, .. } => line,
        RecoverError::Truncated => 0,
        RecoverError::OutOfMemory => 0,
    }
}

/// The last remark of a place before the line that a refusal names, where remarks have no number; nothing if there is none.
pub(crate) fn last_place(text: &[u8], bad: Option<RecoverError>) -> &[u8]
    requires { IfSome bad (λ e. line_among (lines_in text.now) (line_in e) < 2 ^ 64) }
    ensures { result.now ≡ last_place (kept_lines (lines_in text.now) bad) }
{
    match bad {
        Some(fault) => place_among(text, line_among(text, line_in(fault)).saturating_sub(1)),
        None => place_among(text, text.len() as u64),
    }
}
