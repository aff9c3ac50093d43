//! The remarks of a file: lines that begin with `#`, and that no ring sees.

ghost use Rattle.std.specs.Prelude.{◌≡◌, ◌<◌, ◌^◌, ◌∷◌, ◌++◌, length, OnOk, IfOk};
ghost use Rattle.std.specs.List.{list_any};
ghost use Rattle.segment_files.specs.Remarks.{lines_in, is_remark, without_remarks, remark_of, line_among};

use std::alloc::{AllocError, Global};

/// Adds the remark of a line, which has its LF.
pub fn put_remark(line: &[u8], text: &mut Vec<u8>) -> Result<(), AllocError>
    ensures { OnOk result (text.new.items ≡ text.old.items ++ remark_of line.now) }
{
    match text.extend_from_slice(b"# ") {
        Ok(()) => text.extend_from_slice(line),
        Err(AllocError) => Err(AllocError),
    }
}

/// Whether a line is a remark.
pub fn is_remark(line: &[u8]) -> bool
    ensures { result ≡ is_remark line.now }
{
    match line {
        [] => false,
        [b, ..] => *b == b'#',
    }
}

/// The first line, with its LF if it has one, and the bytes after it.
pub fn split_line(bytes: &[u8]) -> (&[u8], &[u8])
    requires { 0 < length bytes.now }
    ensures lines { lines_in bytes.now ≡ result.0.now ∷ lines_in result.1.now }
    ensures split { bytes.now ≡ result.0.now ++ result.1.now }
    ensures some { 0 < length result.0.now }
{
    for (i, byte) in bytes.iter().enumerate() {
        if *byte == b'\n' {
            return bytes.split_at(i + 1);
        }
    }
    bytes.split_at(bytes.len())
}

/// Whether a text has a remark. One that has none is all kept by [`without_remarks`].
pub fn has_remark(text: &[u8]) -> bool
    ensures { result ≡ list_any is_remark (lines_in text.now) }
{
    let mut rest = text;
    while !rest.is_empty() {
        let (line, after) = split_line(rest);
        if is_remark(line) {
            return true;
        }
        rest = after;
    }
    false
}

/// A copy of a text without its remarks.
pub fn without_remarks(alloc: Global, text: &[u8]) -> Result<Vec<u8>, AllocError>
    ensures { IfOk result (λ kept. kept.items ≡ without_remarks text.now) }
{
    let mut kept = Vec::new(alloc);
    let mut rest = text;
    while !rest.is_empty() {
        let (line, after) = split_line(rest);
        if !is_remark(line) {
            kept.extend_from_slice(line)?;
        }
        rest = after;
    }
    Ok(kept)
}

/// The number, from 1, among all lines of a text, of the n-th one that is not a remark.
pub fn line_among(text: &[u8], n: u64) -> u64
    requires { line_among (lines_in text.now) n < 2 ^ 64 }
    ensures { result ≡ line_among (lines_in text.now) n }
{
    let mut line: u64 = 0;
    let mut left = n;
    let mut rest = text;
    while left > 0 && !rest.is_empty() {
        let (one, after) = split_line(rest);
        line += 1;
        if !is_remark(one) {
            left -= 1;
        }
        rest = after;
    }
    line + left
}
