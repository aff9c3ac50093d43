//! The beginning of a file, and whether it shows that the folder has a pool.

ghost use Rattle.std.specs.Prelude.{◌≡◌, ◌&&◌, nat_lt, IfOk};
ghost use Rattle.journal.specs.Recovery.{has_line_end};
ghost use Rattle.judged_files.specs.Lines.{is_named, is_block, has_named, block_count, shows_pool};
ghost use Rattle.judged_files.specs.Beginnings.{beginning};

use crate::lines::{is_block, is_done, is_named, is_whole};
use segment_files::split_line;
use std::alloc::{AllocError, Global};

/// A copy of the lines up to the one that ends the blocks of the rings.
pub(crate) fn beginning(alloc: Global, bytes: &[u8]) -> Result<Vec<u8>, AllocError>
    ensures { IfOk result (λ begun. begun.items ≡ beginning bytes.now) }
{
    let mut begun = Vec::new(alloc);
    let mut rest = bytes;
    while !rest.is_empty() {
        let (line, after) = split_line(rest);
        begun.extend_from_slice(line)?;
        if is_done(line) {
            return Ok(begun);
        }
        rest = after;
    }
    Ok(begun)
}

/// Whether a line is whole, and begins as a remark about names.
fn is_whole_remark(line: &[u8]) -> bool
    ensures { result ≡ (has_line_end line.now && is_named line.now) }
{
    is_whole(line) && is_named(line)
}

/// Whether one of the lines begins as a remark about names.
fn has_named(bytes: &[u8]) -> bool
    ensures { result ≡ has_named bytes.now }
{
    let mut rest = bytes;
    while !rest.is_empty() {
        let (line, after) = split_line(rest);
        if is_whole_remark(line) {
            return true;
        }
        rest = after;
    }
    false
}

/// Whether a line is whole, and begins the block of a ring.
fn is_whole_block(line: &[u8]) -> bool
    ensures { result ≡ (has_line_end line.now && is_block line.now) }
{
    is_whole(line) && is_block(line)
}

/// Whether there are more rings than this.
fn has_more_rings(bytes: &[u8], count: usize) -> bool
    ensures { result ≡ nat_lt count (block_count bytes.now) }
{
    let mut rest = bytes;
    let mut left = count;
    while !rest.is_empty() {
        let (line, after) = split_line(rest);
        rest = after;
        if !is_whole_block(line) {
            continue;
        }
        if left == 0 {
            return true;
        }
        left -= 1;
    }
    false
}

/// Whether a file shows that the folder has a pool, after this number of fixed locks.
pub(crate) fn shows_pool(bytes: &[u8], fixed: usize) -> bool
    ensures { result ≡ shows_pool fixed bytes.now }
{
    has_named(bytes) || has_more_rings(bytes, fixed)
}
