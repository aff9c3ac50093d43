//! All bad lines of a text.

ghost use Rattle.std.specs.Prelude.{◌≡◌, ◌+◌, ◌<◌, ◌^◌, ◌++◌, ◌==◌, cond, length, map, None, Some, IfOk};
ghost use Rattle.std.specs.List.{flat_map};
ghost use Rattle.saved_history.specs.Content.{content, block_of};
ghost use Rattle.ring_check.specs.Lines.{lines, block_lines};
ghost use Rattle.ring_check.specs.Table.{nothing};
ghost use Rattle.ring_check.specs.declared.answers.Kind.TheVariants as kind;
ghost use Rattle.bad_lines.specs.BadLines.{bad_of, bad_among, bad_lines, known};

use crate::blocks::add_block;
use crate::wrongs::{Bad, BadLine, Wrong, tell};
use ring_check::Kind;
use saved_history::{Saved, SavedRing};
use std::alloc::{AllocError, Global};

/// Adds the bad lines of all blocks, and answers how many lines there are so far.
fn add_blocks(
    alloc: Global,
    version: u32,
    rings: &[SavedRing],
    out: &mut Vec<BadLine>,
) -> Result<u64, AllocError>
    requires room { length (flat_map block_lines (map block_of rings.now)) + 2 < 2 ^ 64 }
    ensures told { IfOk result (λ line. out.new.items
        ≡ out.old.items
        ++ bad_among (known (nothing version)) (flat_map block_lines (map block_of rings.now))) }
    ensures lines { IfOk result
        (λ line. line ≡ length (flat_map block_lines (map block_of rings.now)) + 1) }
{
    let mut line: u64 = 1;
    for (i, ring) in rings.iter().enumerate() {
        add_block(alloc, version, ring, i, line, out)?;
        line += 3 + ring.events.len() as u64 + ring.surveys.len() as u64;
    }
    Ok(line)
}

/// The fault of the last line, which says how many blocks there are.
fn done_fault(said: u32, rings: usize) -> Option<Bad>
    ensures { result
        ≡ bad_of (cond (said == rings) None (Some (kind.Count))) (Wrong.Number said rings) }
{
    if said as usize == rings {
        return None;
    }
    Some(Bad {
        kind: Kind::Count,
        wrong: Wrong::Number {
            there: said as u64,
            should: rings as u64,
        },
    })
}

/// Returns all bad lines of a saved text, in their order: none if the text is legal ([`none_is_legal`](crate::none_is_legal)), and
/// else as the first one the line and the kind that `check_saved` answers ([`first_is_first`](crate::first_is_first)).
///
/// Each line is judged by the table of `ring_check`, after the lines before it, where the ring has continued with its own reply. After
/// a bad ring line, or a call that none of its machines can make, nothing is judged up to the next block. A survey is compared
/// in its order with the last one that was in its place.
///
/// It takes time in proportion to the length of the text, except for the surveys: each ring is replayed for them at most ten times more,
/// and each survey costs a few passes over the machines.
///
/// # Errors
///
/// Only if memory runs out.
pub fn bad_lines(alloc: Global, saved: &Saved) -> Result<Vec<BadLine>, AllocError>
    requires { length (lines (content saved.now)) + 1 < 2 ^ 64 }
    ensures { IfOk result (λ found. found.items ≡ bad_lines (content saved.now)) }
{
    let mut out = Vec::new(alloc);
    let line = add_blocks(alloc, saved.version, &saved.rings, &mut out)?;
    tell(
        &mut out,
        line,
        done_fault(saved.rings_said, saved.rings.len()),
    )?;
    Ok(out)
}
