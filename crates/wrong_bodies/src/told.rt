//! All bad lines of a text, broken.

ghost use Rattle.std.specs.Prelude.{◌≡◌, ◌≢◌, ◌+◌, ◌<◌, ◌≤◌, ◌^◌, ◌++◌, ◌∷◌, [], List, length, map, vec_len, IfOk};
ghost use Rattle.saved_history.specs.Content.{Block, block_of, content};
ghost use Rattle.ring_check.specs.Lines.{lines};
ghost use Rattle.bad_lines.specs.BadLines.{bad_lines};

use bad_lines::{BadLine, bad_lines};
use saved_history::Saved;
use std::alloc::{AllocError, Global};

/// All bad lines are reported: only the first one is.
pub fn tells_only_the_first_bad_line(
    alloc: Global,
    saved: &Saved,
) -> Result<Vec<BadLine>, AllocError>
    requires room { length (lines (content saved.now)) + 1 < 2 ^ 64 }
    requires several { 2 ≤ length (bad_lines (content saved.now)) }
    ensures wrong { IfOk result (λ found. found.items ≢ bad_lines (content saved.now)) }
{
    let mut found = bad_lines(alloc, saved)?;
    found.truncate(1);
    Ok(found)
}

/// Each ring is judged: the last one is skipped.
pub fn skips_the_last_ring(alloc: Global, saved: Saved) -> Result<Vec<BadLine>, AllocError>
    requires room { length (lines (content saved)) + 1 < 2 ^ 64 }
    requires some { 0 < vec_len saved.rings }
    requires bad { (front : List Block) (last : Block)
        → map block_of saved.rings.items ≡ front ++ last ∷ []
        → bad_lines (record { version = saved.version; rings = front; rings_said = saved.rings_said })
        ≢ bad_lines (content saved) }
    ensures wrong { IfOk result (λ found. found.items ≢ bad_lines (content saved)) }
{
    let mut front = saved;
    front.rings.pop();
    bad_lines(alloc, &front)
}
