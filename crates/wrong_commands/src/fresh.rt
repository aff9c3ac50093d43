//! The history that `new` prints, broken.

ghost use Rattle.std.specs.Prelude.{◌≡◌, ◌≢◌, ◌≤◌, IsSome, IfOk, IfSome, length, true};
ghost use Rattle.std.specs.List.{All};
ghost use Rattle.ring_model.specs.Ring.{is_settled};
ghost use Rattle.tool_parts.specs.declared.requests.NewWords.{NewWords};
ghost use Rattle.saved_history.specs.Content.{Block, content};
ghost use Rattle.saved_history.specs.Versions.{latest_version};
ghost use Rattle.run_commands.specs.New.{IsNewAnswer};

use ring_text::WriteFault;
use run_commands::fresh;
use saved_history::put_lines::put_first_line;
use saved_history::{LATEST_VERSION, Saved, write_saved};
use std::alloc::Global;
use std::io::Write;
use tool_parts::faults::ToolError;
use tool_parts::requests::NewWords;

/// Each ring of the printed history is settled: one is printed in which not every ring is.
pub fn history_that_is_not_settled<W: Write>(saved: &Saved, out: &mut W) -> Result<(), WriteFault>
    requires some { 1 ≤ length saved.now.rings.items }
    requires latest { saved.now.version ≡ latest_version }
    requires known { IsSome (W.contents out.old) }
    requires unsettled { All (λ (b : Block). is_settled b.start ≡ true) (content saved.now).rings
        → ⊥ }
    ensures wrong { IfOk result (λ _. (words : NewWords)
        → IsNewAnswer words (W.contents out.old) (W.contents out.new) → ⊥) }
{
    write_saved(saved, out)?;
    Ok(())
}

/// Nothing is printed before all sizes are allowed: the first line is.
pub fn history_that_is_begun_too_early<W: Write>(
    alloc: Global,
    words: &NewWords,
    out: &mut W,
) -> Option<ToolError<'static>>
    requires known { IsSome (W.contents out.old) }
    ensures wrong { IfSome result (λ e. e ≢ ToolError.Write → out.new ≡ out.old → ⊥) }
{
    let Ok(()) = put_first_line(out, LATEST_VERSION) else {
        return None;
    };
    match fresh::run(alloc, words, out) {
        Ok(()) | Err(ToolError::Write) => None,
        Err(fault) => Some(fault),
    }
}
