//! `new` with drawn values: the saved history of rings that have no events yet.

ghost use Rattle.std.specs.Prelude.{◌≡◌, ◌≢◌, ◌≤◌, IfErr, IfOk, OnOk, length};
ghost use Rattle.saved_history.specs.Content.{content};
ghost use Rattle.saved_history.specs.Versions.{latest_version};
ghost use Rattle.setup_commands.specs.Drawn.{sizes_of, drawn_history, DrawnIsLegal, IsDrawnAnswer, IsDrawnRefusal};
ghost use Rattle.setup_commands.specs.Rings.{AreSizes, IsRingsRefusal};

use crate::rings::rings_of;
use ring_check::legal_as_defined;
use saved_history::{LATEST_VERSION, Saved, write_saved};
use std::alloc::Global;
use std::io::Write;
use tool_parts::faults::ToolError;
use tool_requests::DrawnWords;

/// Rings of sizes that are allowed have a legal history before anything happens, with drawn values too.
pub fn drawn_is_legal()
    ensures { DrawnIsLegal }
{
    legal_as_defined(); // says: a text is legal by the table if it is right in the subject's words
}

/// The history of the rings that the words give, with drawn values.
///
/// # Errors
///
/// Those of [`rings_of`].
#[tactic(auto, using(crate::proofs::LegalStarts::content_is))]
fn drawn<'a>(alloc: Global, words: &DrawnWords) -> Result<Saved, ToolError<'a>>
    ensures ok { IfOk result (λ saved. (content saved ≡ drawn_history words.now)
        × AreSizes (sizes_of words.now)) }
    ensures some { IfOk result (λ saved. 1 ≤ length saved.rings.items) }
    ensures version { IfOk result (λ saved. saved.version ≡ latest_version) }
    ensures err { IfErr result (λ e. IsRingsRefusal (sizes_of words.now) e) }
{
    let rings = match rings_of(alloc, Some(words.seed), words.rings.as_slice()) {
        Ok(rings) => rings,
        Err(fault) => return Err(fault),
    };
    let count = rings.len() as u32;
    Ok(Saved {
        version: LATEST_VERSION,
        rings,
        rings_said: count,
    })
}

/// `new` with drawn values, from its words: writes the saved text of rings of the given sizes, without events. What is written is a
/// function of the words.
///
/// # Errors
///
/// `NoRing` if there is no ring, `TotalsTooLarge` if there are too many for a saved text, `Ring` with the place of the
/// first ring whose size is not allowed and its fault, and `OutOfMemory`: nothing is written then. `Write` if the writer
/// fails: the bytes written until then are a prefix of the text.
pub fn run<'a, W: Write>(
    alloc: Global,
    words: &DrawnWords,
    out: &mut W,
) -> Result<(), ToolError<'a>>
    ensures ok { OnOk result (IsDrawnAnswer words.now (W.contents out.old) (W.contents out.new)) }
    ensures err { IfErr result
        (λ e. IsDrawnRefusal words.now (W.contents out.old) (W.contents out.new) e) }
    ensures nothing { IfErr result (λ e. e ≢ ToolError.Write → out.new ≡ out.old) }
{
    drawn_is_legal(); // says: their history is legal
    let saved = match drawn(alloc, words) {
        Ok(saved) => saved,
        Err(fault) => return Err(fault),
    };
    match write_saved(&saved, out) {
        Ok(()) => Ok(()),
        Err(_) => Err(ToolError::Write),
    }
}
