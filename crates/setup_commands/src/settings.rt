//! `settings`: the text of the settings that words give.

ghost use Rattle.std.specs.Prelude.{◌≡◌, ◌≢◌, IfOk, IfErr, OnOk, Ok, MatchOption, length};
ghost use Rattle.ring_settings.specs.Seats.{settings_of};
ghost use Rattle.setup_commands.specs.Settings.{settings_text, settings_given, AreSettingsWords, AreWorkers, AreActions, IsSeatFault, IsWordsRefusal, IsSettingsAnswer, IsSettingsRefusal};

use crate::rings::rings_of;
use crate::texts::text_of;
use ring_settings::Field;
use ring_settings::limits::{ACTION_LIMIT, RING_LIMIT, WORKER_LIMIT};
use std::alloc::{AllocError, Global};
use std::io::Write;
use text_lines::put;
use tool_parts::faults::ToolError;
use tool_requests::SettingsWords;

/// What of the seats is out of limits, if something is: the number of workers before that of actions.
fn seat_fault(words: &SettingsWords) -> Option<Field>
    ensures { MatchOption result (AreWorkers words.now.workers × AreActions words.now)
        (IsSeatFault words.now) }
{
    if words.workers == 0 || words.workers as usize > WORKER_LIMIT {
        return Some(Field::Workers);
    }
    if words.actions > ACTION_LIMIT || words.injector.unwrap_or(0) > ACTION_LIMIT {
        return Some(Field::Actions);
    }
    None
}

/// The text of the settings that the words give.
///
/// # Errors
///
/// `NoRing` if there is no size, `Limit` with what is out of limits, `Ring` with the place of the first size that is not allowed and
/// its fault, and `OutOfMemory`.
#[tactic(auto, using(crate::proofs::Refused::few_sizes, crate::proofs::Refused::many_sizes, crate::proofs::Refused::rings_refused, crate::proofs::Refused::limits_refused, crate::proofs::Refused::are_rings))]
fn text_of_words<'a>(alloc: Global, words: &SettingsWords) -> Result<Vec<u8>, ToolError<'a>>
    ensures ok { IfOk result (λ text. AreSettingsWords words.now
        × (text.items ≡ settings_text words.now)
        × (settings_of (settings_text words.now) ≡ Ok (settings_given words.now))) }
    ensures err { IfErr result (λ e. IsWordsRefusal words.now e) }
{
    if words.rings.len() > RING_LIMIT {
        return Err(ToolError::Limit(Field::Rings));
    }
    let rings = match rings_of(alloc, words.drawn, words.rings.as_slice()) {
        Ok(rings) => rings,
        Err(fault) => return Err(fault),
    };
    if let Some(field) = seat_fault(words) {
        return Err(ToolError::Limit(field));
    }
    match text_of(alloc, words, rings.as_slice()) {
        Ok(text) => Ok(text),
        Err(AllocError) => Err(ToolError::OutOfMemory),
    }
}

/// `settings`, from its words: prints the text of the settings that they give, which reads back as these.
///
/// # Errors
///
/// `NoRing` if there is no ring, `Limit` with the first of rings, workers and actions that is out of limits, `Ring` with the
/// place of the first ring whose size is not allowed and its fault, and `OutOfMemory`: nothing is written then. `Write` if the writer
/// fails: the bytes written until then are a prefix of the text.
pub fn run<'a, W: Write>(
    alloc: Global,
    words: &SettingsWords,
    out: &mut W,
) -> Result<(), ToolError<'a>>
    ensures ok { OnOk result
        (IsSettingsAnswer words.now (W.contents out.old) (W.contents out.new)) }
    ensures err { IfErr result
        (λ e. IsSettingsRefusal words.now (W.contents out.old) (W.contents out.new) e) }
    ensures nothing { IfErr result (λ e. e ≢ ToolError.Write → out.new ≡ out.old) }
{
    let text = match text_of_words(alloc, words) {
        Ok(text) => text,
        Err(fault) => return Err(fault),
    };
    match put(out, text.as_slice()) {
        Ok(()) => Ok(()),
        Err(_) => Err(ToolError::Write),
    }
}
