//! `step` with states: the states of one ring from its words, before the first choice and after each.

ghost use Rattle.std.specs.Prelude.{◌≡◌, None, OnOk, IfErr};
ghost use Rattle.std.specs.Io.KnownBytes.{Appends};
ghost use Rattle.ring_model.specs.Ring.{ring_with};
ghost use Rattle.step_states.specs.Rows.{rows};
ghost use Rattle.tool_parts.specs.Faults.{fault_of};
ghost use Rattle.history_commands.specs.Stepped.{IsRowsRefusal, IsStepStatesAnswer, IsStepStatesRefusal};

use crate::states::told;
use run_commands::step::{choices_of, opening_of};
use std::alloc::Global;
use std::io::Write;
use step_states::write_rows;
use tool_parts::faults::ToolError;
use tool_parts::lists::read_list;
use tool_parts::requests::StepWords;

/// Lets each chosen machine of a ring ask to pass, and writes the rows of its states.
///
/// # Errors
///
/// The first fault of what it is given, as for [`opening_of`]: nothing is written then. `Write` where the writer fails, and
/// `OutOfMemory`: the bytes written until then are a prefix of the rows.
pub fn print_rows<'a, W: Write>(
    alloc: Global,
    n: u32,
    k: u32,
    states: &[u32],
    choices: &[u32],
    out: &mut W,
) -> Result<(), ToolError<'a>>
    ensures ok { OnOk result ((fault_of n k states.now choices.now ≡ None)
        × Appends (W.contents out.old) (W.contents out.new)
        (rows (ring_with k states.now) choices.now)) }
    ensures err { IfErr result (λ e. IsRowsRefusal n k states.now choices.now
        (W.contents out.old) (W.contents out.new) e) }
{
    let ring = match opening_of(alloc, n, k, states, choices) {
        Ok(ring) => ring,
        Err(fault) => return Err(fault),
    };
    told(write_rows(alloc, out, ring, choices))
}

/// `step` with states, from its words: reads the lists, the start values first, and prints a row for the state before the first choice
/// and for the one after each.
///
/// # Errors
///
/// `BadList` where a list is not well written, and those of [`print_rows`].
pub fn run<'a, W: Write>(
    alloc: Global,
    words: &StepWords<'_>,
    out: &mut W,
) -> Result<(), ToolError<'a>>
    ensures ok { OnOk result (IsStepStatesAnswer words.now (W.contents out.old) (W.contents out.new)) }
    ensures err { IfErr result
        (λ e. IsStepStatesRefusal words.now (W.contents out.old) (W.contents out.new) e) }
{
    let states = match read_list(alloc, words.states) {
        Ok(states) => states,
        Err(fault) => return Err(fault),
    };
    let choices = match choices_of(alloc, words.choices) {
        Ok(choices) => choices,
        Err(fault) => return Err(fault),
    };
    match print_rows(
        alloc,
        words.n,
        words.k,
        states.as_slice(),
        choices.as_slice(),
        out,
    ) {
        Ok(()) => Ok(()),
        Err(fault) => Err(fault),
    }
}
