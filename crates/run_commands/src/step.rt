//! `step`: a ring on one thread, from given values, by given choices.

ghost use Rattle.std.specs.Prelude.{◌≡◌, ◌≤◌, length, nat_le, position, IsSome, OnOk, OnErr, IfOk, IfErr};
ghost use Rattle.std.specs.Option.{option_map};
ghost use Rattle.std.specs.Io.KnownBytes.{Appends};
ghost use Rattle.ring_model.specs.Ring.{ring_with};
ghost use Rattle.ring_book.specs.BookView.{IsFresh};
ghost use Rattle.ring_model.specs.Limits.{event_limit};
ghost use Rattle.run_commands.specs.Stepped.{AreChoices, IsChoicesRefusal, IsStepAnswer, IsStepWordsRefusal};
ghost use Rattle.tool_parts.specs.Faults.{size_fault, start_fault, fault_of, IsRefusalOver, IsOpeningRefusal, IsStepRefusal};
ghost use Rattle.run_commands.specs.StepText.{granted_line, refused_line, reply_line, end_lines, step_text};
ghost use Rattle.tool_parts.specs.Written.{AppendsFront};
ghost use Rattle.text_lines.specs.Spelling.{list_text};
ghost use Rattle.text_lines.specs.Writing.{Writes};

use itoa::Buffer;
use ring_book::{Book, Idle, Reply};
use ring_state::{Params, RingState};
use std::alloc::Global;
use std::io::Write;
use text_lines::{WriteFault, put, put_all, put_list};
use tool_parts::faults::ToolError;
use tool_parts::lists::read_list;
use tool_parts::requests::StepWords;

/// The line of a granted pass: the machine, and the number of the grant.
fn put_granted<W: Write>(out: &mut W, machine: u32, number: u64) -> Result<(), WriteFault>
    ensures { Writes (W.contents out.old) (W.contents out.new) result
        (granted_line machine number) }
{
    let mut machine_digits = Buffer::new();
    let mut digits = Buffer::new();
    put_all(
        out,
        &[
            machine_digits.format(machine).as_bytes(),
            b" granted ",
            digits.format(number).as_bytes(),
            b"\n",
        ],
    )
}

/// The line of a pass that found no privilege.
fn put_refused<W: Write>(out: &mut W, machine: u32) -> Result<(), WriteFault>
    ensures { Writes (W.contents out.old) (W.contents out.new) result (refused_line machine) }
{
    let mut digits = Buffer::new();
    put_all(
        out,
        &[digits.format(machine).as_bytes(), b" not privileged\n"],
    )
}

/// The line of one pass: the machine, and what the ring answered it.
fn put_reply<W: Write>(out: &mut W, machine: u32, reply: Reply) -> Result<(), WriteFault>
    ensures { Writes (W.contents out.old) (W.contents out.new) result (reply_line machine reply) }
{
    match reply {
        Reply::Granted { number, .. } => put_granted(out, machine, number),
        Reply::NotPrivileged | Reply::Corrupted { .. } => put_refused(out, machine),
    }
}

/// The values of the ring, with a comma between each two.
fn put_values<W: Write>(out: &mut W, state: &RingState) -> Result<(), WriteFault>
    ensures { Writes (W.contents out.old) (W.contents out.new) result (list_text state.now.values) }
{
    let n = state.params().n();
    put_list(out, n, |machine| state.get(machine) as u64)
}

/// The two lines of the last state.
fn put_end<W: Write>(out: &mut W, state: &RingState) -> Result<(), WriteFault>
    ensures { Writes (W.contents out.old) (W.contents out.new) result (end_lines state.now.values) }
{
    put(out, b"states ")?;
    put_values(out, state)?;
    let mut count = Buffer::new();
    let mut first = Buffer::new();
    put_all(
        out,
        &[
            b"\nprivileged ",
            count.format(state.privileged()).as_bytes(),
            b" first ",
            first.format(state.first()).as_bytes(),
            b"\n",
        ],
    )
}

/// The ring's size, where it is allowed.
fn params_of<'a>(n: u32, k: u32) -> Result<Params, ToolError<'a>>
    ensures ok { IfOk result (λ p. (p ≡ record { n = n; k = k }) × (size_fault n k ≡ None)) }
    ensures err { IfErr result (λ e. size_fault n k ≡ Some e) }
{
    Ok(Params::new(n, k)?)
}

/// The ring, where its size and its start values are allowed.
fn state_of<'a>(alloc: Global, n: u32, k: u32, states: &[u32]) -> Result<RingState, ToolError<'a>>
    ensures ok { IfOk result (λ r. (r ≡ ring_with k states.now)
        × (length states.now ≡ n) × (start_fault n k states.now ≡ None)) }
    ensures err { IfErr result (λ e. IsRefusalOver (start_fault n k states.now) e) }
{
    let params = params_of(n, k)?;
    Ok(RingState::from_values(alloc, &params, states)?)
}

/// The index of the first choice that is not a machine of a ring of `n`.
fn first_beyond(n: u32, choices: &[u32]) -> Option<usize>
    ensures { result ≡ position (λ choice. nat_le n choice) choices.now }
{
    choices.iter().position(|choice| *choice >= n)
}

/// Returns the ring before any choice, where all that `step` was given is allowed.
///
/// # Errors
///
/// The first that applies: a size that is not allowed, start values of another number than n, the first start value that is not below
/// `k`, the first choice that is not below `n`. `OutOfMemory` comes where memory is asked for.
pub fn opening_of<'a>(
    alloc: Global,
    n: u32,
    k: u32,
    states: &[u32],
    choices: &[u32],
) -> Result<RingState, ToolError<'a>>
    ensures ok { IfOk result (λ r. (r ≡ ring_with k states.now)
        × (length states.now ≡ n) × (fault_of n k states.now choices.now ≡ None)) }
    ensures start { IfOk result (λ r. start_fault n k states.now ≡ None) }
    ensures err { IfErr result (λ e. IsOpeningRefusal n k states.now choices.now e) }
{
    let state = state_of(alloc, n, k, states)?;
    if let Some(index) = first_beyond(n, choices) {
        return Err(ToolError::Choice(index));
    }
    Ok(state)
}

/// The ring with no events yet, where all that `step` was given is allowed.
fn book_of<'a>(
    alloc: Global,
    n: u32,
    k: u32,
    states: &[u32],
    choices: &[u32],
) -> Result<Book<Idle>, ToolError<'a>>
    ensures ok { IfOk result (λ b. IsFresh (ring_with k states.now) (record {}) b
        × (length states.now ≡ n) × (fault_of n k states.now choices.now ≡ None)) }
    ensures err { IfErr result (λ e. IsOpeningRefusal n k states.now choices.now e) }
{
    let state = match opening_of(alloc, n, k, states, choices) {
        Ok(state) => state,
        Err(fault) => return Err(fault),
    };
    match Book::new(alloc, state, Idle) {
        Ok(book) => Ok(book),
        Err(_) => Err(ToolError::OutOfMemory),
    }
}

/// Lets each chosen machine of a ring ask to pass, with order 0, and writes the reply to each and
/// then the last state.
///
/// # Errors
///
/// The first that applies: a size that is not allowed (2 machines or more, n values or more, and neither
/// past its limit), start values of another number than n, the first start value that is not below `k`,
/// the first choice that is not below `n`. Nothing is written then. `OutOfMemory` comes where memory is asked for;
/// `HistoryFull` comes where there are more than `EVENT_LIMIT` choices, and `Write` where the writer
/// fails: the bytes written until then are a prefix of the lines.
pub fn step_lines<'a, W: Write>(
    alloc: Global,
    n: u32,
    k: u32,
    states: &[u32],
    choices: &[u32],
    out: &mut W,
) -> Result<(), ToolError<'a>>
    // The output: all of the text, or a prefix of it, or nothing where there is a fault.
    ensures written { OnOk result (Appends (W.contents out.old) (W.contents out.new)
        (step_text (ring_with k states.now) choices.now)) }
    ensures front { OnErr result (AppendsFront (W.contents out.old) (W.contents out.new)
        (step_text (ring_with k states.now) choices.now)) }
    ensures nothing { IsSome (fault_of n k states.now choices.now) → out.new ≡ out.old }

    // The answer.
    ensures ok { OnOk result
        ((fault_of n k states.now choices.now ≡ None) × (length choices.now ≤ event_limit)) }
    ensures err { IfErr result (λ e. IsStepRefusal n k states.now choices.now e) }
{
    let mut book = book_of(alloc, n, k, states, choices)?;
    for choice in choices {
        let receipt = book.pass(0, *choice, 0)?;
        put_reply(out, *choice, receipt.event.reply)?;
    }
    put_end(out, book.state())?;
    Ok(())
}

/// Returns the numbers of a list that may be left out.
///
/// # Errors
///
/// `BadList` where it is not well written, and `OutOfMemory`.
pub fn choices_of<'a>(alloc: Global, word: Option<&str>) -> Result<Vec<u32>, ToolError<'a>>
    ensures ok { IfOk result
        (λ choices. AreChoices (option_map (λ word. word.now) word.entry) choices.items) }
    ensures err { IfErr result
        (λ e. IsChoicesRefusal (option_map (λ word. word.now) word.entry) e) }
{
    match word {
        Some(text) => read_list(alloc, text),
        None => Ok(Vec::new(alloc)),
    }
}

/// `step`, from its words: reads the lists, the start values first.
///
/// # Errors
///
/// `BadList` where a list is not well written, and those of [`step_lines`].
pub fn run<'a, W: Write>(
    alloc: Global,
    words: &StepWords<'_>,
    out: &mut W,
) -> Result<(), ToolError<'a>>
    ensures ok { OnOk result (IsStepAnswer words.now (W.contents out.old) (W.contents out.new)) }
    ensures err { IfErr result
        (λ e. IsStepWordsRefusal words.now (W.contents out.old) (W.contents out.new) e) }
{
    let states = read_list(alloc, words.states)?;
    let choices = choices_of(alloc, words.choices)?;
    match step_lines(
        alloc,
        words.n,
        words.k,
        states.as_slice(),
        choices.as_slice(),
        out,
    ) {
        Ok(()) => Ok(()),
        Err(fault) => Err(fault),
    }
}
