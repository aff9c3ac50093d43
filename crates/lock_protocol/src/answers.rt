//! The answers, as lines.

ghost use Rattle.std.specs.Prelude.{◌≡◌, ◌≤◌, ◌+◌, ◌++◌, ◌∷◌, [], List, ℕ, length, OnOk, OnErr};
ghost use Rattle.std.specs.Fmt.{decimal};
ghost use Rattle.text_lines.specs.Spelling.{spaced, ended};
ghost use Rattle.held_locks.specs.declared.answers.Answer.TheVariants as answer;
ghost use Rattle.lock_protocol.specs.Names.{name_spaced, name_ended};
ghost use Rattle.lock_protocol.specs.Answers.{refusal_text, holder_text, answer_text, answer_line, denial_text, denial_line, names_line};

use held_locks::{Answer, Holder, Refusal, Stats};
use std::alloc::AllocError;
use text_lines::{Line, put_word};

/// Why an input is refused before a lock is asked.
#[derive(Clone, Copy, Debug, PartialEq, Eq)]
pub enum Denial {
    /// The line is spelled as no input is, or has more than 8 KiB.
    Syntax,
    /// A number of it is 2 to the power 64 or more.
    Number,
    /// It is a fault, and none is permitted.
    Off,
}

/// Puts the number's decimal before a line. Most clients have a number of one digit.
#[inline(always)]
fn put_decimal(line: &mut Line, number: u64)
    requires { length line.old ≤ 108 }
    ensures is { line.new ≡ decimal number ++ line.old }
    ensures short { length line.new ≤ length line.old + 20 }
{
    if number < 10 {
        line.byte(b'0' + number as u8);
    } else {
        line.number(number);
    }
}

/// The line of these words, for a client.
fn words(client: u64, text: &[u8]) -> Line
    requires { length text.now ≤ 64 }
    ensures { result ≡ spaced client ++ text.now }
{
    let mut line = Line::new();
    put_word(&mut line, text);
    line.byte(b' ');
    line.number(client);
    line
}

/// The end of a line: the holder of a lock.
fn holder_end(holder: Option<Holder>) -> Line
    ensures is { result ≡ holder_text holder }
    ensures short { length result ≤ 42 }
{
    let mut line = Line::new();
    line.byte(b'\n');
    match holder {
        None => {
            line.byte(b'0');
            line.byte(b' ');
            line.byte(b'0');
        }
        Some(holder) => {
            line.number(holder.token);
            line.byte(b' ');
            line.number(holder.client);
        }
    }
    line
}

/// The end of a line, after the name: all that there is to say of a lock.
fn stats_end(stats: Stats) -> Line
    ensures { result ≡ 32 ∷ (spaced stats.machines
        ++ (spaced stats.waiters ++ (spaced stats.passes ++ holder_text stats.holder))) }
{
    let mut line = holder_end(stats.holder);
    line.byte(b' ');
    line.number(stats.passes);
    line.byte(b' ');
    line.number(stats.waiters);
    line.byte(b' ');
    line.number(stats.machines as u64);
    line.byte(b' ');
    line
}

/// The end of a line, after the name: a number.
#[inline(always)]
fn number_end(number: u64) -> Line
    ensures { result ≡ 32 ∷ ended number }
{
    let mut line = Line::new();
    line.byte(b'\n');
    line.number(number);
    line.byte(b' ');
    line
}

/// Adds a line to a text.
#[inline(always)]
fn put(text: &mut Vec<u8>, line: &Line) -> Result<(), AllocError>
    ensures ok { OnOk result (text.new.items ≡ text.old.items ++ line.now) }
    ensures err { OnErr result (text.new.items ≡ text.old.items) }
{
    text.extend_from_slice(line.as_bytes())
}

/// Adds the number's decimal to a text.
#[inline(always)]
fn put_number(text: &mut Vec<u8>, number: u64) -> Result<(), AllocError>
    ensures ok { OnOk result (text.new.items ≡ text.old.items ++ decimal number) }
    ensures err { OnErr result (text.new.items ≡ text.old.items) }
{
    let mut line = Line::new();
    put_decimal(&mut line, number);
    put(text, &line)
}

/// Adds the parts of a line: the client, a word between spaces, a name, and what comes after it. The text may have some of them
/// if memory is short.
#[inline(always)]
fn put_parts(
    text: &mut Vec<u8>,
    client: u64,
    word: &[u8],
    name: &[u8],
    end: &[u8],
) -> Result<(), AllocError>
    ensures ok { OnOk result (text.new.items
        ≡ text.old.items ++ (decimal client ++ (word.now ++ (name.now ++ end.now)))) }
    ensures err { OnErr result ((more : List ℕ) × (text.new.items ≡ text.old.items ++ more)) }
{
    put_number(text, client)?;
    text.extend_from_slice(word)?;
    text.extend_from_slice(name)?;
    text.extend_from_slice(end)
}

/// Adds the line of a word, a name and what comes after it, for a client.
#[inline(always)]
fn put_named(
    text: &mut Vec<u8>,
    client: u64,
    word: &[u8],
    name: &[u8],
    end: &[u8],
) -> Result<(), AllocError>
    ensures ok { OnOk result (text.new.items
        ≡ text.old.items ++ (decimal client ++ (word.now ++ (name.now ++ end.now)))) }
    ensures err { OnErr result (text.new.items ≡ text.old.items) }
{
    let before = text.len();
    match put_parts(text, client, word, name, end) {
        Ok(()) => Ok(()),
        Err(error) => {
            text.truncate(before);
            Err(error)
        }
    }
}

/// Adds the line of a word and a lock, for a client.
#[inline(always)]
fn put_of_lock(text: &mut Vec<u8>, client: u64, word: &[u8], name: &[u8]) -> Result<(), AllocError>
    ensures ok { OnOk result (text.new.items
        ≡ text.old.items ++ (decimal client ++ (word.now ++ name_ended name.now))) }
    ensures err { OnErr result (text.new.items ≡ text.old.items) }
{
    put_named(text, client, word, name, b"\n")
}

/// Adds the line of a word, a lock and a number, for a client.
#[inline(always)]
fn put_of_number(
    text: &mut Vec<u8>,
    client: u64,
    word: &[u8],
    name: &[u8],
    number: u64,
) -> Result<(), AllocError>
    ensures ok { OnOk result (text.new.items ≡ text.old.items
        ++ (decimal client ++ (word.now ++ (name_spaced name.now ++ ended number)))) }
    ensures err { OnErr result (text.new.items ≡ text.old.items) }
{
    put_named(text, client, word, name, number_end(number).as_bytes())
}

/// Adds the line of a refusal, of which this is the word.
fn put_refused(text: &mut Vec<u8>, client: u64, word: &[u8], name: &[u8]) -> Result<(), AllocError>
    ensures ok { OnOk result (text.new.items
        ≡ text.old.items ++ (decimal client ++ (word.now ++ name_ended name.now))) }
    ensures err { OnErr result (text.new.items ≡ text.old.items) }
{
    put_of_lock(text, client, word, name)
}

/// Adds the line of a refusal.
fn put_refusal(text: &mut Vec<u8>, client: u64, name: &[u8], why: Refusal) -> Result<(), AllocError>
    ensures ok { OnOk result
        (text.new.items ≡ text.old.items ++ (spaced client ++ refusal_text name.now why)) }
    ensures err { OnErr result (text.new.items ≡ text.old.items) }
{
    match why {
        Refusal::Lock => put_refused(text, client, b" refused lock ", name),
        Refusal::Holds => put_refused(text, client, b" refused holds ", name),
        Refusal::Waits => put_refused(text, client, b" refused waits ", name),
        Refusal::Circle => put_refused(text, client, b" refused circle ", name),
        Refusal::Holder => put_refused(text, client, b" refused holder ", name),
        Refusal::Waiter => put_refused(text, client, b" refused waiter ", name),
        Refusal::Machine => put_refused(text, client, b" refused machine ", name),
        Refusal::Value => put_refused(text, client, b" refused value ", name),
        Refusal::Full => put_refused(text, client, b" refused full ", name),
        Refusal::Memory => put_refused(text, client, b" refused memory ", name),
    }
}

/// Adds the line that says all of a lock.
fn put_stats(text: &mut Vec<u8>, client: u64, name: &[u8], stats: Stats) -> Result<(), AllocError>
    ensures ok { OnOk result (text.new.items
        ≡ text.old.items ++ answer_line client name.now (answer.Stats stats)) }
    ensures err { OnErr result (text.new.items ≡ text.old.items) }
{
    put_named(text, client, b" stats ", name, stats_end(stats).as_bytes())
}

/// Adds the line of an answer to a client about the lock of this name.
///
/// # Errors
///
/// Only out of memory. The text is as it was then.
pub fn put_answer(
    text: &mut Vec<u8>,
    client: u64,
    name: &[u8],
    answer: Answer,
) -> Result<(), AllocError>
    ensures ok { OnOk result
        (text.new.items ≡ text.old.items ++ answer_line client name.now answer) }
    ensures err { OnErr result (text.new.items ≡ text.old.items) }
{
    match answer {
        Answer::Granted(token) => put_of_number(text, client, b" granted ", name, token),
        Answer::Waiting(before) => put_of_number(text, client, b" waiting ", name, before),
        Answer::Busy => put_of_lock(text, client, b" busy ", name),
        Answer::Released => put_of_lock(text, client, b" released ", name),
        Answer::Cancelled => put_of_lock(text, client, b" cancelled ", name),
        Answer::Corrupted(old) => put_of_number(text, client, b" corrupted ", name, old as u64),
        Answer::Stats(stats) => put_stats(text, client, name, stats),
        Answer::Refused(why) => put_refusal(text, client, name, why),
    }
}

/// Adds the line of a client whose input no lock is asked.
///
/// # Errors
///
/// Only out of memory. The text is as it was then.
pub fn put_denial(text: &mut Vec<u8>, client: u64, why: Denial) -> Result<(), AllocError>
    ensures ok { OnOk result (text.new.items ≡ text.old.items ++ denial_line client why) }
    ensures err { OnErr result (text.new.items ≡ text.old.items) }
{
    match why {
        Denial::Syntax => put(text, &words(client, b"refused syntax\n")),
        Denial::Number => put(text, &words(client, b"refused number\n")),
        Denial::Off => put(text, &words(client, b"refused off\n")),
    }
}

/// Adds the line of a client whose ask of a name is refused, since as many names are held as may be.
///
/// # Errors
///
/// Only out of memory. The text is as it was then.
pub fn put_names(text: &mut Vec<u8>, client: u64, name: &[u8]) -> Result<(), AllocError>
    ensures ok { OnOk result (text.new.items ≡ text.old.items ++ names_line client name.now) }
    ensures err { OnErr result (text.new.items ≡ text.old.items) }
{
    put_refused(text, client, b" refused names ", name)
}
