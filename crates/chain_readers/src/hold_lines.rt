//! The lines of holds.

ghost use Rattle.std.specs.Prelude.{◌≡◌, ◌++◌};
ghost use Rattle.text_lines.specs.Writing.{Writes};
ghost use Rattle.chain_readers.specs.HoldLines.{grant_text, ending, end_text, is_asked, is_label_asked, is_chosen};

use crate::holds::{End, Grant, Hold};
use itoa::Buffer;
use std::io::Write;
use text_lines::{WriteFault, put_all};

/// Which holds are wanted.
#[derive(Clone, Copy)]
pub struct Choice {
    /// Those of the lock of this number only.
    pub lock: Option<u64>,
    /// Those with this label only.
    pub label: Option<u64>,
}

/// Writes how a hold began.
fn put_grant<W: Write>(out: &mut W, grant: Option<Grant>) -> Result<(), WriteFault>
    ensures { Writes (W.contents out.old) (W.contents out.new) result (grant_text grant) }
{
    let Some(grant) = grant else {
        return put_all(out, &[b" label - from -"]);
    };
    let mut buffers = (Buffer::new(), Buffer::new());
    let label = buffers.0.format(grant.label).as_bytes();
    let from = buffers.1.format(grant.from).as_bytes();
    put_all(out, &[b" label ", label, b" from ", from])
}

/// How a hold ended.
fn ending(left: bool) -> &'static [u8]
    ensures { result.now ≡ ending left }
{
    if left { b" left\n" } else { b" released\n" }
}

/// Writes how a hold ended.
fn put_end<W: Write>(out: &mut W, end: Option<End>) -> Result<(), WriteFault>
    ensures { Writes (W.contents out.old) (W.contents out.new) result (end_text end) }
{
    let Some(end) = end else {
        return put_all(out, &[b" to - open\n"]);
    };
    let mut buffer = Buffer::new();
    let to = buffer.format(end.to).as_bytes();
    put_all(out, &[b" to ", to, ending(end.left)])
}

/// Writes the line of a hold after its first words, which say the lock and the token: its label, and where it began and ended.
///
/// # Errors
///
/// As [`put_all`]: the writer then holds a prefix of this, but not all of it, after what it held.
#[tactic(auto, using(text_lines::proofs::Writing::writes_then, text_lines::proofs::Writing::writes_err))]
pub fn put_rest<W: Write>(out: &mut W, hold: &Hold) -> Result<(), WriteFault>
    ensures { Writes (W.contents out.old) (W.contents out.new) result
        (grant_text hold.now.grant ++ end_text hold.now.end) }
{
    match put_grant(out, hold.grant) {
        Ok(()) => put_end(out, hold.end),
        Err(fault) => Err(fault),
    }
}

/// Whether the label of a grant is the one that is asked for.
fn is_label_asked(wanted: Option<u64>, grant: Option<Grant>) -> bool
    ensures { result ≡ is_label_asked wanted grant }
{
    match (wanted, grant) {
        (None, _) => true,
        (Some(_), None) => false,
        (Some(wanted), Some(grant)) => wanted == grant.label,
    }
}

/// Whether a number is the one that is asked for.
fn is_asked(wanted: Option<u64>, number: u64) -> bool
    ensures { result ≡ is_asked wanted number }
{
    match wanted {
        None => true,
        Some(wanted) => wanted == number,
    }
}

/// Whether a hold of the lock of this number is wanted.
pub fn is_chosen(choice: Choice, lock: u64, hold: &Hold) -> bool
    ensures { result ≡ is_chosen choice lock hold.now }
{
    is_asked(choice.lock, lock) && is_label_asked(choice.label, hold.grant)
}
