//! A service with what is kept of keys: what has a number is answered once.

ghost use Rattle.std.specs.Prelude.{◌≡◌, ◌++◌, ◌≤◌, [], false, length, codes, OnOk, OnErr};
ghost use Rattle.line_replica.specs.Keys.{line_to_asker};
ghost use Rattle.line_replica.specs.Reading.{did_at};
ghost use Rattle.line_replica.specs.Replies.{IsDone, IsAnsweredOnce, IsTagTaken, IsTriedInside, past_line, turn_of};
ghost use Rattle.line_service.specs.Stands.{IsAnsweredInto, LeavesFiles};

use crate::keys::{Keys, Turn, first_line};
use crate::reading::{Tag, did, is_forget, is_to_asker, kept_text};
use disks::Disk;
use line_service::{AnswersLines, Pending};
use std::alloc::AllocError;
use text_lines::{Line, put_word};

/// A service that answers lines, with the last number of each key and the first line of its answer, which is sent again.
#[derive(Drop)]
pub struct Numbered<S> {
    pub(crate) inner: S,
    pub(crate) keys: Keys,
}

/// The first line of the answer to an input, if it is for the client that asked, and else none: an answer to another client may be out
/// of date when it is sent again.
fn line_to_asker<'a>(input: &[u8], said: &'a [u8]) -> &'a [u8]
    ensures { result.now ≡ line_to_asker input.now said.now }
{
    if is_to_asker(input, said) {
        return first_line(said);
    }
    &[]
}

/// Adds the line that the last number of a key is above the one that was sent.
fn tell_past(key: u64, last: u64, text: &mut Vec<u8>) -> Result<(), AllocError>
    ensures { OnOk result (text.new.items ≡ text.old.items ++ past_line key last) }
{
    let mut line = Line::new();
    line.byte(b'\n');
    line.number(last);
    put_word(&mut line, b"refused past ");
    line.byte(b' ');
    line.number(key);
    text.extend_from_slice(line.as_bytes())
}

/// The service inside answers a line whose number is new, and the first line of its answer is kept, if it is for the client that asked.
fn answer_fresh<S: AnswersLines, D: Disk>(
    numbered: &mut Numbered<S>,
    disk: &mut D,
    tag: Tag,
    input: &[u8],
    pending: &mut Pending,
) -> Result<(), AllocError>
    requires { S.is_over numbered.old.inner ≡ false }
    ensures ok { OnOk result (IsAnsweredInto (IsDone S.is_answered tag) input.now numbered.old
        (D.holds disk.old) numbered.new (D.holds disk.new) pending.old pending.new) }
    ensures err { OnErr result (IsTriedInside S.is_answered D.holds numbered.old.inner disk.old
        input.now numbered.new.inner disk.new) }
    ensures unchanged { LeavesFiles S.changes_files D.leaves numbered.old.inner disk.old
        numbered.new.inner disk.new }
{
    let place = pending.answers.len();
    match numbered.inner.answer(disk, input, pending) {
        Ok(()) => {}
        Err(AllocError) => return Err(AllocError),
    }
    let first = line_to_asker(input, &pending.answers[place..]);
    numbered.keys.keep(tag, first, &mut pending.notes)
}

/// Answers what has a number: the service inside does, once.
fn answer_once<S: AnswersLines, D: Disk>(
    numbered: &mut Numbered<S>,
    disk: &mut D,
    tag: Tag,
    input: &[u8],
    pending: &mut Pending,
) -> Result<(), AllocError>
    requires { S.is_over numbered.old.inner ≡ false }
    ensures ok { OnOk result (IsAnsweredInto
        (IsAnsweredOnce S.is_answered (turn_of numbered.old.keys tag) tag) input.now numbered.old
        (D.holds disk.old) numbered.new (D.holds disk.new) pending.old pending.new) }
    ensures err { OnErr result (IsTriedInside S.is_answered D.holds numbered.old.inner disk.old
        input.now numbered.new.inner disk.new) }
    ensures unchanged { LeavesFiles S.changes_files D.leaves numbered.old.inner disk.old
        numbered.new.inner disk.new }
{
    match numbered.keys.turn(tag) {
        Turn::Fresh => answer_fresh(numbered, disk, tag, input, pending),
        Turn::Again => numbered.keys.tell_again(tag.key, &mut pending.answers),
        Turn::Past { last } => tell_past(tag.key, last, &mut pending.answers),
    }
}

/// Answers a line by what follows its key and its number.
pub(crate) fn answer_tagged<S: AnswersLines, D: Disk>(
    numbered: &mut Numbered<S>,
    disk: &mut D,
    tag: Tag,
    rest: &[u8],
    pending: &mut Pending,
) -> Result<(), AllocError>
    requires { S.is_over numbered.old.inner ≡ false }
    ensures ok { OnOk result (IsAnsweredInto (IsTagTaken S.is_answered (did_at rest.now) tag)
        rest.now numbered.old (D.holds disk.old) numbered.new (D.holds disk.new) pending.old
        pending.new) }
    ensures err { OnErr result (IsTriedInside S.is_answered D.holds numbered.old.inner disk.old
        rest.now numbered.new.inner disk.new) }
    ensures unchanged { LeavesFiles S.changes_files D.leaves numbered.old.inner disk.old
        numbered.new.inner disk.new }
{
    if let Some(text) = did(rest) {
        return numbered.keys.keep(tag, kept_text(text), &mut pending.notes);
    }
    if is_forget(rest) {
        return numbered.keys.forget(tag, &mut pending.notes);
    }
    answer_once(numbered, disk, tag, rest, pending)
}
