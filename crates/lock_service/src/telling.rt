//! The lines that clients get of an answer.

ghost use Rattle.std.specs.Prelude.{◌≡◌, ◌++◌, OnOk};
ghost use Rattle.held_locks.specs.Kept.{own_answer, other_grant, answers_of};
ghost use Rattle.lock_journal.specs.Noting.{lines_about, lines_of_left};

use held_locks::{Answer, Answers, Holder, Left};
use lock_protocol::{LockNames, put_answer};
use std::alloc::AllocError;

/// Adds the line to the client that is granted a lock, if there is one.
fn tell_grant(
    text: &mut Vec<u8>,
    names: &LockNames,
    lock: u32,
    granted: Option<Holder>,
) -> Result<(), AllocError>
    ensures { OnOk result (text.new.items
        ≡ text.old.items ++ lines_about names.now lock (other_grant granted)) }
{
    match granted {
        Some(holder) => {
            let told = Answer::Granted(holder.token);
            put_answer(text, holder.client, names.name(lock), told)
        }
        None => Ok(()),
    }
}

/// Adds the line to the client that asked, if there is an answer.
fn tell_own(
    text: &mut Vec<u8>,
    names: &LockNames,
    client: u64,
    lock: u32,
    own: Option<Answer>,
) -> Result<(), AllocError>
    ensures { OnOk result (text.new.items
        ≡ text.old.items ++ lines_about names.now lock (own_answer client own)) }
{
    match own {
        Some(answer) => put_answer(text, client, names.name(lock), answer),
        None => Ok(()),
    }
}

/// Adds the lines to all clients that answers about a lock concern.
pub(crate) fn tell(
    text: &mut Vec<u8>,
    names: &LockNames,
    client: u64,
    lock: u32,
    answers: Answers,
) -> Result<(), AllocError>
    ensures { OnOk result (text.new.items
        ≡ text.old.items ++ lines_about names.now lock (answers_of client answers)) }
{
    match tell_own(text, names, client, lock, answers.own) {
        Ok(()) => tell_grant(text, names, lock, answers.granted),
        Err(error) => Err(error),
    }
}

/// Adds the lines to the clients that are granted what another client left.
pub(crate) fn tell_left(
    text: &mut Vec<u8>,
    names: &LockNames,
    left: &[Left],
) -> Result<(), AllocError>
    ensures { OnOk result (text.new.items
        ≡ text.old.items ++ lines_of_left names.now left.now) }
{
    for one in left {
        match tell_grant(text, names, one.lock, one.granted) {
            Ok(()) => {}
            Err(error) => return Err(error),
        }
    }
    Ok(())
}
