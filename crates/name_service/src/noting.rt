//! The lines that clients get of an answer about a name, and what the journal gets of it.

ghost use Rattle.std.specs.Prelude.{◌≡◌, ◌++◌, [], cond, slice_get, OnOk};
ghost use Rattle.lock_names.specs.Kept.{own_said, grant_said};
ghost use Rattle.lock_names.specs.Leaves.{bound_or, said_left};
ghost use Rattle.lock_journal.specs.Noting.{end_line, events_from};
ghost use Rattle.name_service.specs.Noting.{reply_line, lines_of_said, new_of, note_of_free, note_since, is_freed, notes_of_names_left};

use held_locks::{Answer, HoldEnd, Holder, Left};
use lock_journal::note;
use lock_names::{NameAnswers, Names, Reply};
use lock_protocol::{put_answer, put_names};
use name_remarks::{NameRemark, put_name_remark};
use std::alloc::AllocError;

/// Adds the line of a reply about a name.
fn tell_reply(text: &mut Vec<u8>, client: u64, name: &[u8], reply: Reply) -> Result<(), AllocError>
    ensures { OnOk result (text.new.items ≡ text.old.items ++ reply_line client name.now reply) }
{
    match reply {
        Reply::Lock(answer) => put_answer(text, client, name, answer),
        Reply::Names => put_names(text, client, name),
    }
}

/// Adds the line to the client that asked, if there is a reply.
fn tell_own(
    text: &mut Vec<u8>,
    client: u64,
    name: &[u8],
    own: Option<Reply>,
) -> Result<(), AllocError>
    ensures { OnOk result (text.new.items
        ≡ text.old.items ++ lines_of_said (own_said client name.now own)) }
{
    match own {
        Some(reply) => tell_reply(text, client, name, reply),
        None => Ok(()),
    }
}

/// Adds the line to the client that is granted the name, if there is one.
fn tell_grant(text: &mut Vec<u8>, name: &[u8], granted: Option<Holder>) -> Result<(), AllocError>
    ensures { OnOk result (text.new.items
        ≡ text.old.items ++ lines_of_said (grant_said name.now granted)) }
{
    match granted {
        Some(holder) => put_answer(text, holder.client, name, Answer::Granted(holder.token)),
        None => Ok(()),
    }
}

/// Adds the lines to all clients that an answer about a name concerns.
pub(crate) fn tell_name(
    text: &mut Vec<u8>,
    client: u64,
    name: &[u8],
    own: Option<Reply>,
    granted: Option<Holder>,
) -> Result<(), AllocError>
    ensures { OnOk result (text.new.items ≡ text.old.items
        ++ lines_of_said (own_said client name.now own ++ grant_said name.now granted)) }
{
    match tell_own(text, client, name, own) {
        Ok(()) => tell_grant(text, name, granted),
        Err(error) => Err(error),
    }
}

/// The name of a ring; nothing, if it has none.
fn name_at(names: &Names, ring: u32) -> &[u8]
    ensures { result.now ≡ (bound_or (slice_get names.now.names ring)).name }
{
    match names.name(ring) {
        Some(name) => name.as_bytes(),
        None => &[],
    }
}

/// Adds the lines to the clients that are granted what another client left.
pub(crate) fn tell_names_left(
    text: &mut Vec<u8>,
    names: &Names,
    left: &[Left],
) -> Result<(), AllocError>
    ensures { OnOk result (text.new.items
        ≡ text.old.items ++ lines_of_said (said_left names.now.names left.now)) }
{
    for one in left {
        match tell_grant(text, name_at(names, one.lock), one.granted) {
            Ok(()) => {}
            Err(error) => return Err(error),
        }
    }
    Ok(())
}

/// Adds the remark that binds a ring to the name that it has, if this is new.
fn note_new(names: &Names, ring: u32, fresh: bool, notes: &mut Vec<u8>) -> Result<(), AllocError>
    ensures { OnOk result (notes.new.items
        ≡ notes.old.items ++ new_of fresh ring (slice_get names.now.names ring)) }
{
    if !fresh {
        return Ok(());
    }
    let Some(binding) = names.binding(ring) else {
        return Ok(());
    };
    let remark = NameRemark::Bind {
        ring,
        before: binding.before,
        floor: binding.floor,
        name: binding.name.as_bytes(),
    };
    put_name_remark(notes, remark)
}

/// Adds the remark that a ring is free, if it has lost its name.
fn note_free(ring: u32, freed: bool, notes: &mut Vec<u8>) -> Result<(), AllocError>
    ensures { OnOk result (notes.new.items ≡ notes.old.items ++ note_of_free ring freed) }
{
    if freed {
        put_name_remark(notes, NameRemark::Free { ring })
    } else {
        Ok(())
    }
}

/// Adds what a journal gets of a ring whose segment had `place` events, and that it is free, if it has lost its name.
fn note_ring(
    names: &Names,
    ring: u32,
    ended: Option<HoldEnd>,
    place: usize,
    freed: bool,
    notes: &mut Vec<u8>,
) -> Result<(), AllocError>
    ensures { OnOk result (notes.new.items ≡ notes.old.items
        ++ ((end_line ring ended ++ events_from ring place (slice_get names.now.locks ring))
        ++ note_of_free ring freed)) }
{
    match note(names.locks(), ring, ended, place, notes) {
        Ok(()) => note_free(ring, freed, notes),
        Err(error) => Err(error),
    }
}

/// Adds what a journal gets of an answer about a name: how its ring is bound, if that is new, and the rest.
fn note_asked(
    names: &Names,
    ring: u32,
    answers: NameAnswers,
    place: usize,
    notes: &mut Vec<u8>,
) -> Result<(), AllocError>
    ensures { OnOk result (notes.new.items
        ≡ notes.old.items ++ note_since (Some ring) place names.now answers) }
{
    match note_new(names, ring, answers.fresh, notes) {
        Ok(()) => note_ring(names, ring, answers.ended, place, answers.freed, notes),
        Err(error) => Err(error),
    }
}

/// The same, if a journal is kept and a ring was asked, whose segment had `place` events before.
pub(crate) fn note_name_if(
    noting: bool,
    names: &Names,
    answers: NameAnswers,
    place: usize,
    notes: &mut Vec<u8>,
) -> Result<(), AllocError>
    ensures { OnOk result (notes.new.items ≡ notes.old.items
        ++ cond noting (note_since answers.ring place names.now answers) []) }
{
    if !noting {
        return Ok(());
    }
    match answers.ring {
        Some(ring) => note_asked(names, ring, answers, place, notes),
        None => Ok(()),
    }
}

/// Whether the ring of a hold that was left has lost its name.
fn is_freed(fixed: u32, left: Left) -> bool
    ensures { result ≡ is_freed fixed left }
{
    left.lock >= fixed && left.granted.is_none()
}

/// Adds what a journal gets of what a client left.
fn note_names_left(names: &Names, left: &[Left], notes: &mut Vec<u8>) -> Result<(), AllocError>
    ensures { OnOk result (notes.new.items ≡ notes.old.items
        ++ notes_of_names_left names.now.fixed names.now.locks left.now) }
{
    let fixed = names.fixed();
    for one in left {
        let place = one.ended.survey.position as usize;
        let freed = is_freed(fixed, *one);
        match note_ring(names, one.lock, Some(one.ended), place, freed, notes) {
            Ok(()) => {}
            Err(error) => return Err(error),
        }
    }
    Ok(())
}

/// The same, if a journal is kept.
pub(crate) fn note_names_left_if(
    noting: bool,
    names: &Names,
    left: &[Left],
    notes: &mut Vec<u8>,
) -> Result<(), AllocError>
    ensures { OnOk result (notes.new.items ≡ notes.old.items
        ++ cond noting (notes_of_names_left names.now.fixed names.now.locks left.now) []) }
{
    if noting {
        note_names_left(names, left, notes)
    } else {
        Ok(())
    }
}
