//! The lines of holds, each with the name of its lock.

ghost use Rattle.std.specs.Prelude.{◌≡◌, map, slice_get};
ghost use Rattle.std.specs.Option.{option_map};
ghost use Rattle.text_lines.specs.Writing.{Writes};
ghost use Rattle.name_history.specs.Kept.{binding_at};
ghost use Rattle.lock_commands.specs.ToldHolds.{called, told_bound, bindings_of, told_listed, told, told_text, hold_line, chosen_line, lines_of, all_lines};

use crate::hold_names::HoldNames;
use chain_readers::{Choice, Hold, is_chosen, put_rest};
use itoa::Buffer;
use lock_protocol::LockNames;
use name_history::{Bound, RingNames};
use std::io::Write;
use text_lines::{WriteFault, put_all};

/// The name that a list has for a ring, if it has one.
#[tactic(auto, using(crate::proofs::NamesAt::none_past, crate::proofs::NamesAt::name_there))]
fn name_at(list: &LockNames, ring: u64) -> Option<&[u8]>
    ensures { option_map (λ name. name.now) result ≡ slice_get list.now ring }
{
    if ring >= list.count() as u64 {
        return None;
    }
    Some(list.name(ring as u32))
}

/// How a ring was bound at its grant of this number, if that is known.
#[tactic(auto, using(crate::proofs::NamesAt::unbound_past, crate::proofs::NamesAt::bound_there))]
fn bound_at(rings: &[RingNames], ring: u64, grant: u64) -> Option<&Bound>
    ensures { option_map (λ b. b.now) result ≡ binding_at (bindings_of rings.now ring) grant }
{
    if ring >= rings.len() as u64 {
        return None;
    }
    rings[ring as usize].at(grant)
}

/// Writes which lock is held, by its name, and the token.
fn put_name<W: Write>(out: &mut W, name: &[u8], token: u64) -> Result<(), WriteFault>
    ensures { Writes (W.contents out.old) (W.contents out.new) result
        (told_text (record { lock = name.now; token = token })) }
{
    let mut buffer = Buffer::new();
    let token = buffer.format(token).as_bytes();
    put_all(out, &[b"lock ", name, b" token ", token])
}

/// Writes which lock of the pool is held by a grant of this ring, and the token.
fn put_bound<W: Write>(
    out: &mut W,
    bound: Option<&Bound>,
    ring: u64,
    grant: u64,
) -> Result<(), WriteFault>
    ensures { Writes (W.contents out.old) (W.contents out.new) result
        (told_text (told_bound (option_map (λ b. b.now) bound.entry) ring grant)) }
{
    let mut buffers = (Buffer::new(), Buffer::new());
    let Some(bound) = bound else {
        let ring = buffers.0.format(ring).as_bytes();
        let grant = buffers.1.format(grant).as_bytes();
        return put_all(out, &[b"lock ?", ring, b" token ", grant]);
    };
    let token = bound.floor() as u128 + grant.saturating_sub(bound.before()) as u128;
    let token = buffers.0.format(token).as_bytes();
    put_all(out, &[b"lock ", bound.name(), b" token ", token])
}

/// Writes which lock of a list is held, or which one of its pool, and the token.
fn put_listed<W: Write>(
    out: &mut W,
    list: &LockNames,
    rings: &[RingNames],
    ring: u64,
    grant: u64,
) -> Result<(), WriteFault>
    ensures { Writes (W.contents out.old) (W.contents out.new) result (told_text
        (told_listed (slice_get list.now ring) (bindings_of rings.now ring) ring grant)) }
{
    match name_at(list, ring) {
        Some(name) => put_name(out, name, grant),
        None => put_bound(out, bound_at(rings, ring, grant), ring, grant),
    }
}

/// Writes which lock is held, and the token.
fn put_told<W: Write>(
    out: &mut W,
    names: &HoldNames,
    ring: u64,
    hold: &Hold,
) -> Result<(), WriteFault>
    ensures { Writes (W.contents out.old) (W.contents out.new) result
        (told_text (told (called names.now) ring hold.now)) }
{
    match &names.list {
        None => {
            let mut buffer = Buffer::new();
            put_name(out, buffer.format(ring).as_bytes(), hold.token)
        }
        Some(list) => put_listed(out, list, &names.rings, ring, hold.token),
    }
}

/// Writes the line of a hold.
#[tactic(auto, using(text_lines::proofs::Writing::writes_then, text_lines::proofs::Writing::writes_err))]
fn put_hold<W: Write>(
    out: &mut W,
    names: &HoldNames,
    ring: u64,
    hold: &Hold,
) -> Result<(), WriteFault>
    ensures { Writes (W.contents out.old) (W.contents out.new) result
        (hold_line (told (called names.now) ring hold.now) hold.now) }
{
    match put_told(out, names, ring, hold) {
        Ok(()) => put_rest(out, hold),
        Err(fault) => Err(fault),
    }
}

/// Writes the line of a hold, if it is wanted.
fn put_chosen<W: Write>(
    out: &mut W,
    choice: Choice,
    names: &HoldNames,
    ring: u64,
    hold: &Hold,
) -> Result<(), WriteFault>
    ensures { Writes (W.contents out.old) (W.contents out.new) result
        (chosen_line choice (called names.now) ring hold.now) }
{
    if is_chosen(choice, ring, hold) {
        put_hold(out, names, ring, hold)
    } else {
        put_all(out, &[])
    }
}

/// Writes the lines of the wanted holds of a ring.
fn put_lines<W: Write>(
    out: &mut W,
    choice: Choice,
    names: &HoldNames,
    ring: u64,
    holds: &[Hold],
) -> Result<(), WriteFault>
    ensures { Writes (W.contents out.old) (W.contents out.new) result
        (lines_of choice (called names.now) ring holds.now) }
{
    for hold in holds {
        match put_chosen(out, choice, names, ring, hold) {
            Ok(()) => {}
            Err(fault) => return Err(fault),
        }
    }
    Ok(())
}

/// Writes the lines of the wanted holds, ring by ring.
///
/// # Errors
///
/// As [`put_all`]: the writer then holds a prefix of the lines, but not all of them, after what it held.
pub(crate) fn put_holds<W: Write>(
    out: &mut W,
    choice: Choice,
    names: &HoldNames,
    locks: &[Vec<Hold>],
) -> Result<(), WriteFault>
    ensures { Writes (W.contents out.old) (W.contents out.new) result
        (all_lines choice (called names.now) 0 (map (λ v. v.items) locks.now)) }
{
    for (ring, holds) in locks.iter().enumerate() {
        match put_lines(out, choice, names, ring as u64, holds) {
            Ok(()) => {}
            Err(fault) => return Err(fault),
        }
    }
    Ok(())
}
