//! What is done to the ring of a lock: passes, surveys that end holds, faults with their repair.

ghost use Rattle.std.specs.Prelude.{◌≡◌, true, ℕ, ◌+◌, ◌<◌, ◌≤◌, ◌⊎◌, ◌^◌, length, [], ◌∷◌, map, slice_index, Some, IsOk, IfOk, IfErr, OnOk, OnErr};
ghost use Rattle.ring_model.specs.LockSeats.{grant_seat};
ghost use Rattle.ring_model.specs.Ring.{first_privileged, is_settled};
ghost use Rattle.ring_model.specs.Replay.{machine_of};
ghost use Rattle.ring_model.specs.Bases.{IsBase, base_after};
ghost use Rattle.held_locks.specs.Grants.{carried, most_passes};
ghost use Rattle.endless_ring.specs.Endless.{IsSameEndless, IsNextRing, local_survey};
ghost use Rattle.held_locks.specs.Locks.{Call, fault, first_pass, repairs};
ghost use Rattle.held_locks.specs.Promises.{number_of, token_of};
ghost use Rattle.held_locks.specs.Kept.{state_of, seat_count, IsKeptRing, AreMade};
ghost use Rattle.held_locks.specs.Parts.{IsMade, IsLackOf};

use crate::answers::{HoldEnd, Holder, Refusal};
use endless_ring::{EndlessRing, NextError};
use one_thread_ring::CallError;
use ring_model::limits::EVENT_LIMIT;
use ring_model::lock_seats::{CARRIED_SEAT, FAULT_SEAT, GRANT_SEAT, REPAIR_SEAT};
use ring_model::{Op, Reply, Survey};
use std::alloc::Global;

/// The number of a grant; 0 of another reply.
#[inline(always)]
fn number_of(reply: Reply) -> u64
    ensures { (number : ℕ) → number_of reply ≡ Some number → result ≡ number }
{
    match reply {
        Reply::Granted { number, .. } => number,
        Reply::NotPrivileged | Reply::Corrupted { .. } => 0,
    }
}

/// The value over which a fault was written; 0 of another reply.
fn old_of(reply: Reply) -> u32
    ensures { (old : ℕ) → reply ≡ Reply.Corrupted old → result ≡ old }
{
    match reply {
        Reply::Corrupted { old } => old,
        Reply::NotPrivileged | Reply::Granted { .. } => 0,
    }
}

/// Why a ring refuses a call that has its seat, its machine and its value right.
#[inline(always)]
fn lack(error: CallError) -> Refusal
    ensures full { error ≡ CallError.HistoryFull → result ≡ Refusal.Full }
    ensures memory { error ≡ CallError.OutOfMemory → result ≡ Refusal.Memory }
{
    match error {
        CallError::HistoryFull => Refusal::Full,
        _ => Refusal::Memory,
    }
}

/// The first privileged machine.
fn first(ring: &EndlessRing) -> u32
    requires { IsKeptRing ring.now }
    ensures { result ≡ first_privileged (state_of ring.now).ring.values }
{
    ring.segment().first()
}

/// The machine of a call.
#[inline(always)]
fn machine_of(op: Op) -> u32
    ensures { result ≡ machine_of op }
{
    match op {
        Op::Pass { machine, .. } | Op::Member { machine, .. } | Op::Corrupt { machine, .. } =>
            machine,
    }
}

/// The machine after the one that was called last, which is mostly privileged in a settled ring; machine 0 if there is none.
#[inline(always)]
fn likely(ring: &EndlessRing) -> u32
    requires { IsKeptRing ring.now }
    ensures { result < length (state_of ring.now).ring.values }
{
    let segment = ring.segment();
    let Some(event) = segment.history().last() else {
        return 0;
    };
    let next = machine_of(event.op).wrapping_add(1);
    if next < segment.machines() { next } else { 0 }
}

/// The privileged machine of a settled ring. It is searched for only where the likely one is not privileged.
#[inline(always)]
pub(crate) fn privileged(ring: &EndlessRing) -> u32
    requires kept { IsKeptRing ring.now }
    requires settled { is_settled (state_of ring.now).ring.values ≡ true }
    ensures { result ≡ first_privileged (state_of ring.now).ring.values }
{
    let likely = likely(ring);
    if ring.segment().is_privileged(likely) {
        return likely;
    }
    first(ring)
}

/// Takes memory for this many events, and for one for each client that waits.
///
/// # Errors
///
/// `Full`, `Memory`. Nothing has changed then.
#[inline(always)]
pub(crate) fn reserve(ring: &mut EndlessRing, waiting: usize, events: u32) -> Result<(), Refusal>
    requires kept { IsKeptRing ring.old }
    requires few { events ≤ 1024 }
    ensures ok { OnOk result (waiting + events ≤ ring.new.ring.book.room) }
    ensures same { IsSameEndless ring.old ring.new }
    ensures kept { IsKeptRing ring.new }
    ensures err { OnErr result (ring.new ≡ ring.old) }
    ensures why { IfErr result (λ e. IsLackOf ring.old (waiting + events) e) }
{
    if waiting > EVENT_LIMIT {
        return Err(Refusal::Full);
    }
    match ring.reserve(waiting as u32 + events) {
        Ok(()) => Ok(()),
        Err(error) => Err(lack(error)),
    }
}

/// A pass of the first privileged machine, which is known, by this seat; there is room for it. Answers its number, which counts all
/// passes of the ring.
#[inline(always)]
pub(crate) fn pass_first(ring: &mut EndlessRing, seat: u32, first: u32, order: u64) -> u64
    requires kept { IsKeptRing ring.old }
    requires seat { seat < seat_count }
    requires first { first ≡ first_privileged (state_of ring.old).ring.values }
    requires room { 1 ≤ ring.old.ring.book.room }
    ensures number { result ≡ (state_of ring.old).grants + 1 }
    ensures made { IsMade ring.old ring.new seat (first_pass (state_of ring.old) order) }
    ensures kept { IsKeptRing ring.new }
    ensures room { ring.old.ring.book.room ≤ ring.new.ring.book.room + 1 }
{
    let receipt = ring.grant(seat, first, order);
    number_of(receipt.event.reply)
}

/// The same, of a ring whose first privileged machine is not known.
fn pass(ring: &mut EndlessRing, seat: u32, order: u64) -> u64
    requires kept { IsKeptRing ring.old }
    requires seat { seat < seat_count }
    requires room { 1 ≤ ring.old.ring.book.room }
    ensures number { result ≡ (state_of ring.old).grants + 1 }
    ensures made { IsMade ring.old ring.new seat (first_pass (state_of ring.old) order) }
    ensures kept { IsKeptRing ring.new }
    ensures room { ring.old.ring.book.room ≤ ring.new.ring.book.room + 1 }
{
    let first = first(ring);
    pass_first(ring, seat, first, order)
}

/// The ring with its next segment, which has no events.
///
/// # Errors
///
/// `Full`, `Memory`.
pub(crate) fn next(ring: &EndlessRing, alloc: Global) -> Result<EndlessRing, Refusal>
    requires { IsKeptRing ring.now }
    ensures ok { IfOk result (λ next. IsNextRing ring.now next) }
    ensures kept { IfOk result (λ next. IsKeptRing next) }
    ensures why { IfErr result (λ e. ((e ≡ Refusal.Full)
        × (¬ IsBase (base_after ring.now.base ring.now.ring.book.start
        ring.now.ring.book.history))) ⊎ (e ≡ Refusal.Memory)) }
{
    match ring.next(alloc) {
        Ok(next) => Ok(next),
        Err(NextError::Full) => Err(Refusal::Full),
        Err(NextError::OutOfMemory) => Err(Refusal::Memory),
    }
}

/// Carries the hold that is open, if one is, into a segment that begins: a pass of a machine that is not privileged,
/// whose order is the hold's token. There is room for it.
pub(crate) fn carry(ring: &mut EndlessRing, held: Option<Holder>)
    requires kept { IsKeptRing ring.old }
    requires room { 1 ≤ ring.old.ring.book.room }
    ensures made { AreMade ring.old (map Call (carried (state_of ring.old) (token_of held)))
        ring.new }
    ensures kept { IsKeptRing ring.new }
    ensures room { ring.old.ring.book.room ≤ ring.new.ring.book.room + 1 }
{
    let Some(holder) = held else {
        return;
    };
    let other = if first(ring) == 0 { 1 } else { 0 };
    match ring.pass(CARRIED_SEAT, other, holder.token) {
        Ok(_) => {}
        Err(_) => unreachable!(),
    }
}

/// The survey of a settled ring: one machine is privileged, and no pass is left.
#[inline(always)]
fn survey_settled(ring: &EndlessRing) -> Survey
    requires kept { IsKeptRing ring.now }
    requires settled { is_settled (state_of ring.now).ring.values ≡ true }
    ensures { result ≡ local_survey ring.now.ring }
{
    Survey {
        position: ring.segment().history_length(),
        privileged: 1,
        first: privileged(ring),
        calm: ring.segment().calm(),
        rest: 0,
    }
}

/// The end of a hold now, by this seat. It takes no memory.
#[inline(always)]
pub(crate) fn end(ring: &EndlessRing, seat: u32) -> HoldEnd
    requires kept { IsKeptRing ring.now }
    requires settled { is_settled (state_of ring.now).ring.values ≡ true }
    ensures is { result ≡ record { seat = seat; survey = local_survey ring.now.ring } }
    ensures first { result.survey.first ≡ first_privileged (state_of ring.now).ring.values }
{
    HoldEnd {
        seat,
        survey: survey_settled(ring),
    }
}

/// Whether exactly one machine is privileged.
fn is_settled(ring: &EndlessRing) -> bool
    requires { IsKeptRing ring.now }
    ensures { result ≡ is_settled (state_of ring.now).ring.values }
{
    ring.glance().privileged == 1
}

/// Passes the first privileged machine, as a repair, until the ring is settled, at most so often. There is room for that.
fn repair(ring: &mut EndlessRing, most: u32)
    requires kept { IsKeptRing ring.old }
    requires room { most ≤ ring.old.ring.book.room }
    ensures made { AreMade ring.old (map Call (repairs most (state_of ring.old))) ring.new }
    ensures kept { IsKeptRing ring.new }
    ensures room { ring.old.ring.book.room ≤ ring.new.ring.book.room + most }
{
    let mut more = most;
    while more > 0 {
        if is_settled(ring) {
            return;
        }
        pass(ring, REPAIR_SEAT, 0);
        more -= 1;
    }
}

/// The most passes that a repair of the ring may need.
fn most_repairs(ring: &EndlessRing) -> u32
    requires { IsKeptRing ring.now }
    ensures is { result ≡ most_passes (length (state_of ring.now).ring.values) }
    ensures few { result < 1024 }
{
    ring.segment().machines() - 1
}

/// Passes the first privileged machine, as a repair, until the ring is settled.
///
/// # Errors
///
/// `Full`, `Memory`. Nothing has changed then, room aside.
pub(crate) fn settle(ring: &mut EndlessRing) -> Result<(), Refusal>
    requires { IsKeptRing ring.old }
    ensures made { OnOk result (AreMade ring.old
        (map Call (repairs (most_passes (length (state_of ring.old).ring.values)) (state_of ring.old)))
        ring.new) }
    ensures settled { OnOk result (is_settled (state_of ring.new).ring.values ≡ true) }
    ensures kept { IsKeptRing ring.new }
    ensures why { IfErr result (λ e.
        IsLackOf ring.old (most_passes (length (state_of ring.old).ring.values)) e) }
{
    let most = most_repairs(ring);
    match reserve(ring, 0, most) {
        Ok(()) => {}
        Err(why) => return Err(why),
    }
    repair(ring, most);
    Ok(())
}

/// A fault, which writes a value into a machine, and its repair, with room left for an event for each client that
/// waits. Answers the value that was there.
///
/// # Errors
///
/// `Full`, `Memory`. Nothing has changed then.
pub(crate) fn fault(
    ring: &mut EndlessRing,
    waiting: usize,
    machine: u32,
    value: u32,
) -> Result<u32, Refusal>
    requires kept { IsKeptRing ring.old }
    requires room { waiting ≤ ring.old.ring.book.room }
    requires machine { machine < length (state_of ring.old).ring.values }
    requires value { value < (state_of ring.old).ring.k }
    ensures old { IfOk result (λ old. old
        ≡ slice_index (state_of ring.old).ring.values machine) }
    ensures made { OnOk result (AreMade ring.old
        (map Call (fault (state_of ring.old) machine value)) ring.new) }
    ensures kept { IsKeptRing ring.new }
    ensures err { OnErr result (ring.new ≡ ring.old) }
    ensures why { IfErr result (λ e. IsLackOf ring.old
        (waiting + (1 + most_passes (length (state_of ring.old).ring.values))) e) }
    ensures room { waiting ≤ ring.new.ring.book.room }
{
    let most = most_repairs(ring);
    match reserve(ring, waiting, 1 + most) {
        Ok(()) => {}
        Err(why) => return Err(why),
    }
    match ring.corrupt(FAULT_SEAT, machine, value) {
        Ok(receipt) => {
            repair(ring, most);
            Ok(old_of(receipt.event.reply))
        }
        Err(_) => unreachable!(),
    }
}
