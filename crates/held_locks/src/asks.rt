//! What a client asks of one lock.

ghost use Rattle.std.specs.Prelude.{◌≡◌, ℕ, ◌+◌, ◌⊎◌, List, [], None};
ghost use Rattle.std.specs.Prelude.{true, false, length, IsTrue};
ghost use Rattle.ring_model.specs.Ring.{is_settled};
ghost use Rattle.held_locks.specs.Queues.{stands, is_held_by, is_held_with};
ghost use Rattle.held_locks.specs.Locks.{Release, Cancel, Leave, Corrupt, Stats as Asks_stats, acquired, tried, turn};
ghost use Rattle.held_locks.specs.Kept.{state_of, lock_of, need, IsKeptLock};
ghost use Rattle.held_locks.specs.Waiting.{lock_in};
ghost use Rattle.held_locks.specs.Parts.{view_of, IsTurnedIn, IsLackingIn};

use crate::answers::{Answer, Answers, Holder, Refusal, Stats, Waiter};
use crate::parts::{LockParts, drop_waiter, end_hold, fault, grant, refused, told, wait};
use crate::waits::Waits;
use ring_model::lock_seats::{LEAVE_SEAT, RELEASE_SEAT};

/// What a client asks of one lock.
#[derive(Clone, Copy)]
pub enum OneAsk {
    /// To hold it, with a label that the client chooses, or else to wait for it.
    Acquire { label: u64 },
    /// To hold it, and not to wait for it.
    Try { label: u64 },
    /// To hold it no more, of which this is the token.
    Release { token: u64 },
    /// To wait for it no more.
    Cancel,
    /// A fault: a value is written into a machine of its ring.
    Corrupt { machine: u32, value: u32 },
    /// What there is to say of it.
    Stats,
}

/// Whether the client is this holder.
#[inline(always)]
pub(crate) fn is_held_by(client: u64, holder: Option<Holder>) -> bool
    ensures { result ≡ is_held_by client holder }
{
    match holder {
        Some(holder) => holder.client == client,
        None => false,
    }
}

/// Whether the client is this holder, with this token.
#[inline(always)]
pub(crate) fn is_held_with(client: u64, token: u64, holder: Option<Holder>) -> bool
    ensures { result ≡ is_held_with client token holder }
{
    match holder {
        Some(holder) => holder.client == client && holder.token == token,
        None => false,
    }
}

/// A client acquires the lock, if nothing is against it.
#[inline(always)]
pub(crate) fn acquire(
    lock: &mut LockParts,
    waits: &mut Waits,
    number: u32,
    waiter: Waiter,
    why: Option<Refusal>,
) -> Answers
    requires kept { IsKeptLock (view_of lock.old) }
    requires settled { is_settled (state_of lock.old.ring).ring.values ≡ true }
    requires free { why ≡ None → lock_in waits.old waiter.client ≡ None }
    ensures { IsTurnedIn number (view_of lock.old) (view_of lock.new) waits.old waits.new
        waiter.client (acquired (lock_of (view_of lock.old)) waiter why) result
        ⊎ IsLackingIn (view_of lock.old) (view_of lock.new) waits.old waits.new
        (length lock.old.queue.items + 1) result }
{
    if let Some(why) = why {
        return refused(why);
    }
    if lock.holder.is_some() {
        return wait(lock, waits, number, waiter);
    }
    grant(lock, waiter)
}

/// A client tries to acquire the lock, if nothing is against it.
pub(crate) fn try_acquire(lock: &mut LockParts, waiter: Waiter, why: Option<Refusal>) -> Answers
    requires kept { IsKeptLock (view_of lock.old) }
    requires settled { is_settled (state_of lock.old.ring).ring.values ≡ true }
    ensures { (number : ℕ) (entries : List (ℕ × ℕ))
        → IsTurnedIn number (view_of lock.old) (view_of lock.new) entries entries waiter.client
        (tried (lock_of (view_of lock.old)) waiter why) result
        ⊎ IsLackingIn (view_of lock.old) (view_of lock.new) entries entries
        (length lock.old.queue.items + 1) result }
{
    if let Some(why) = why {
        return refused(why);
    }
    if lock.holder.is_some() {
        return told(Answer::Busy);
    }
    grant(lock, waiter)
}

/// A client releases the lock.
#[inline(always)]
pub(crate) fn release(
    lock: &mut LockParts,
    waits: &mut Waits,
    number: u32,
    client: u64,
    token: u64,
) -> Answers
    requires kept { IsKeptLock (view_of lock.old) }
    requires settled { is_settled (state_of lock.old.ring).ring.values ≡ true }
    ensures { IsTurnedIn number (view_of lock.old) (view_of lock.new) waits.old waits.new client
        (turn [] (lock_of (view_of lock.old)) client (Release token)) result }
{
    if !is_held_with(client, token, lock.holder) {
        return refused(Refusal::Holder);
    }
    end_hold(
        lock,
        waits,
        number,
        client,
        RELEASE_SEAT,
        Some(Answer::Released),
    )
}

/// A client waits no more.
pub(crate) fn cancel(
    lock: &mut LockParts,
    waits: &mut Waits,
    number: u32,
    client: u64,
    waiting: bool,
) -> Answers
    requires kept { IsKeptLock (view_of lock.old) }
    requires waiting { waiting ≡ stands client lock.old.queue.items }
    ensures { IsTurnedIn number (view_of lock.old) (view_of lock.new) waits.old waits.new client
        (turn [] (lock_of (view_of lock.old)) client Cancel) result }
{
    if !waiting {
        return refused(Refusal::Waiter);
    }
    drop_waiter(lock, waits, client);
    told(Answer::Cancelled)
}

/// A client leaves the lock.
pub(crate) fn leave(
    lock: &mut LockParts,
    waits: &mut Waits,
    number: u32,
    client: u64,
    waiting: bool,
) -> Answers
    requires kept { IsKeptLock (view_of lock.old) }
    requires settled { is_settled (state_of lock.old.ring).ring.values ≡ true }
    requires waiting { waiting ≡ stands client lock.old.queue.items }
    requires either { IsTrue (is_held_by client lock.old.holder) → waiting ≡ false }
    ensures turned { IsTurnedIn number (view_of lock.old) (view_of lock.new) waits.old waits.new
        client (turn [] (lock_of (view_of lock.old)) client Leave) result }
    ensures own { result.own ≡ None }
{
    if is_held_by(client, lock.holder) {
        return end_hold(lock, waits, number, client, LEAVE_SEAT, None);
    }
    if waiting {
        drop_waiter(lock, waits, client);
    }
    Answers {
        own: None,
        ended: None,
        granted: None,
    }
}

/// A fault of the lock's ring.
pub(crate) fn corrupt(lock: &mut LockParts, client: u64, machine: u32, value: u32) -> Answers
    requires { IsKeptLock (view_of lock.old) }
    ensures { (number : ℕ) (entries : List (ℕ × ℕ))
        → IsTurnedIn number (view_of lock.old) (view_of lock.new) entries entries client
        (turn [] (lock_of (view_of lock.old)) client (Corrupt machine value)) result
        ⊎ IsLackingIn (view_of lock.old) (view_of lock.new) entries entries
        (need (view_of lock.old) (Corrupt machine value)) result }
{
    if machine >= lock.ring.segment().machines() {
        return refused(Refusal::Machine);
    }
    if value >= lock.ring.segment().values() {
        return refused(Refusal::Value);
    }
    fault(lock, client, machine, value)
}

/// What there is to say of the lock.
pub(crate) fn stats(lock: &LockParts) -> Answers
    requires { IsKeptLock (view_of lock.now) }
    ensures { (number client : ℕ) (entries : List (ℕ × ℕ))
        → IsTurnedIn number (view_of lock.now) (view_of lock.now) entries entries client
        (turn [] (lock_of (view_of lock.now)) client Asks_stats) result }
{
    told(Answer::Stats(Stats {
        machines: lock.ring.segment().machines(),
        waiters: lock.queue.len() as u64,
        passes: lock.ring.grants(),
        holder: lock.holder,
    }))
}
