//! One lock: its ring, its queue, its holder.

ghost use Rattle.std.specs.Prelude.{◌≡◌, ◌+◌, ◌<◌, ◌⊎◌, List, ◌∷◌, length, Some, None, IsSome, true};
ghost use Rattle.ring_model.specs.Ring.{first_privileged, is_settled};
ghost use Rattle.endless_ring.specs.Endless.{local_survey};
ghost use Rattle.held_locks.specs.Queues.{without};
ghost use Rattle.held_locks.specs.Waiting.{lock_in};
ghost use Rattle.held_locks.specs.Locks.{Corrupt, ended, faulted, granted, joined};
ghost use Rattle.held_locks.specs.declared.answers.Waiter.{Waiter};
ghost use Rattle.held_locks.specs.Kept.{state_of, lock_of, need, IsKeptLock, own_answer};
ghost use Rattle.held_locks.specs.Parts.{view_of, IsTurned, IsLacking, IsTurnedIn, IsLackingIn, IsEntryOf};

use crate::answers::{Answer, Answers, HoldEnd, Holder, Refusal, Waiter};
use crate::waits::Waits;
use crate::{marks, queue};
use endless_ring::EndlessRing;
use ring_model::lock_seats::GRANT_SEAT;
use std::collections::VecDeque;

/// A lock: its ring, who waits for it, and who holds it.
#[derive(Drop)]
pub(crate) struct LockParts {
    pub(crate) ring: EndlessRing,
    pub(crate) queue: VecDeque<Waiter>,
    pub(crate) holder: Option<Holder>,
}

/// Only the client that asks is answered.
#[inline(always)]
pub(crate) fn told(answer: Answer) -> Answers
    ensures { result ≡ record { own = Some answer; ended = None; granted = None } }
{
    Answers {
        own: Some(answer),
        ended: None,
        granted: None,
    }
}

/// A refusal.
#[inline(always)]
pub(crate) fn refused(why: Refusal) -> Answers
    ensures { result
        ≡ record { own = Some (Answer.Refused why); ended = None; granted = None } }
{
    told(Answer::Refused(why))
}

/// Grants the lock to a client, with room left for a grant to each that waits.
#[inline(always)]
pub(crate) fn grant(lock: &mut LockParts, waiter: Waiter) -> Answers
    requires kept { IsKeptLock (view_of lock.old) }
    requires settled { is_settled (state_of lock.old.ring).ring.values ≡ true }
    ensures { IsTurned (view_of lock.old) (view_of lock.new) waiter.client
        (granted (state_of lock.old.ring) lock.old.queue.items waiter) result
        ⊎ IsLacking (view_of lock.old) (view_of lock.new) (length lock.old.queue.items + 1) result }
{
    match marks::reserve(&mut lock.ring, lock.queue.len(), 1) {
        Ok(()) => {}
        Err(why) => return refused(why),
    }
    let first = marks::privileged(&lock.ring);
    let token = marks::pass_first(&mut lock.ring, GRANT_SEAT, first, waiter.label);
    lock.holder = Some(Holder {
        client: waiter.client,
        token,
    });
    told(Answer::Granted(token))
}

/// Puts a client that does not wait into the queue of a lock that is held, once there is room for its grant. The ring
/// takes memory last, so that of a refusal nothing is seen.
pub(crate) fn wait(lock: &mut LockParts, waits: &mut Waits, number: u32, waiter: Waiter) -> Answers
    requires kept { IsKeptLock (view_of lock.old) }
    requires held { IsSome lock.old.holder }
    requires free { lock_in waits.old waiter.client ≡ None }
    ensures { IsTurnedIn number (view_of lock.old) (view_of lock.new) waits.old waits.new
        waiter.client (joined (lock_of (view_of lock.old)) waiter lock.old.holder) result
        ⊎ IsLackingIn (view_of lock.old) (view_of lock.new) waits.old waits.new
        (length lock.old.queue.items + 1) result }
{
    let before = lock.queue.len();
    let Ok(()) = lock.queue.reserve(1) else {
        return refused(Refusal::Memory);
    };
    let Ok(()) = waits.begin(waiter.client, number) else {
        return refused(Refusal::Memory);
    };
    match marks::reserve(&mut lock.ring, before, 1) {
        Ok(()) => {}
        Err(why) => {
            waits.end(waiter.client);
            return refused(why);
        }
    }
    lock.queue.push_back_reserved(waiter);
    told(Answer::Waiting(before as u64))
}

/// Ends the hold of a client, with a survey by this seat, and grants the head of the queue. It wants neither room nor memory.
#[inline(always)]
pub(crate) fn end_hold(
    lock: &mut LockParts,
    waits: &mut Waits,
    number: u32,
    client: u64,
    seat: u32,
    own: Option<Answer>,
) -> Answers
    requires kept { IsKeptLock (view_of lock.old) }
    requires settled { is_settled (state_of lock.old.ring).ring.values ≡ true }
    ensures turned { IsTurnedIn number (view_of lock.old) (view_of lock.new) waits.old waits.new
        client (ended (state_of lock.old.ring) lock.old.queue.items seat (own_answer client own))
        result }
    ensures own { result.own ≡ own }
{
    let end = marks::end(&lock.ring, seat);
    match queue::head(&lock.queue) {
        Some(waiter) => pass_hold(lock, waits, number, client, own, end, waiter),
        None => {
            lock.holder = None;
            Answers {
                own,
                ended: Some(end),
                granted: None,
            }
        }
    }
}

/// Grants this client, which is the head of the queue, after this end of the hold of another.
fn pass_hold(
    lock: &mut LockParts,
    waits: &mut Waits,
    number: u32,
    client: u64,
    own: Option<Answer>,
    over: HoldEnd,
    waiter: Waiter,
) -> Answers
    requires kept { IsKeptLock (view_of lock.old) }
    requires head { (others : List Waiter) × (lock.old.queue.items ≡ waiter ∷ others) }
    requires now { over.survey ≡ local_survey lock.old.ring.ring }
    requires first { over.survey.first
        ≡ first_privileged (state_of lock.old.ring).ring.values }
    ensures turned { IsTurnedIn number (view_of lock.old) (view_of lock.new) waits.old waits.new
        client
        (ended (state_of lock.old.ring) lock.old.queue.items over.seat (own_answer client own))
        result }
    ensures own { result.own ≡ own }
{
    let token = marks::pass_first(&mut lock.ring, GRANT_SEAT, over.survey.first, waiter.label);
    let holder = Holder {
        client: waiter.client,
        token,
    };
    queue::take_head(&mut lock.queue);
    waits.end(waiter.client);
    lock.holder = Some(holder);
    Answers {
        own,
        ended: Some(over),
        granted: Some(holder),
    }
}

/// Takes a client out of the queue.
pub(crate) fn drop_waiter(lock: &mut LockParts, waits: &mut Waits, client: u64)
    ensures ring { lock.new.ring ≡ lock.old.ring }
    ensures holder { lock.new.holder ≡ lock.old.holder }
    ensures queue { lock.new.queue.items ≡ without client lock.old.queue.items }
    ensures waits { IsEntryOf client None waits.old waits.new }
{
    queue::leave(&mut lock.queue, client);
    waits.end(client);
}

/// A fault of the lock's ring.
pub(crate) fn fault(lock: &mut LockParts, client: u64, machine: u32, value: u32) -> Answers
    requires kept { IsKeptLock (view_of lock.old) }
    requires machine { machine < length (state_of lock.old.ring).ring.values }
    requires value { value < (state_of lock.old.ring).ring.k }
    ensures { IsTurned (view_of lock.old) (view_of lock.new) client
        (faulted (lock_of (view_of lock.old)) client machine value) result
        ⊎ IsLacking (view_of lock.old) (view_of lock.new)
        (need (view_of lock.old) (Corrupt machine value)) result }
{
    match marks::fault(&mut lock.ring, lock.queue.len(), machine, value) {
        Ok(old) => told(Answer::Corrupted(old)),
        Err(why) => refused(why),
    }
}
