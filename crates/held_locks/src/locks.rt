//! Locks that are called by their numbers.

ghost use Rattle.std.specs.Prelude.{◌≡◌, ℕ, ◌+◌, ◌<◌, ◌≤◌, ◌++◌, [], List, true, false, length, slice_get, None, Some, IfOk, IfErr, OnOk, OnErr, vec_len, vec_capacity};
ghost use Rattle.held_locks.specs.Queues.{stands, waits_for, client_of, holder_of, comes_to};
ghost use Rattle.held_locks.specs.Locks.{Acquire, Try, Release, Cancel, Corrupt, Stats, acquire_refusal, try_refusal};
ghost use Rattle.held_locks.specs.Cuts.{AreNext, HaveNoNext};
ghost use Rattle.held_locks.specs.Handed.{IsHanded, CannotBeHanded};
ghost use Rattle.held_locks.specs.Asked.{asked, IsAnswerTo, events_at};
ghost use Rattle.held_locks.specs.Kept.{LockView, lock_of, locks_of, IsKeptRing, IsKeptLock, AreKept, IsDone, IsAnswer, IsLeft};
ghost use Rattle.held_locks.specs.Opened.{IsAdded, IsNotAdded};
ghost use Rattle.held_locks.specs.Waiting.{lock_in};
ghost use Rattle.held_locks.specs.Parts.{view_of, views_of};
ghost use Rattle.held_locks.specs.declared.answers.Left.{Left};
ghost use Rattle.held_locks.specs.declared.parts.LockParts.{LockParts};

use crate::answers::{Answer, Answers, Holder, Left, OneAnswer, Refusal, Waiter};
use crate::asks::OneAsk;
use crate::cuts::next_locks;
use crate::growing::{add_to, zeroth};
use crate::handing::{Handover, hand_and_follow};
use crate::holds::{Holds, client_of, follow};
use crate::leaving::leave_all;
use crate::opened::open_hold;
use crate::parts::{LockParts, refused};
use crate::waits::Waits;
use crate::{asks, marks};
use endless_ring::EndlessRing;
use std::alloc::Global;
use std::marker::Model;

/// How many locks there may be.
pub const LOCK_LIMIT: usize = 1_000_000;

/// Locks that are called by their numbers, from 0. Contracts see each of them as it is kept.
#[derive(Drop)]
pub struct Locks {
    locks: Vec<LockParts>,
    waits: Waits,
    holds: Holds,
    /// The locks that a client leaves, while it leaves them. There is room for all of them.
    order: Vec<usize>,
}

impl Model for Locks {
    ghost use Rattle.std.specs.Prelude.{List, vec_capacity};
    ghost use Rattle.held_locks.specs.Kept.{LockView};
    ghost use Rattle.held_locks.specs.Holding.{AreWhole};
    ghost use Rattle.held_locks.specs.Parts.{views_of};

    ghost Value = { List LockView };

    ghost view = { λ s. views_of s.locks.items };

    ghost invariant = { λ s.
        AreWhole (views_of s.locks.items) s.waits s.holds (vec_capacity s.order) };
}

/// The holder of what a client waits for.
fn awaited(locks: &[LockParts], waits: &Waits, client: u64) -> Option<u64>
    requires { AreKept (views_of locks.now) waits.now }
    ensures { result ≡ holder_of (waits_for (locks_of (views_of locks.now)) client) }
{
    match waits.get(client) {
        Some(lock) => client_of(locks[lock as usize].holder),
        None => None,
    }
}

/// Whether one comes from this client to the asker, from whoever waits to who holds what it waits for.
fn comes_back(locks: &[LockParts], waits: &Waits, asker: u64, from: Option<u64>) -> bool
    requires { AreKept (views_of locks.now) waits.now }
    ensures { result
        ≡ comes_to (length locks.now) (locks_of (views_of locks.now)) asker from }
{
    let mut at = from;
    let mut more = locks.len();
    while more > 0 {
        let Some(client) = at else {
            return false;
        };
        if client == asker {
            return true;
        }
        at = awaited(locks, waits, client);
        more -= 1;
    }
    at.is_some()
}

/// Why a client may not acquire a lock.
#[inline(always)]
fn acquire_refusal(locks: &[LockParts], waits: &Waits, client: u64, lock: usize) -> Option<Refusal>
    requires kept { AreKept (views_of locks.now) waits.now }
    requires lock { lock < length locks.now }
    ensures is { (p : LockParts) → slice_get locks.now lock ≡ Some p
        → result ≡ acquire_refusal (locks_of (views_of locks.now)) (lock_of (view_of p)) client }
    ensures free { result ≡ None → lock_in waits.now client ≡ None }
{
    let holder = locks[lock].holder;
    if asks::is_held_by(client, holder) {
        return Some(Refusal::Holds);
    }
    if waits.get(client).is_some() {
        return Some(Refusal::Waits);
    }
    if comes_back(locks, waits, client, client_of(holder)) {
        return Some(Refusal::Circle);
    }
    None
}

/// Whether a client waits for a lock.
pub(crate) fn stands_at(locks: &[LockParts], waits: &Waits, client: u64, lock: u32) -> bool
    requires { AreKept (views_of locks.now) waits.now }
    ensures { (p : LockParts) → slice_get locks.now lock ≡ Some p
        → result ≡ stands client p.queue.items }
{
    match waits.get(client) {
        Some(other) => other == lock,
        None => false,
    }
}

/// Why a client may not try to acquire a lock.
fn try_refusal(locks: &[LockParts], waits: &Waits, client: u64, lock: u32) -> Option<Refusal>
    requires kept { AreKept (views_of locks.now) waits.now }
    requires lock { lock < length locks.now }
    ensures { (p : LockParts) → slice_get locks.now lock ≡ Some p
        → result ≡ try_refusal (lock_of (view_of p)) client }
{
    if asks::is_held_by(client, locks[lock as usize].holder) {
        return Some(Refusal::Holds);
    }
    if stands_at(locks, waits, client, lock) {
        return Some(Refusal::Waits);
    }
    None
}

/// How many events the segment of a lock's ring has.
#[inline(always)]
fn events_of(lock: &LockParts) -> usize
    ensures { result ≡ length lock.now.ring.ring.book.history }
{
    lock.ring.segment().history().len()
}

/// What comes of an ask of a lock that there is not.
fn no_lock() -> OneAnswer
    ensures answers { result.answers
        ≡ record { own = Some (Answer.Refused Refusal.Lock); ended = None; granted = None } }
    ensures none { (result.before ≡ 0) × (result.after ≡ 0) }
{
    OneAnswer {
        answers: refused(Refusal::Lock),
        before: 0,
        after: 0,
    }
}

/// Answers what a client asks of one lock that there is.
#[inline(always)]
fn ask_among(
    locks: &mut Vec<LockParts>,
    waits: &mut Waits,
    client: u64,
    lock: u32,
    ask: OneAsk,
) -> Answers
    requires kept { AreKept (views_of locks.old.items) waits.old }
    requires there { lock < length locks.old.items }
    ensures { IsAnswerTo (views_of locks.old.items) (views_of locks.new.items) client lock
        (asked ask) result × AreKept (views_of locks.new.items) waits.new }
{
    match ask {
        OneAsk::Acquire { label } => {
            let why = acquire_refusal(locks, waits, client, lock as usize);
            let waiter = Waiter { client, label };
            asks::acquire(&mut locks[lock as usize], waits, lock, waiter, why)
        }
        OneAsk::Try { label } => {
            let why = try_refusal(locks, waits, client, lock);
            let waiter = Waiter { client, label };
            asks::try_acquire(&mut locks[lock as usize], waiter, why)
        }
        OneAsk::Release { token } => {
            asks::release(&mut locks[lock as usize], waits, lock, client, token)
        }
        OneAsk::Cancel => {
            let waiting = stands_at(locks, waits, client, lock);
            asks::cancel(&mut locks[lock as usize], waits, lock, client, waiting)
        }
        OneAsk::Corrupt { machine, value } => {
            asks::corrupt(&mut locks[lock as usize], client, machine, value)
        }
        OneAsk::Stats => asks::stats(&locks[lock as usize]),
    }
}

/// What there is to say of a lock.
fn stats_of(locks: &[LockParts], lock: u32) -> Answers
    requires rings { (i : ℕ) (p : LockParts) → slice_get locks.now i ≡ Some p
        → IsKeptLock (view_of p) }
    ensures { (client : ℕ) (entries : List (ℕ × ℕ)) → AreKept (views_of locks.now) entries
        → IsDone (views_of locks.now) (views_of locks.now) client lock Stats result
        × AreKept (views_of locks.now) entries }
{
    if lock as usize >= locks.len() {
        return refused(Refusal::Lock);
    }
    asks::stats(&locks[lock as usize])
}

impl Locks {
    /// No locks.
    pub fn none(alloc: Global) -> Locks
        ensures { result ≡ [] }
    {
        Locks {
            locks: Vec::new(alloc),
            waits: Waits::new(alloc),
            holds: Holds::new(alloc),
            order: Vec::new(alloc),
        }
    }

    /// Adds a lock, whose number is how many there were: its ring of 10 seats is repaired first, and if a hold is open in the
    /// history of its segment, it continues as client 0's.
    ///
    /// # Errors
    ///
    /// `Full` where there are [`LOCK_LIMIT`] locks, or where the ring's segment has no room for its repair; `Memory`. There are as
    /// many locks as before then, and the ring is let go.
    pub fn add(&mut self, alloc: Global, ring: EndlessRing) -> Result<(), Refusal>
        requires { IsKeptRing ring }
        ensures ok { OnOk result (IsAdded self.old self.new ring) }
        ensures err { OnErr result (self.new ≡ self.old) }
        ensures why { IfErr result (λ e. IsNotAdded self.old ring e) }
    {
        let mut ring = ring;
        let held = open_hold(&ring);
        match marks::settle(&mut ring) {
            Ok(()) => {}
            Err(why) => return Err(why),
        }
        add_to(
            &mut self.locks,
            &mut self.holds,
            &mut self.order,
            alloc,
            ring,
            zeroth(held),
        )
    }

    /// Hands an open hold of client 0 to another client, with the same token. It is not an input: a start does it, before any. False if
    /// client 0 does not hold the lock with this token, or a client waits for it; nothing has changed then.
    pub fn hand(&mut self, handover: Handover) -> bool
        ensures yes { result ≡ true → IsHanded self.old self.new handover }
        ensures no { result ≡ false → CannotBeHanded self.old handover × (self.new ≡ self.old) }
    {
        hand_and_follow(&mut self.locks, &mut self.holds, handover)
    }

    /// The locks are right, and each has room for those who wait, at each moment: this does nothing, and says so.
    pub fn are_kept(&self)
        ensures { (entries : List (ℕ × ℕ)) × AreKept self.now entries }
    {
        self.locks.len(); // says: they are kept
    }

    /// How many locks there are.
    pub fn count(&self) -> u32
        ensures { result ≡ length self.now }
    {
        self.locks.len() as u32
    }

    /// The ring of a lock.
    pub fn ring(&self, lock: u32) -> &EndlessRing
        requires { lock < length self.now }
        ensures { (v : LockView) → slice_get self.now lock ≡ Some v → result.now ≡ v.ring }
    {
        &self.locks[lock as usize].ring
    }

    /// How many clients wait for a lock.
    pub fn waiters(&self, lock: u32) -> usize
        requires { lock < length self.now }
        ensures { (v : LockView) → slice_get self.now lock ≡ Some v → result ≡ length v.queue }
    {
        self.locks[lock as usize].queue.len()
    }

    /// The holder of a lock, if there is one.
    pub fn holder(&self, lock: u32) -> Option<Holder>
        requires { lock < length self.now }
        ensures { (v : LockView) → slice_get self.now lock ≡ Some v → result ≡ v.holder }
    {
        self.locks[lock as usize].holder
    }

    /// The client at this place of a lock's queue, which begins with place 0.
    pub fn waiter(&self, lock: u32, place: usize) -> Waiter
        requires { (v : LockView) × (slice_get self.now lock ≡ Some v) × (place < length v.queue) }
        ensures { (v : LockView) → slice_get self.now lock ≡ Some v
            → slice_get v.queue place ≡ Some result }
    {
        self.locks[lock as usize].queue[place]
    }

    /// The locks as they continue in the next segments of their rings: nothing of them changes. The history of such a segment has no
    /// event except the one that carries a hold that is open: a pass of a machine that is not privileged, whose order is the
    /// hold's token. It has room for a grant to each client that waits. These locks stay as they are.
    ///
    /// # Errors
    ///
    /// `Full` where no segment has room, `Memory`.
    pub fn next(&self, alloc: Global) -> Result<Locks, Refusal>
        ensures ok { IfOk result (λ next. AreNext self.now next) }
        ensures why { IfErr result (λ e. HaveNoNext self.now e) }
    {
        let locks = match next_locks(self.locks.as_slice(), alloc) {
            Ok(locks) => locks,
            Err(why) => return Err(why),
        };
        let Ok(waits) = self.waits.copy() else {
            return Err(Refusal::Memory);
        };
        let Ok(holds) = self.holds.copy(alloc) else {
            return Err(Refusal::Memory);
        };
        let Ok(order) = Vec::with_capacity(alloc, self.locks.len() + 1) else {
            return Err(Refusal::Memory);
        };
        Ok(Locks {
            locks,
            waits,
            holds,
            order,
        })
    }

    /// Answers what a client asks of one lock, as the call of its name does. It says too how many events the segment of the lock's
    /// ring had before, and has now.
    #[inline(always)]
    pub fn ask(&mut self, client: u64, lock: u32, ask: OneAsk) -> OneAnswer
        ensures answer { IsAnswerTo self.old self.new client lock (asked ask) result.answers }
        ensures before { result.before ≡ events_at (slice_get self.old lock) }
        ensures after { result.after ≡ events_at (slice_get self.new lock) }
    {
        if lock as usize >= self.locks.len() {
            return no_lock();
        }
        let before = events_of(&self.locks[lock as usize]);
        let answers = ask_among(&mut self.locks, &mut self.waits, client, lock, ask);
        follow(self.locks.as_slice(), &mut self.holds, lock);
        let after = events_of(&self.locks[lock as usize]);
        OneAnswer {
            answers,
            before,
            after,
        }
    }

    /// Acquires a lock for a client, with a label that the client chooses: it is granted at once if nobody holds the lock, or
    /// else the client waits, and is granted once, later, unless it cancels or leaves.
    ///
    /// Refused, the first that applies: `Lock`, `Holds`, `Waits`, `Circle`; `Full` or `Memory`. Nothing has changed then.
    #[inline(always)]
    pub fn acquire(&mut self, client: u64, lock: u32, label: u64) -> Answers
        ensures { IsAnswer self.old self.new client lock (Acquire label) result }
    {
        self.ask(client, lock, OneAsk::Acquire { label }).answers
    }

    /// The same, but a client does not wait: if somebody holds the lock, the answer is `Busy`.
    ///
    /// Refused, the first that applies: `Lock`, `Holds`, `Waits` for this lock; `Full`, `Memory`. Nothing has changed then.
    pub fn try_acquire(&mut self, client: u64, lock: u32, label: u64) -> Answers
        ensures { IsAnswer self.old self.new client lock (Try label) result }
    {
        self.ask(client, lock, OneAsk::Try { label }).answers
    }

    /// Ends the hold of a client with this token, and grants the head of the queue.
    ///
    /// Refused, the first that applies: `Lock`, `Holder`; `Full`, `Memory`. Nothing has changed then.
    #[inline(always)]
    pub fn release(&mut self, client: u64, lock: u32, token: u64) -> Answers
        ensures { IsDone self.old self.new client lock (Release token) result }
    {
        self.ask(client, lock, OneAsk::Release { token }).answers
    }

    /// Takes a client that waits out of the queue.
    ///
    /// Refused, the first that applies: `Lock`, `Waiter`. Nothing has changed then.
    pub fn cancel(&mut self, client: u64, lock: u32) -> Answers
        ensures { IsDone self.old self.new client lock Cancel result }
    {
        self.ask(client, lock, OneAsk::Cancel).answers
    }

    /// A client leaves all locks, one after the other: it goes out of the queue, or its hold ends and the head of the queue is
    /// granted. There is no answer to the client. For each lock that it held, `left` gets one more entry: that its
    /// hold has ended, and the client that is granted it next. This needs neither room nor memory.
    pub fn leave(&mut self, client: u64, left: &mut Vec<Left>)
        requires room { vec_len left.old + length self.old ≤ vec_capacity left.old }
        ensures left { (said : List Left)
            × (left.new.items ≡ left.old.items ++ said)
            × IsLeft self.old self.new client said }
        ensures capacity { vec_capacity left.new ≡ vec_capacity left.old }
    {
        leave_all(
            &mut self.locks,
            &mut self.waits,
            &mut self.holds,
            &mut self.order,
            client,
            left,
        );
    }

    /// A fault of a lock's ring: a value is written into a machine, and the ring is repaired at once. No hold ends.
    ///
    /// Refused, the first that applies: `Lock`, `Machine`, `Value`; `Full`, `Memory`. Nothing has changed then.
    pub fn corrupt(&mut self, client: u64, lock: u32, machine: u32, value: u32) -> Answers
        ensures { IsAnswer self.old self.new client lock (Corrupt machine value) result }
    {
        self.ask(client, lock, OneAsk::Corrupt { machine, value })
            .answers
    }

    /// How many machines the ring of a lock has, how many clients wait for it, how many passes of its ring were granted, and who
    /// holds it. Refused: `Lock`.
    pub fn stats(&self, lock: u32) -> Answers
        ensures { (client : ℕ) → IsDone self.now self.now client lock Stats result }
    {
        stats_of(self.locks.as_slice(), lock)
    }
}
