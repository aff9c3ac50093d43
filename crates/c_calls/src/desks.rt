//! Locks, and the grants to others that an input brought about.

ghost use Rattle.std.specs.Prelude.{◌≡◌, ◌≢◌, ◌+◌, ◌<◌, ◌≤◌, ◌++◌, [], true, false, length, IfOk, vec_len, vec_capacity};
ghost use Rattle.held_locks.specs.Locks.{Acquire, Try, Release, Cancel};
ghost use Rattle.c_calls.specs.Desks.{grant_at, grants_in, IsAsked, IsDoneAsk, IsDeskLeft, IsNextGrant, IsDeskCutReport};

use crate::codes::GRANTS_LEFT;
use crate::lock_answers::{Grant, lock_code};
use held_locks::{Answers, Holder, Left, Locks};
use std::alloc::{AllocError, Global};
use std::marker::Model;

/// Locks, and the grants to others that the last input brought about and that were not handed out. Contracts see both.
#[derive(Drop)]
pub struct LockDesk {
    locks: Locks,
    grants: Vec<Grant>,
    left: Vec<Left>,
}

impl Model for LockDesk {
    ghost use Rattle.std.specs.Prelude.{◌<◌, ◌≤◌, length, vec_capacity};
    ghost use Rattle.c_calls.specs.Desks.{DeskView};

    ghost Value = { DeskView };

    ghost view = { λ d. record { locks = d.locks; grants = d.grants.items } };

    ghost invariant = { λ d. (length d.locks < vec_capacity d.grants)
        × (length d.locks ≤ vec_capacity d.left) };
}

/// Appends the grant of a lock to others, if there is one.
#[inline(always)]
fn put(grants: &mut Vec<Grant>, lock: u32, granted: Option<Holder>)
    requires { vec_len grants.old < vec_capacity grants.old }
    ensures put { grants.new.items ≡ grants.old.items ++ grant_at lock granted }
    ensures len { vec_len grants.new ≤ vec_len grants.old + 1 }
    ensures capacity { vec_capacity grants.new ≡ vec_capacity grants.old }
{
    if let Some(holder) = granted {
        grants.push_reserved(Grant {
            client: holder.client,
            token: holder.token,
            lock,
        });
    }
}

/// Appends the grants that a leave brought about to others.
fn put_all(grants: &mut Vec<Grant>, left: &[Left])
    requires { vec_len grants.old + length left.now ≤ vec_capacity grants.old }
    ensures put { grants.new.items ≡ grants.old.items ++ grants_in left.now }
    ensures capacity { vec_capacity grants.new ≡ vec_capacity grants.old }
{
    for one in left {
        put(grants, one.lock, one.granted);
    }
}

/// Room for what may be granted by an input, and for what a leave reports, with this many locks.
fn room_for(alloc: Global, count: u32) -> Result<(Vec<Grant>, Vec<Left>), AllocError>
    ensures { IfOk result (λ r. (r.0.items ≡ [])
        × (count < vec_capacity r.0)
        × (count ≤ vec_capacity r.1)) }
{
    let count = count as usize;
    let grants = match Vec::with_capacity(alloc, count + 1) {
        Ok(grants) => grants,
        Err(error) => return Err(error),
    };
    match Vec::with_capacity(alloc, count) {
        Ok(left) => Ok((grants, left)),
        Err(error) => Err(error),
    }
}

/// A client acquires a lock, if no grants are left; a grant to another client is put among them.
#[inline(always)]
fn acquire_in(
    locks: &mut Locks,
    grants: &mut Vec<Grant>,
    client: u64,
    lock: u32,
    label: u64,
) -> Option<Answers>
    requires { length locks.old < vec_capacity grants.old }
    ensures asked { IsAsked (record { locks = locks.old; grants = grants.old.items })
        (record { locks = locks.new; grants = grants.new.items }) client lock (Acquire label)
        result }
    ensures capacity { vec_capacity grants.new ≡ vec_capacity grants.old }
    ensures many { length locks.new ≡ length locks.old }
{
    if !grants.is_empty() {
        return None;
    }
    let answers = locks.acquire(client, lock, label);
    put(grants, lock, answers.granted);
    Some(answers)
}

/// The same, but it does not wait.
#[inline(always)]
fn try_in(
    locks: &mut Locks,
    grants: &mut Vec<Grant>,
    client: u64,
    lock: u32,
    label: u64,
) -> Option<Answers>
    requires { length locks.old < vec_capacity grants.old }
    ensures asked { IsAsked (record { locks = locks.old; grants = grants.old.items })
        (record { locks = locks.new; grants = grants.new.items }) client lock (Try label) result }
    ensures capacity { vec_capacity grants.new ≡ vec_capacity grants.old }
    ensures many { length locks.new ≡ length locks.old }
{
    if !grants.is_empty() {
        return None;
    }
    let answers = locks.try_acquire(client, lock, label);
    put(grants, lock, answers.granted);
    Some(answers)
}

/// A client releases a lock, if no grants are left; the grant to the next client is put among them.
#[inline(always)]
fn release_in(
    locks: &mut Locks,
    grants: &mut Vec<Grant>,
    client: u64,
    lock: u32,
    token: u64,
) -> Option<Answers>
    requires { length locks.old < vec_capacity grants.old }
    ensures asked { IsDoneAsk (record { locks = locks.old; grants = grants.old.items })
        (record { locks = locks.new; grants = grants.new.items }) client lock (Release token)
        result }
    ensures capacity { vec_capacity grants.new ≡ vec_capacity grants.old }
    ensures many { length locks.new ≡ length locks.old }
{
    if !grants.is_empty() {
        return None;
    }
    let answers = locks.release(client, lock, token);
    put(grants, lock, answers.granted);
    Some(answers)
}

/// A client waits no more.
#[inline(always)]
fn cancel_in(locks: &mut Locks, grants: &mut Vec<Grant>, client: u64, lock: u32) -> Option<Answers>
    requires { length locks.old < vec_capacity grants.old }
    ensures asked { IsDoneAsk (record { locks = locks.old; grants = grants.old.items })
        (record { locks = locks.new; grants = grants.new.items }) client lock Cancel result }
    ensures capacity { vec_capacity grants.new ≡ vec_capacity grants.old }
    ensures many { length locks.new ≡ length locks.old }
{
    if !grants.is_empty() {
        return None;
    }
    let answers = locks.cancel(client, lock);
    put(grants, lock, answers.granted);
    Some(answers)
}

/// The client leaves all locks, if no grants are left; the grants that follow are put among them: whether it left.
fn leave_in(locks: &mut Locks, grants: &mut Vec<Grant>, left: &mut Vec<Left>, client: u64) -> bool
    requires grants { length locks.old < vec_capacity grants.old }
    requires left { length locks.old ≤ vec_capacity left.old }
    ensures left { result ≡ true
        → IsDeskLeft (record { locks = locks.old; grants = grants.old.items })
        (record { locks = locks.new; grants = grants.new.items }) client }
    ensures not { result ≡ false
        → (grants.old.items ≢ [])
        × (locks.new ≡ locks.old)
        × (grants.new.items ≡ grants.old.items) }
    ensures grants { vec_capacity grants.new ≡ vec_capacity grants.old }
    ensures room { vec_capacity left.new ≡ vec_capacity left.old }
    ensures many { length locks.new ≡ length locks.old }
{
    if !grants.is_empty() {
        return false;
    }
    left.clear();
    locks.leave(client, left);
    put_all(grants, left.as_slice());
    true
}

/// The locks continue in new segments of their histories, if no grants are left: the code.
fn cut_in(locks: &mut Locks, grants: &Vec<Grant>, alloc: Global) -> u32
    ensures is { IsDeskCutReport (record { locks = locks.old; grants = grants.now.items })
        (record { locks = locks.new; grants = grants.now.items }) result }
    ensures many { length locks.new ≡ length locks.old }
{
    if !grants.is_empty() {
        return GRANTS_LEFT;
    }
    match locks.next(alloc) {
        Ok(next) => {
            *locks = next;
            0
        }
        Err(why) => lock_code(why),
    }
}

impl LockDesk {
    /// These locks, with no grants.
    pub(crate) fn of(alloc: Global, locks: Locks) -> Result<LockDesk, AllocError>
        ensures { IfOk result (λ d. d ≡ record { locks = locks; grants = [] }) }
    {
        match room_for(alloc, locks.count()) {
            Ok((grants, left)) => Ok(LockDesk {
                locks,
                grants,
                left,
            }),
            Err(error) => Err(error),
        }
    }

    /// A client acquires a lock, if no grants are left.
    #[inline(always)]
    pub fn acquire(&mut self, client: u64, lock: u32, label: u64) -> Option<Answers>
        ensures { IsAsked self.old self.new client lock (Acquire label) result }
    {
        acquire_in(&mut self.locks, &mut self.grants, client, lock, label)
    }

    /// The same, but it does not wait.
    pub fn try_acquire(&mut self, client: u64, lock: u32, label: u64) -> Option<Answers>
        ensures { IsAsked self.old self.new client lock (Try label) result }
    {
        try_in(&mut self.locks, &mut self.grants, client, lock, label)
    }

    /// A client releases a lock.
    #[inline(always)]
    pub fn release(&mut self, client: u64, lock: u32, token: u64) -> Option<Answers>
        ensures { IsDoneAsk self.old self.new client lock (Release token) result }
    {
        release_in(&mut self.locks, &mut self.grants, client, lock, token)
    }

    /// A client waits no more.
    pub fn cancel(&mut self, client: u64, lock: u32) -> Option<Answers>
        ensures { IsDoneAsk self.old self.new client lock Cancel result }
    {
        cancel_in(&mut self.locks, &mut self.grants, client, lock)
    }

    /// A client leaves all locks: whether it did.
    pub fn leave(&mut self, client: u64) -> bool
        ensures left { result ≡ true → IsDeskLeft self.old self.new client }
        ensures not { result ≡ false → (self.old.grants ≢ []) × (self.new ≡ self.old) }
    {
        leave_in(&mut self.locks, &mut self.grants, &mut self.left, client)
    }

    /// The locks continue in new segments of their histories, if no grants are left: the code.
    pub fn cut(&mut self, alloc: Global) -> u32
        ensures { IsDeskCutReport self.old self.new result }
    {
        cut_in(&mut self.locks, &self.grants, alloc)
    }

    /// A grant that was not handed out.
    pub fn next(&mut self) -> Option<Grant>
        ensures { IsNextGrant self.old self.new result }
    {
        self.grants.pop()
    }
}
