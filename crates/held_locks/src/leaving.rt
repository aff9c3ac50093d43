//! A client leaves all locks.

ghost use Rattle.std.specs.Prelude.{◌≡◌, ◌+◌, ◌-◌, ◌<◌, ◌≤◌, ◌++◌, List, ℕ, length, None, vec_len, vec_capacity};
ghost use Rattle.held_locks.specs.declared.answers.Answers.{Answers};
ghost use Rattle.held_locks.specs.declared.answers.Left.{Left};
ghost use Rattle.held_locks.specs.Locks.{Leave};
ghost use Rattle.held_locks.specs.Kept.{LockView, AreKept, IsDone, left_by, IsLeft};
ghost use Rattle.held_locks.specs.Parts.{views_of};
ghost use Rattle.held_locks.specs.Holding.{with_awaited, AreHolders, AreLocksOf};

use crate::answers::{Answers, HoldEnd, Holder, Left};
use crate::asks;
use crate::holds::{Holds, follow};
use crate::locks::stands_at;
use crate::parts::LockParts;
use crate::waits::Waits;

/// A client leaves one lock.
fn leave_among(locks: &mut Vec<LockParts>, waits: &mut Waits, client: u64, lock: u32) -> Answers
    requires kept { AreKept (views_of locks.old.items) waits.old }
    requires lock { lock < length locks.old.items }
    ensures done { IsDone (views_of locks.old.items) (views_of locks.new.items) client lock
        Leave result × AreKept (views_of locks.new.items) waits.new }
    ensures own { result.own ≡ None }
    ensures many { length locks.new.items ≡ length locks.old.items }
{
    let waiting = stands_at(locks, waits, client, lock);
    asks::leave(&mut locks[lock as usize], waits, lock, client, waiting)
}

/// The same, and it is noted who holds the lock then.
fn leave_and_follow(
    locks: &mut Vec<LockParts>,
    waits: &mut Waits,
    holds: &mut Holds,
    client: u64,
    lock: u32,
) -> Answers
    requires kept { AreKept (views_of locks.old.items) waits.old }
    requires holders { AreHolders (views_of locks.old.items) holds.old }
    requires lock { lock < length locks.old.items }
    ensures done { IsDone (views_of locks.old.items) (views_of locks.new.items) client lock
        Leave result }
    ensures kept { AreKept (views_of locks.new.items) waits.new }
    ensures holders { AreHolders (views_of locks.new.items) holds.new }
    ensures own { result.own ≡ None }
    ensures many { length locks.new.items ≡ length locks.old.items }
{
    let answers = leave_among(locks, waits, client, lock);
    follow(locks, holds, lock);
    answers
}

/// Reports that a hold of this lock has ended, if one has.
fn tell(left: &mut Vec<Left>, lock: u32, ended: Option<HoldEnd>, granted: Option<Holder>)
    requires { vec_len left.old < vec_capacity left.old }
    ensures told { left.new.items ≡ left.old.items ++ left_by lock ended granted }
    ensures len { vec_len left.new ≤ vec_len left.old + 1 }
    ensures capacity { vec_capacity left.new ≡ vec_capacity left.old }
{
    if let Some(ended) = ended {
        left.push_reserved(Left {
            lock,
            ended,
            granted,
        });
    }
}

/// Appends the lock for which a client waits, if there is one.
fn add_awaited(order: &mut Vec<usize>, awaited: Option<u32>)
    requires { vec_len order.old < vec_capacity order.old }
    ensures items { order.new.items ≡ with_awaited order.old.items awaited }
    ensures capacity { vec_capacity order.new ≡ vec_capacity order.old }
{
    if let Some(lock) = awaited {
        order.push_reserved(lock as usize);
    }
}

/// Lists the locks that a client holds or waits for, in rising order.
fn list(waits: &Waits, holds: &Holds, client: u64, order: &mut Vec<usize>)
    requires { length holds.now < vec_capacity order.old }
    ensures listed { (vs : List LockView) → AreKept vs waits.now → AreHolders vs holds.now
        → AreLocksOf client vs order.new.items }
    ensures capacity { vec_capacity order.new ≡ vec_capacity order.old }
{
    order.clear();
    holds.find(client, order);
    add_awaited(order, waits.get(client));
    order.sort_unstable();
}

/// A client leaves these locks, one after the other. What it held is appended to what is there.
fn leave_each(
    locks: &mut Vec<LockParts>,
    waits: &mut Waits,
    holds: &mut Holds,
    order: &[usize],
    client: u64,
    left: &mut Vec<Left>,
)
    requires kept { AreKept (views_of locks.old.items) waits.old }
    requires holders { AreHolders (views_of locks.old.items) holds.old }
    requires listed { AreLocksOf client (views_of locks.old.items) order.now }
    requires room { vec_len left.old + length locks.old.items ≤ vec_capacity left.old }
    ensures left { (said : List Left)
        × (left.new.items ≡ left.old.items ++ said)
        × IsLeft (views_of locks.old.items) (views_of locks.new.items) client said }
    ensures kept { AreKept (views_of locks.new.items) waits.new }
    ensures holders { AreHolders (views_of locks.new.items) holds.new }
    ensures many { length locks.new.items ≡ length locks.old.items }
    ensures capacity { vec_capacity left.new ≡ vec_capacity left.old }
{
    for place in order {
        let lock = *place as u32;
        let answers = leave_and_follow(locks, waits, holds, client, lock);
        tell(left, lock, answers.ended, answers.granted);
    }
}

/// A client leaves all locks, one after the other. Of those that it neither holds nor waits for nothing has to be done.
pub(crate) fn leave_all(
    locks: &mut Vec<LockParts>,
    waits: &mut Waits,
    holds: &mut Holds,
    order: &mut Vec<usize>,
    client: u64,
    left: &mut Vec<Left>,
)
    requires kept { AreKept (views_of locks.old.items) waits.old }
    requires holders { AreHolders (views_of locks.old.items) holds.old }
    requires order { length locks.old.items ≤ vec_capacity order.old - 1 }
    requires room { vec_len left.old + length locks.old.items ≤ vec_capacity left.old }
    ensures left { (said : List Left)
        × (left.new.items ≡ left.old.items ++ said)
        × IsLeft (views_of locks.old.items) (views_of locks.new.items) client said }
    ensures kept { AreKept (views_of locks.new.items) waits.new }
    ensures holders { AreHolders (views_of locks.new.items) holds.new }
    ensures order { length locks.new.items ≤ vec_capacity order.new - 1 }
    ensures capacity { vec_capacity left.new ≡ vec_capacity left.old }
{
    if locks.is_empty() {
        return;
    }
    list(waits, holds, client, order);
    leave_each(locks, waits, holds, order.as_slice(), client, left);
}
