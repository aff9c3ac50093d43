//! Wrong ends of holds.

ghost use Rattle.std.specs.Prelude.{◌≡◌, ◌+◌, ◌≤◌, true, Some, slice_get, [], length, IfSome, vec_len, vec_capacity};
ghost use Rattle.held_locks.specs.Locks.{Release, Cancel};
ghost use Rattle.held_locks.specs.Queues.{stands};
ghost use Rattle.held_locks.specs.Kept.{LockView, IsDone, IsLeft};

use held_locks::{Answer, Answers, Holder, Left, Locks, Refusal};

/// Only the token of a hold ends it: here a client with another one is answered that it has ended. It gives up unless the release is
/// refused.
pub fn releases_with_an_old_token(
    locks: &mut Locks,
    client: u64,
    lock: u32,
    token: u64,
) -> Option<Answers>
    ensures wrong { IfSome result
        (λ r. IsDone locks.old locks.new client lock (Release token) r → ⊥) }
{
    let answers = locks.release(client, lock, token);
    match answers.own {
        Some(Answer::Refused(Refusal::Holder)) => Some(Answers {
            own: Some(Answer::Released),
            ended: answers.ended,
            granted: answers.granted,
        }),
        _ => None,
    }
}

/// After the end of a hold the head of the line is granted: here nobody is. It gives up if nobody waits.
pub fn forgets_a_waiter(locks: &mut Locks, client: u64, lock: u32, token: u64) -> Option<Answers>
    ensures wrong { IfSome result
        (λ r. IsDone locks.old locks.new client lock (Release token) r → ⊥) }
{
    let answers = locks.release(client, lock, token);
    match answers.granted {
        Some(_) => Some(Answers {
            own: answers.own,
            ended: answers.ended,
            granted: None,
        }),
        None => None,
    }
}

/// The head of the line is granted: here another client is, such as the one after it. It gives up if nobody waits, or this client
/// is the head.
pub fn skips_the_head_of_the_queue(
    locks: &mut Locks,
    client: u64,
    lock: u32,
    token: u64,
    other: u64,
) -> Option<Answers>
    ensures wrong { IfSome result
        (λ r. IsDone locks.old locks.new client lock (Release token) r → ⊥) }
{
    let answers = locks.release(client, lock, token);
    match answers.granted {
        Some(holder) if holder.client != other => Some(Answers {
            own: answers.own,
            ended: answers.ended,
            granted: Some(Holder {
                client: other,
                token: holder.token,
            }),
        }),
        _ => None,
    }
}

/// The end of a hold is reported to the keeper of the journal: here it is not. It gives up unless a hold has ended.
pub fn records_no_end(locks: &mut Locks, client: u64, lock: u32, token: u64) -> Option<Answers>
    ensures wrong { IfSome result
        (λ r. IsDone locks.old locks.new client lock (Release token) r → ⊥) }
{
    let answers = locks.release(client, lock, token);
    match answers.ended {
        Some(_) => Some(Answers {
            own: answers.own,
            ended: None,
            granted: answers.granted,
        }),
        None => None,
    }
}

/// A leave reports each lock that the client held: here one of them is left out. It gives up if the client held none.
pub fn leaves_out_a_lock(locks: &mut Locks, client: u64, left: &mut Vec<Left>) -> Option<Left>
    requires room { vec_len left.old + length locks.old ≤ vec_capacity left.old }
    requires none { left.old.items ≡ [] }
    ensures wrong { IfSome result (λ _. IsLeft locks.old locks.new client left.new.items → ⊥) }
{
    locks.leave(client, left);
    left.pop()
}

/// A client that cancels leaves the queue: here it is answered so, and stays there.
pub fn cancels_nobody(locks: &Locks, client: u64, lock: u32) -> Answers
    requires there { (v : LockView)
        × (slice_get locks.now lock ≡ Some v)
        × (stands client v.queue ≡ true) }
    ensures wrong { IsDone locks.now locks.now client lock Cancel result → ⊥ }
{
    Answers {
        own: Some(Answer::Cancelled),
        ended: None,
        granted: None,
    }
}
