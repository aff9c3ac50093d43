//! Wrong answers to who acquires a lock, and of a fault.

ghost use Rattle.std.specs.Prelude.{IfSome};
ghost use Rattle.held_locks.specs.Locks.{Acquire, Corrupt};
ghost use Rattle.held_locks.specs.Kept.{IsAnswer};
ghost use Rattle.held_locks.specs.Asked.{asked, IsAnswerTo};
ghost use Rattle.held_locks.specs.declared.asks.OneAsk.TheVariants as one;

use held_locks::{Answer, Answers, HoldEnd, Locks, OneAsk, Refusal};

/// A client that asks while another holds the lock waits: here it is granted the lock. It gives up unless the client waits.
pub fn grants_while_somebody_holds(
    locks: &mut Locks,
    client: u64,
    lock: u32,
    label: u64,
    token: u64,
) -> Option<Answers>
    ensures wrong { IfSome result
        (λ r. IsAnswer locks.old locks.new client lock (Acquire label) r → ⊥) }
{
    let answers = locks.acquire(client, lock, label);
    match answers.own {
        Some(Answer::Waiting(_)) => Some(Answers {
            own: Some(Answer::Granted(token)),
            ended: answers.ended,
            granted: answers.granted,
        }),
        _ => None,
    }
}

/// A token is the number of the grant: here it is another number, such as that of a place in the line. It gives up unless the
/// client is granted the lock, with another token.
pub fn grants_with_another_token(
    locks: &mut Locks,
    client: u64,
    lock: u32,
    label: u64,
    token: u64,
) -> Option<Answers>
    ensures wrong { IfSome result
        (λ r. IsAnswer locks.old locks.new client lock (Acquire label) r → ⊥) }
{
    let answers = locks.acquire(client, lock, label);
    match answers.own {
        Some(Answer::Granted(right)) if right != token => Some(Answers {
            own: Some(Answer::Granted(token)),
            ended: answers.ended,
            granted: answers.granted,
        }),
        _ => None,
    }
}

/// A client that would wait for itself is refused: here it waits. It gives up unless there is a circle.
pub fn lets_a_circle_in(
    locks: &mut Locks,
    client: u64,
    lock: u32,
    label: u64,
    before: u64,
) -> Option<Answers>
    ensures wrong { IfSome result
        (λ r. IsAnswer locks.old locks.new client lock (Acquire label) r → ⊥) }
{
    let answers = locks.acquire(client, lock, label);
    match answers.own {
        Some(Answer::Refused(Refusal::Circle)) => Some(Answers {
            own: Some(Answer::Waiting(before)),
            ended: answers.ended,
            granted: answers.granted,
        }),
        _ => None,
    }
}

/// A fault ends no hold: here one is said to have ended. It gives up unless the fault was made.
pub fn ends_a_hold_by_a_fault(
    locks: &mut Locks,
    client: u64,
    lock: u32,
    machine: u32,
    value: u32,
    end: HoldEnd,
) -> Option<Answers>
    ensures wrong { IfSome result
        (λ r. IsAnswer locks.old locks.new client lock (Corrupt machine value) r → ⊥) }
{
    let answers = locks.corrupt(client, lock, machine, value);
    match (answers.own, answers.ended) {
        (Some(Answer::Corrupted(_)), None) => Some(Answers {
            own: answers.own,
            ended: Some(end),
            granted: answers.granted,
        }),
        _ => None,
    }
}

/// An ask is answered as the call that it names: here a client that waits no more is answered that it did not wait. It gives
/// up unless the client waited.
pub fn denies_that_the_client_waited(locks: &mut Locks, client: u64, lock: u32) -> Option<Answers>
    ensures wrong { IfSome result
        (λ r. IsAnswerTo locks.old locks.new client lock (asked one.Cancel) r → ⊥) }
{
    let answers = locks.ask(client, lock, OneAsk::Cancel).answers;
    match answers.own {
        Some(Answer::Cancelled) => Some(Answers {
            own: Some(Answer::Refused(Refusal::Waiter)),
            ended: answers.ended,
            granted: answers.granted,
        }),
        _ => None,
    }
}
