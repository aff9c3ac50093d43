//! The queue of a lock: the clients that wait for it.

ghost use Rattle.std.specs.Prelude.{◌≡◌, ◌∷◌, [], List, MatchOption};
ghost use Rattle.held_locks.specs.declared.answers.Waiter.{Waiter};
ghost use Rattle.held_locks.specs.Queues.{without};

use crate::answers::Waiter;
use std::collections::VecDeque;

/// The head of the queue, if a client is in it.
pub(crate) fn head(queue: &VecDeque<Waiter>) -> Option<Waiter>
    ensures { MatchOption result (queue.now.items ≡ [])
        (λ w. (others : List Waiter) × (queue.now.items ≡ w ∷ others)) }
{
    queue.front().copied()
}

/// The head of the queue goes.
pub(crate) fn take_head(queue: &mut VecDeque<Waiter>) -> Option<Waiter>
    ensures { MatchOption result ((queue.old.items ≡ []) × (queue.new.items ≡ []))
        (λ w. queue.old.items ≡ w ∷ queue.new.items) }
{
    queue.pop_front()
}

/// The client goes.
pub(crate) fn leave(queue: &mut VecDeque<Waiter>, client: u64)
    ensures { queue.new.items ≡ without client queue.old.items }
{
    queue.retain(|waiter| waiter.client != client);
}
