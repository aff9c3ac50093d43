//! Which client holds each lock.

ghost use Rattle.std.specs.Prelude.{◌≡◌, ◌<◌, ◌≤◌, ◌++◌, ◌∷◌, [], List, length, slice_set, None, IfOk, OnOk, OnErr, vec_capacity};
ghost use Rattle.held_locks.specs.Kept.{LockView};
ghost use Rattle.held_locks.specs.Parts.{views_of};
ghost use Rattle.held_locks.specs.Queues.{client_of};
ghost use Rattle.held_locks.specs.Holding.{AreFound, AreHolders, IsSameBut};

use crate::answers::Holder;
use crate::chains;
use crate::parts::LockParts;
use std::alloc::{AllocError, Global};
use std::marker::Model;

/// Which client holds each lock, if one does. The locks of a client are found without a look at the others: it takes memory only
/// when a lock is added. Contracts see the clients.
#[derive(Drop)]
pub(crate) struct Holds {
    clients: Vec<Option<u64>>,
    next: Vec<usize>,
    previous: Vec<usize>,
}

impl Model for Holds {
    ghost use Rattle.std.specs.Prelude.{ℕ, List, Option};
    ghost use Rattle.held_locks.specs.Holding.{chain_count, AreChained};

    ghost Value = { List (Option ℕ) };

    ghost view = { λ h. h.clients.items };

    ghost invariant = { λ h. AreChained chain_count h.next.items h.previous.items h.clients.items };
}

impl Holds {
    /// No locks.
    pub(crate) fn new(alloc: Global) -> Holds
        ensures { result ≡ [] }
    {
        Holds {
            clients: Vec::new(alloc),
            next: Vec::new(alloc),
            previous: Vec::new(alloc),
        }
    }

    /// A lock more, which nobody holds.
    pub(crate) fn add(&mut self) -> Result<(), AllocError>
        ensures ok { OnOk result (self.new ≡ self.old ++ None ∷ []) }
        ensures err { OnErr result (self.new ≡ self.old) }
    {
        chains::add(&mut self.next, &mut self.previous, &mut self.clients)
    }

    /// The lock is held by this client, or by nobody, from now on.
    #[inline(always)]
    pub(crate) fn put(&mut self, lock: usize, client: Option<u64>)
        requires { lock < length self.old }
        ensures { self.new ≡ slice_set self.old lock client }
    {
        // Most asks of a lock that is held leave it with its holder.
        if self.clients[lock] == client {
            return;
        }
        chains::put(
            &mut self.next,
            &mut self.previous,
            &mut self.clients,
            lock,
            client,
        );
    }

    /// The locks that a client holds, after nothing.
    pub(crate) fn find(&self, client: u64, found: &mut Vec<usize>)
        requires empty { found.old.items ≡ [] }
        requires room { length self.now ≤ vec_capacity found.old }
        ensures found { AreFound self.now client found.new.items }
        ensures capacity { vec_capacity found.new ≡ vec_capacity found.old }
    {
        chains::find(&self.next, &self.clients, client, found);
    }

    /// The same, in memory of its own.
    pub(crate) fn copy(&self, alloc: Global) -> Result<Holds, AllocError>
        ensures { IfOk result (λ copy. copy ≡ self.now) }
    {
        let Ok(clients) = Vec::from_slice(alloc, self.clients.as_slice()) else {
            return Err(AllocError);
        };
        let Ok(next) = Vec::from_slice(alloc, self.next.as_slice()) else {
            return Err(AllocError);
        };
        let Ok(previous) = Vec::from_slice(alloc, self.previous.as_slice()) else {
            return Err(AllocError);
        };
        Ok(Holds {
            clients,
            next,
            previous,
        })
    }
}

/// The client that holds.
#[inline(always)]
pub(crate) fn client_of(holder: Option<Holder>) -> Option<u64>
    ensures { result ≡ client_of holder }
{
    match holder {
        Some(holder) => Some(holder.client),
        None => None,
    }
}

/// Notes which client holds this lock, the only one that has changed.
pub(crate) fn follow(locks: &[LockParts], holds: &mut Holds, lock: u32)
    requires { length holds.old ≡ length locks.now }
    ensures { (vs : List LockView) → IsSameBut lock vs (views_of locks.now)
        → AreHolders vs holds.old → AreHolders (views_of locks.now) holds.new }
{
    let place = lock as usize;
    if place >= locks.len() {
        return;
    }
    holds.put(place, client_of(locks[place].holder));
}
