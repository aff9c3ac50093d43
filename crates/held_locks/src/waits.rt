//! For which lock each client waits.

ghost use Rattle.std.specs.Prelude.{◌≡◌, ℕ, ◌==◌, cond, Some, None, IfOk, OnOk, OnErr};
ghost use Rattle.held_locks.specs.Waiting.{lock_in};

use std::alloc::{AllocError, Global};
use std::collections::HashMap;
use std::marker::Model;

/// The number of the lock for which a client waits. Contracts see the entries.
#[derive(Drop)]
pub(crate) struct Waits {
    locks: HashMap<u64, u32>,
}

impl Model for Waits {
    ghost use Rattle.std.specs.Prelude.{ℕ, List};

    ghost Value = { List (ℕ × ℕ) };

    ghost view = { λ w. w.locks.entries };
}

impl Waits {
    /// Nobody waits.
    pub(crate) fn new(alloc: Global) -> Waits
        ensures { (c : ℕ) → lock_in result c ≡ None }
    {
        Waits {
            locks: HashMap::new(alloc),
        }
    }

    /// The lock for which this client waits.
    pub(crate) fn get(&self, client: u64) -> Option<u32>
        ensures { result ≡ lock_in self.now client }
    {
        self.locks.get(&client).copied()
    }

    /// The same, in memory of its own.
    pub(crate) fn copy(&self) -> Result<Waits, AllocError>
        ensures { IfOk result (λ copy. copy ≡ self.now) }
    {
        let Ok(locks) = self.locks.clone() else {
            return Err(AllocError);
        };
        Ok(Waits { locks })
    }

    /// The client waits for this lock from now on.
    pub(crate) fn begin(&mut self, client: u64, lock: u32) -> Result<(), AllocError>
        ensures ok { OnOk result ((c : ℕ)
            → lock_in self.new c ≡ cond (client == c) (Some lock) (lock_in self.old c)) }
        ensures err { OnErr result (self.new ≡ self.old) }
    {
        self.locks.insert(client, lock)?;
        Ok(())
    }

    /// The client waits for nothing any more.
    pub(crate) fn end(&mut self, client: u64)
        ensures { (c : ℕ) → lock_in self.new c ≡ cond (client == c) None (lock_in self.old c) }
    {
        self.locks.remove(&client);
    }
}
