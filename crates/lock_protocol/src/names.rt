//! The names of the locks of a list.

ghost use Rattle.std.specs.Prelude.{◌≡◌, [], ◌∷◌, ◌++◌, length, IfOk, IfErr};
ghost use Rattle.lock_protocol.specs.Names.{lock_named, name_of};
ghost use Rattle.lock_protocol.specs.Tables.{IsNotAdded};

use crate::name_reading::is_name;
use held_locks::LOCK_LIMIT;
use std::alloc::{AllocError, Global};
use std::collections::HashMap;
use std::marker::Model;

/// The names of the locks of a list, by their numbers, and the number of each name.
#[derive(Drop)]
pub struct LockNames {
    names: Vec<Vec<u8>>,
    numbers: HashMap<Vec<u8>, u32>,
}

impl Model for LockNames {
    ghost use Rattle.std.specs.Prelude.{◌≤◌, length, map};
    ghost use Rattle.held_locks.specs.Kept.{lock_limit};
    ghost use Rattle.lock_protocol.specs.Names.{Names, AreNames};
    ghost use Rattle.lock_protocol.specs.Tables.{HasNumbers};

    ghost Value = { Names };

    ghost view = { λ t. map (λ v. v.items) t.names.items };

    ghost invariant = { λ t. AreNames (map (λ v. v.items) t.names.items)
        × HasNumbers t.numbers (λ k. k.items) (map (λ v. v.items) t.names.items)
        × (length t.names.items ≤ lock_limit) };
}

/// Why a name is not added to the names of a list.
#[derive(Clone, Copy, Debug, PartialEq, Eq)]
pub enum NameFault {
    /// No lock has such a name.
    NoName,
    /// Another lock of the list has it.
    Twice,
    /// There are as many as there may be locks.
    Many,
    OutOfMemory,
}

/// A name in memory of its own.
fn copied(alloc: Global, name: &[u8]) -> Result<Vec<u8>, AllocError>
    ensures { IfOk result (λ copy. copy.items ≡ name.now) }
{
    let mut copy = Vec::new(alloc);
    copy.extend_from_slice(name)?;
    Ok(copy)
}

impl LockNames {
    /// No names.
    pub fn none(alloc: Global) -> LockNames
        ensures { result ≡ [] }
    {
        LockNames {
            names: Vec::new(alloc),
            numbers: HashMap::new(alloc),
        }
    }

    /// The names with one more, which is that of the next lock.
    ///
    /// # Errors
    ///
    /// `NoName`, `Many`, `Twice`, `OutOfMemory`. The names are let go then.
    pub fn with(self, alloc: Global, name: &[u8]) -> Result<LockNames, NameFault>
        ensures ok { IfOk result (λ more. more ≡ self ++ name.now ∷ []) }
        ensures err { IfErr result (λ why. IsNotAdded self name.now why) }
    {
        if !is_name(name) {
            return Err(NameFault::NoName);
        }
        let LockNames {
            mut names,
            mut numbers,
        } = self;
        let lock = names.len();
        if lock >= LOCK_LIMIT {
            return Err(NameFault::Many);
        }
        let Ok(key) = copied(alloc, name) else {
            return Err(NameFault::OutOfMemory);
        };
        match numbers.insert(key, lock as u32) {
            Ok(None) => {}
            Ok(Some(_)) => return Err(NameFault::Twice),
            Err(_) => return Err(NameFault::OutOfMemory),
        }
        let Ok(kept) = copied(alloc, name) else {
            return Err(NameFault::OutOfMemory);
        };
        match names.push(kept) {
            Ok(()) => Ok(LockNames { names, numbers }),
            Err(_) => Err(NameFault::OutOfMemory),
        }
    }

    /// How many names there are.
    pub fn count(&self) -> u32
        ensures { result ≡ length self.now }
    {
        self.names.len() as u32
    }

    /// The number of the lock of this name, if there is one.
    pub fn find(&self, name: &[u8]) -> Option<u32>
        ensures { result ≡ lock_named self.now name.now }
    {
        self.numbers.get(name).copied()
    }

    /// The name of the lock of this number; nothing, if there is none.
    pub fn name(&self, lock: u32) -> &[u8]
        ensures { result.now ≡ name_of self.now lock }
    {
        let place = lock as usize;
        if place >= self.names.len() {
            return &[];
        }
        self.names[place].as_slice()
    }
}
