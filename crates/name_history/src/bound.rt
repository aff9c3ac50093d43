//! How a ring was bound to a name.

ghost use Rattle.std.specs.Prelude.{◌≡◌, IfOk};

use std::alloc::{AllocError, Global};
use std::marker::Model;

/// How a ring was bound to a name. Contracts see the numbers and the bytes of the name.
#[derive(Drop)]
pub struct Bound {
    before: u64,
    floor: u64,
    name: Vec<u8>,
}

impl Model for Bound {
    ghost use Rattle.name_remarks.specs.Remarks.{Binding};

    ghost Value = { Binding };

    ghost view = { λ b. record { before = b.before; floor = b.floor; name = b.name.items } };
}

impl Bound {
    /// A binding, with the name in memory of its own.
    pub(crate) fn new(
        alloc: Global,
        before: u64,
        floor: u64,
        name: &[u8],
    ) -> Result<Bound, AllocError>
        ensures { IfOk result
            (λ b. b ≡ record { before = before; floor = floor; name = name.now }) }
    {
        let mut copy = Vec::new(alloc);
        copy.extend_from_slice(name)?;
        Ok(Bound {
            before,
            floor,
            name: copy,
        })
    }

    /// How many grants of the ring there were before.
    pub fn before(&self) -> u64
        ensures { result ≡ self.now.before }
    {
        self.before
    }

    /// How many grants of all rings there were before.
    pub fn floor(&self) -> u64
        ensures { result ≡ self.now.floor }
    {
        self.floor
    }

    /// The name.
    pub fn name(&self) -> &[u8]
        ensures { result.now ≡ self.now.name }
    {
        self.name.as_slice()
    }
}
