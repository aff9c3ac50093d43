//! What the lines of a segment record of the names of a folder.

ghost use Rattle.std.specs.Prelude.{◌≡◌, ◌<◌, ◌≤◌, ◌⊎◌, None, Some, length, slice_set, replicate, IfOk, IfErr, OnOk};
ghost use Rattle.std.specs.Option.{option_map};
ghost use Rattle.name_remarks.specs.declared.recorded.NotTaken.{NotTaken};
ghost use Rattle.name_remarks.specs.Bindings.{nothing, after, bound_at, IsAmong, IsNotHeard, IsTakenIn, IsNotTakenIn};
ghost use Rattle.name_remarks.specs.Views.{seen};

use crate::reading::read_name_remark;
use crate::remarks::{Misspelled, NameRemark};
use std::alloc::{AllocError, Global};
use std::marker::Model;

/// How a ring is bound to a name. Contracts see the numbers and the bytes of the name.
#[derive(Drop)]
pub struct Bound {
    before: u64,
    floor: u64,
    name: Vec<u8>,
}

impl Model for Bound {
    ghost use Rattle.name_remarks.specs.Remarks.{Binding};

    ghost Value = { Binding };

    ghost view = { λ b. record { before = b.before; floor = b.floor; name = b.name.items } };
}

impl Bound {
    /// How many grants of the ring there were before.
    pub fn before(&self) -> u64
        ensures { result ≡ self.now.before }
    {
        self.before
    }

    /// How many grants of all rings there were before.
    pub fn floor(&self) -> u64
        ensures { result ≡ self.now.floor }
    {
        self.floor
    }

    /// The name.
    pub fn name(&self) -> &[u8]
        ensures { result.now ≡ self.now.name }
    {
        self.name.as_slice()
    }
}

/// Why a line is not taken in.
#[derive(Clone, Copy, Debug, PartialEq, Eq)]
pub enum NotTaken {
    /// It begins as a remark about names, and is not one.
    Misspelled,
    /// There is no ring with this number.
    Ring,
    OutOfMemory,
}

/// What lines record of the names of a folder: how many grants there were of all rings, if a line
/// says so, and how each ring is bound.
#[derive(Drop)]
pub struct Recorded {
    top: Option<u64>,
    rings: Vec<Option<Bound>>,
}

impl Model for Recorded {
    ghost use Rattle.std.specs.Prelude.{◌<◌, ◌^◌, length};
    ghost use Rattle.name_remarks.specs.Bindings.{Bindings};

    ghost Value = { Bindings };

    ghost view = { λ t. record { top = t.top; rings = t.rings.items } };

    ghost invariant = { λ t. length t.rings.items < 2 ^ 32 };
}

/// Rings without a name.
fn unbound(alloc: Global, count: u32) -> Result<Vec<Option<Bound>>, AllocError>
    ensures { IfOk result (λ rings. rings.items ≡ replicate count None) }
{
    let mut rings = Vec::new(alloc);
    for _ in 0..count {
        match rings.push(None) {
            Ok(()) => {}
            Err(_) => return Err(AllocError),
        }
    }
    Ok(rings)
}

/// A name in memory of its own.
fn copied(alloc: Global, name: &[u8]) -> Result<Vec<u8>, AllocError>
    ensures { IfOk result (λ copy. copy.items ≡ name.now) }
{
    let mut copy = Vec::new(alloc);
    copy.extend_from_slice(name)?;
    Ok(copy)
}

/// A ring is bound so.
fn bind_among(
    rings: &mut Vec<Option<Bound>>,
    alloc: Global,
    ring: u32,
    counts: (u64, u64),
    name: &[u8],
) -> Result<(), NotTaken>
    ensures ok { OnOk result ((ring < length rings.old.items)
        × (rings.new.items ≡ slice_set rings.old.items ring
        (Some (record { before = counts.0; floor = counts.1; name = name.now })))) }
    ensures err { IfErr result (λ why. (rings.new.items ≡ rings.old.items)
        × (((why ≡ NotTaken.Ring) × (length rings.old.items ≤ ring))
        ⊎ (why ≡ NotTaken.OutOfMemory))) }
{
    if ring as usize >= rings.len() {
        return Err(NotTaken::Ring);
    }
    let Ok(name) = copied(alloc, name) else {
        return Err(NotTaken::OutOfMemory);
    };
    let (before, floor) = counts;
    rings[ring as usize] = Some(Bound {
        before,
        floor,
        name,
    });
    Ok(())
}

/// A ring has no name any more.
fn free_among(rings: &mut Vec<Option<Bound>>, ring: u32) -> Result<(), NotTaken>
    ensures ok { OnOk result ((ring < length rings.old.items)
        × (rings.new.items ≡ slice_set rings.old.items ring None)) }
    ensures err { IfErr result (λ why. (rings.new.items ≡ rings.old.items)
        × ((why ≡ NotTaken.Ring) × (length rings.old.items ≤ ring))) }
{
    if ring as usize >= rings.len() {
        return Err(NotTaken::Ring);
    }
    rings[ring as usize] = None;
    Ok(())
}

impl Recorded {
    /// Nothing is recorded, of this number of rings.
    ///
    /// # Errors
    ///
    /// Only out of memory.
    pub fn nothing(alloc: Global, rings: u32) -> Result<Recorded, AllocError>
        ensures { IfOk result (λ t. t ≡ nothing rings) }
    {
        let rings = unbound(alloc, rings)?;
        Ok(Recorded { top: None, rings })
    }

    /// How many grants there were of all rings, if a line said so.
    pub fn top(&self) -> Option<u64>
        ensures { result ≡ self.now.top }
    {
        self.top
    }

    /// How a ring is bound, if it is.
    pub fn binding(&self, ring: u32) -> Option<&Bound>
        ensures { option_map (λ b. b.now) result ≡ bound_at self.now.rings ring }
    {
        if ring as usize >= self.rings.len() {
            return None;
        }
        self.rings[ring as usize].as_ref()
    }

    /// Takes a remark in.
    fn hear(&mut self, alloc: Global, remark: NameRemark<'_>) -> Result<(), NotTaken>
        ensures ok { OnOk result (IsAmong (seen remark.entry) self.old.rings
            × (self.new ≡ after self.old (seen remark.entry))) }
        ensures err { IfErr result
            (λ why. (self.new ≡ self.old) × IsNotHeard (seen remark.entry) self.old why) }
    {
        match remark {
            NameRemark::Bind {
                ring,
                before,
                floor,
                name,
            } => bind_among(&mut self.rings, alloc, ring, (before, floor), name),
            NameRemark::Free { ring } => free_among(&mut self.rings, ring),
            NameRemark::Top { grants } => {
                self.top = Some(grants);
                Ok(())
            }
        }
    }

    /// Takes a line in, which has its LF. One that does not begin as a remark about names changes
    /// nothing.
    ///
    /// # Errors
    ///
    /// `Misspelled`, `Ring`; of a binding `OutOfMemory`. Nothing has changed then.
    pub fn take_in(&mut self, alloc: Global, line: &[u8]) -> Result<(), NotTaken>
        ensures ok { OnOk result (IsTakenIn line.now self.old self.new) }
        ensures err { IfErr result
            (λ why. (self.new ≡ self.old) × IsNotTakenIn line.now self.old why) }
    {
        match read_name_remark(line) {
            Ok(Some(remark)) => self.hear(alloc, remark),
            Ok(None) => Ok(()),
            Err(Misspelled) => Err(NotTaken::Misspelled),
        }
    }
}
