//! The bindings of a ring, by which its grants have their names.

ghost use Rattle.std.specs.Prelude.{◌≡◌, ◌≤◌, ◌∷◌, ◌++◌, [], ℕ, List, length, take, None, IfOk, OnOk};
ghost use Rattle.std.specs.List.{filter, last_or};
ghost use Rattle.std.specs.List.Sorted.{IsNonDecreasingBy};
ghost use Rattle.std.specs.Option.{option_map};
ghost use Rattle.name_remarks.specs.Remarks.{Binding};
ghost use Rattle.name_history.specs.Kept.{is_older, with_binding, binding_at};
ghost use Rattle.name_history.specs.Said.{RingBinding, AreKept};

use crate::bound::Bound;
use std::alloc::{AllocError, Global};
use std::marker::Model;

/// How many of these bindings there are before which the ring had fewer grants than this: they come first.
fn older(bindings: &[Bound], grants: u64) -> usize
    requires { IsNonDecreasingBy (λ (b : Binding). b.before) bindings.now }
    ensures within { result ≤ length bindings.now }
    ensures older { take result bindings.now ≡ filter (is_older grants) bindings.now }
{
    bindings.partition_point(|bound| bound.before() < grants)
}

/// The last of the first `count` bindings.
fn last_of(bindings: &[Bound], count: usize) -> Option<&Bound>
    requires { count ≤ length bindings.now }
    ensures { option_map (λ b. b.now) result ≡ last_or None (take count bindings.now) }
{
    if count == 0 {
        return None;
    }
    let last = count - 1;
    Some(&bindings[last])
}

/// The last of these bindings before which the ring had fewer grants than this.
fn binding_among(bindings: &[Bound], grant: u64) -> Option<&Bound>
    requires { IsNonDecreasingBy (λ (b : Binding). b.before) bindings.now }
    ensures { option_map (λ b. b.now) result ≡ binding_at bindings.now grant }
{
    let count = older(bindings, grant);
    last_of(bindings, count)
}

/// What is kept of the bindings of a ring. Contracts see the bindings, in the order in which it was bound.
#[derive(Drop)]
pub struct RingNames {
    bindings: Vec<Bound>,
}

impl Model for RingNames {
    ghost use Rattle.std.specs.Prelude.{List};
    ghost use Rattle.std.specs.List.Sorted.{IsNonDecreasingBy};
    ghost use Rattle.name_remarks.specs.Remarks.{Binding};

    ghost Value = { List Binding };

    ghost view = { λ r. r.bindings.items };

    ghost invariant = { λ r. IsNonDecreasingBy (λ (b : Binding). b.before) r.bindings.items };
}

impl RingNames {
    /// A ring that was never bound.
    fn none(alloc: Global) -> RingNames
        ensures { result ≡ [] }
    {
        RingNames {
            bindings: Vec::new(alloc),
        }
    }

    /// The ring was bound once more.
    fn add(&mut self, bound: Bound) -> Result<(), AllocError>
        ensures { OnOk result (self.new ≡ with_binding self.old bound) }
    {
        let count = older(&self.bindings, bound.before());
        self.bindings.truncate(count);
        self.bindings.push(bound)?;
        Ok(())
    }

    /// How the ring was bound at its grant of this number, if it was.
    pub fn at(&self, grant: u64) -> Option<&Bound>
        ensures { option_map (λ b. b.now) result ≡ binding_at self.now grant }
    {
        binding_among(&self.bindings, grant)
    }
}

/// Rings that were never bound.
fn unbound(alloc: Global, count: usize) -> Result<Vec<RingNames>, AllocError>
    ensures { IfOk result (λ each. AreKept count [] each.items) }
{
    let mut each = Vec::new(alloc);
    for _ in 0..count {
        each.push(RingNames::none(alloc))?;
    }
    Ok(each)
}

/// One of these rings was bound once more, if it is one of these.
fn add_binding(each: &mut Vec<RingNames>, binding: (u32, Bound)) -> Result<(), AllocError>
    ensures { OnOk result ((rings : ℕ) (said : List RingBinding) → AreKept rings said each.old.items
        → AreKept rings (said ++ binding ∷ []) each.new.items) }
{
    let (ring, bound) = binding;
    if ring as usize >= each.len() {
        return Ok(());
    }
    match each[ring as usize].add(bound) {
        Ok(()) => Ok(()),
        Err(AllocError) => Err(AllocError),
    }
}

/// What is kept of the bindings of the first n rings, of which these were said one after the other. Those of other rings are let go.
///
/// # Errors
///
/// Only out of memory.
pub fn names_of_rings(
    alloc: Global,
    said: Vec<(u32, Bound)>,
    rings: usize,
) -> Result<Vec<RingNames>, AllocError>
    ensures { IfOk result (λ each. AreKept rings said.items each.items) }
{
    let mut each = unbound(alloc, rings)?;
    for binding in said {
        add_binding(&mut each, binding)?;
    }
    Ok(each)
}
