//! Which ring each name has, and which rings are free.

ghost use Rattle.std.specs.Prelude.{◌≡◌, ℕ, ◌+◌, ◌^◌, ◌<◌, ◌≤◌, ◌++◌, ◌∷◌, [], List, map, length, slice_get, slice_set, Option, None, Some, IfOk, OnOk, OnErr, option_map, string_bytes};
ghost use Rattle.std.specs.HashMap.{get_by_text};
ghost use Rattle.std.specs.BinaryHeap.{heap_capacity, heap_items, heap_len};
ghost use Rattle.name_bindings.specs.Bindings.{Bound, found, free, ring_of, AreNamedOnce};
ghost use Rattle.lock_names.specs.Table.{bound_of, bounds_of, IsKeptTable};

use std::alloc::{AllocError, Global};
use std::cmp::Reverse;
use std::collections::{BinaryHeap, HashMap};
use std::marker::Model;

/// How a name is bound to a ring.
#[derive(Drop)]
pub struct Binding {
    /// The name.
    pub name: String,
    /// How many grants the ring had when it was bound.
    pub before: u64,
    /// How many grants there were of all rings then: the ring's grant n has the token `floor + (n - before)`.
    pub floor: u64,
}

/// How many grants a ring had when it was bound, and how many there were of all rings.
#[derive(Clone, Copy)]
pub(crate) struct Counts {
    pub(crate) before: u64,
    pub(crate) floor: u64,
}

/// The name of each ring that has one. Contracts see them as a list, by the rings' numbers.
#[derive(Drop)]
pub(crate) struct Table {
    bound: Vec<Option<Binding>>,
    rings: HashMap<String, u32>,
    spare: BinaryHeap<Reverse<u32>>,
}

impl Model for Table {
    ghost use Rattle.std.specs.Prelude.{List, Option};
    ghost use Rattle.std.specs.HashMap.{get_by_text};
    ghost use Rattle.std.specs.BinaryHeap.{heap_capacity, heap_items};
    ghost use Rattle.name_bindings.specs.Bindings.{Bound};
    ghost use Rattle.lock_names.specs.Table.{bounds_of, IsKeptTable};

    ghost Value = { List (Option Bound) };

    ghost view = { λ t. bounds_of t.bound.items };

    ghost invariant = { λ t. IsKeptTable (bounds_of t.bound.items)
        (λ x. get_by_text t.rings x) (heap_items t.spare) (heap_capacity t.spare) };
}

/// The lowest free ring gets the name.
fn bind_among(
    bound: &mut Vec<Option<Binding>>,
    rings: &mut HashMap<String, u32>,
    spare: &mut BinaryHeap<Reverse<u32>>,
    ring: u32,
    key: String,
    binding: Binding,
) -> Result<(), AllocError>
    requires kept { IsKeptTable (bounds_of bound.old.items) (λ x. get_by_text rings.old x)
        (heap_items spare.old) (heap_capacity spare.old) }
    requires lowest { free (bounds_of bound.old.items) ≡ Some ring }
    requires name { string_bytes key ≡ string_bytes binding.name }
    requires unused { found (string_bytes key) (bounds_of bound.old.items) ≡ None }
    ensures kept { IsKeptTable (bounds_of bound.new.items) (λ x. get_by_text rings.new x)
        (heap_items spare.new) (heap_capacity spare.new) }
    ensures ok { OnOk result (bounds_of bound.new.items
        ≡ slice_set (bounds_of bound.old.items) ring (Some (bound_of binding))) }
    ensures err { OnErr result (bounds_of bound.new.items ≡ bounds_of bound.old.items) }
{
    let Ok(_) = rings.insert(key, ring) else {
        return Err(AllocError);
    };
    match spare.pop() {
        Some(_) => {
            bound[ring as usize] = Some(binding);
            Ok(())
        }
        None => unreachable!(),
    }
}

/// The ring has no name any more.
fn forget_among(
    bound: &mut Vec<Option<Binding>>,
    rings: &mut HashMap<String, u32>,
    spare: &mut BinaryHeap<Reverse<u32>>,
    ring: u32,
)
    requires kept { IsKeptTable (bounds_of bound.old.items) (λ x. get_by_text rings.old x)
        (heap_items spare.old) (heap_capacity spare.old) }
    requires ring { ring < length bound.old.items }
    ensures kept { IsKeptTable (bounds_of bound.new.items) (λ x. get_by_text rings.new x)
        (heap_items spare.new) (heap_capacity spare.new) }
    ensures new { bounds_of bound.new.items ≡ slice_set (bounds_of bound.old.items) ring None }
{
    let Some(binding) = bound[ring as usize].take() else {
        return;
    };
    rings.remove(binding.name.as_str());
    match spare.push(Reverse(ring)) {
        Ok(()) => {}
        Err(_) => unreachable!(),
    }
}

/// A ring more, which is free.
fn add_free_among(
    bound: &mut Vec<Option<Binding>>,
    rings: &HashMap<String, u32>,
    spare: &mut BinaryHeap<Reverse<u32>>,
    ring: u32,
) -> Result<(), AllocError>
    requires kept { IsKeptTable (bounds_of bound.old.items) (λ x. get_by_text rings.now x)
        (heap_items spare.old) (heap_capacity spare.old) }
    requires ring { ring ≡ length bound.old.items }
    ensures kept { IsKeptTable (bounds_of bound.new.items) (λ x. get_by_text rings.now x)
        (heap_items spare.new) (heap_capacity spare.new) }
    ensures ok { OnOk result (bounds_of bound.new.items ≡ bounds_of bound.old.items ++ None ∷ []) }
    ensures err { OnErr result (bounds_of bound.new.items ≡ bounds_of bound.old.items) }
{
    let Ok(()) = bound.reserve(1) else {
        return Err(AllocError);
    };
    let Ok(()) = spare.reserve(bound.len() + 1) else {
        return Err(AllocError);
    };
    let Ok(()) = spare.push(Reverse(ring)) else {
        return Err(AllocError);
    };
    bound.push_reserved(None);
    Ok(())
}

/// A ring more, which has a name.
fn add_named_among(
    bound: &mut Vec<Option<Binding>>,
    rings: &mut HashMap<String, u32>,
    spare: &mut BinaryHeap<Reverse<u32>>,
    ring: u32,
    key: String,
    binding: Binding,
) -> Result<(), AllocError>
    requires kept { IsKeptTable (bounds_of bound.old.items) (λ x. get_by_text rings.old x)
        (heap_items spare.old) (heap_capacity spare.old) }
    requires ring { ring ≡ length bound.old.items }
    requires name { string_bytes key ≡ string_bytes binding.name }
    requires unused { found (string_bytes key) (bounds_of bound.old.items) ≡ None }
    ensures kept { IsKeptTable (bounds_of bound.new.items) (λ x. get_by_text rings.new x)
        (heap_items spare.new) (heap_capacity spare.new) }
    ensures ok { OnOk result (bounds_of bound.new.items
        ≡ bounds_of bound.old.items ++ Some (bound_of binding) ∷ []) }
    ensures err { OnErr result (bounds_of bound.new.items ≡ bounds_of bound.old.items) }
{
    let Ok(()) = bound.reserve(1) else {
        return Err(AllocError);
    };
    let Ok(()) = spare.reserve(bound.len() + 1) else {
        return Err(AllocError);
    };
    let Ok(_) = rings.insert(key, ring) else {
        return Err(AllocError);
    };
    bound.push_reserved(Some(binding));
    Ok(())
}

/// A ring more, whose name, if it has one, is that of a binding.
pub(crate) fn copy_ring(
    copy: &mut Table,
    alloc: Global,
    binding: &Option<Binding>,
) -> Result<(), AllocError>
    requires few { length copy.old < 2 ^ 32 }
    requires unused { (b : Binding) → binding.now ≡ Some b
        → found (string_bytes b.name) copy.old ≡ None }
    ensures { OnOk result (copy.new ≡ copy.old ++ option_map bound_of binding.now ∷ []) }
{
    match binding {
        Some(binding) => {
            let counts = Counts {
                before: binding.before,
                floor: binding.floor,
            };
            copy.add_named(alloc, binding.name.as_str(), counts)
        }
        None => copy.add_free(),
    }
}

/// The same rings with the same names.
fn copy_among(bound: &[Option<Binding>], alloc: Global) -> Result<Table, AllocError>
    requires few { length bound.now ≤ 1000000 }
    requires once { AreNamedOnce (bounds_of bound.now) }
    ensures { IfOk result (λ copy. copy ≡ bounds_of bound.now) }
{
    let mut copy = Table::none(alloc);
    for binding in bound {
        match copy_ring(&mut copy, alloc, binding) {
            Ok(()) => {}
            Err(error) => return Err(error),
        }
    }
    Ok(copy)
}

impl Table {
    /// No rings.
    pub(crate) fn none(alloc: Global) -> Table
        ensures { result ≡ [] }
    {
        Table {
            bound: Vec::new(alloc),
            rings: HashMap::new(alloc),
            spare: BinaryHeap::new(alloc),
        }
    }

    /// The ring of a name.
    pub(crate) fn find(&self, name: &str) -> Option<u32>
        ensures { result ≡ ring_of name.now self.now }
    {
        self.rings.get(name).copied()
    }

    /// The lowest ring without a name.
    pub(crate) fn lowest_free(&self) -> Option<u32>
        ensures { result ≡ free self.now }
    {
        match self.spare.peek() {
            Some(ring) => Some(ring.0),
            None => None,
        }
    }

    /// How many rings there are.
    pub(crate) fn count(&self) -> usize
        ensures { result ≡ length self.now }
    {
        self.bound.len()
    }

    /// No two rings have one name: this does nothing, and says so.
    pub(crate) fn are_apart(&self)
        ensures { AreNamedOnce self.now }
    {
        self.bound.len();
    }

    /// How the ring of a name is bound.
    pub(crate) fn counts(&self, ring: u32) -> Counts
        requires { ring < length self.now }
        ensures { (b : Bound) → slice_get self.now ring ≡ Some (Some b)
            → result ≡ record { before = b.before; floor = b.floor } }
    {
        match &self.bound[ring as usize] {
            Some(binding) => Counts {
                before: binding.before,
                floor: binding.floor,
            },
            None => Counts {
                before: 0,
                floor: 0,
            },
        }
    }

    /// How a ring is bound, if it has a name.
    pub(crate) fn binding(&self, ring: u32) -> Option<&Binding>
        ensures there { (o : Option Bound) → slice_get self.now ring ≡ Some o
            → option_map (λ x. bound_of x.now) result ≡ o }
        ensures far { length self.now ≤ ring → result ≡ None }
    {
        if ring as usize >= self.bound.len() {
            return None;
        }
        match &self.bound[ring as usize] {
            Some(binding) => Some(binding),
            None => None,
        }
    }

    /// The name of a ring, if it has one.
    pub(crate) fn name(&self, ring: u32) -> Option<&str>
        ensures some { (b : Bound) → slice_get self.now ring ≡ Some (Some b)
            → option_map (λ x. x.now) result ≡ Some b.name }
        ensures none { slice_get self.now ring ≡ Some None → result ≡ None }
        ensures far { length self.now ≤ ring → result ≡ None }
    {
        if ring as usize >= self.bound.len() {
            return None;
        }
        match &self.bound[ring as usize] {
            Some(binding) => Some(binding.name.as_str()),
            None => None,
        }
    }

    /// Gives a name to the lowest free ring. This is refused only for lack of memory.
    pub(crate) fn bind(
        &mut self,
        alloc: Global,
        ring: u32,
        name: &str,
        counts: Counts,
    ) -> Result<(), AllocError>
        requires lowest { free self.old ≡ Some ring }
        requires unused { found name.now self.old ≡ None }
        ensures ok { OnOk result (self.new ≡ slice_set self.old ring
            (Some (record { name = name.now; before = counts.before; floor = counts.floor }))) }
        ensures err { OnErr result (self.new ≡ self.old) }
    {
        let key = String::from_str(alloc, name)?;
        let binding = Binding {
            name: String::from_str(alloc, name)?,
            before: counts.before,
            floor: counts.floor,
        };
        bind_among(
            &mut self.bound,
            &mut self.rings,
            &mut self.spare,
            ring,
            key,
            binding,
        )
    }

    /// The same names, in memory of their own.
    pub(crate) fn copy(&self, alloc: Global) -> Result<Table, AllocError>
        requires { length self.now ≤ 1000000 }
        ensures { IfOk result (λ copy. copy ≡ self.now) }
    {
        copy_among(self.bound.as_slice(), alloc)
    }

    /// Takes its name from a ring.
    pub(crate) fn forget(&mut self, ring: u32)
        requires { ring < length self.old }
        ensures { self.new ≡ slice_set self.old ring None }
    {
        forget_among(&mut self.bound, &mut self.rings, &mut self.spare, ring);
    }

    /// A ring more, which is free.
    pub(crate) fn add_free(&mut self) -> Result<(), AllocError>
        requires { length self.old < 2 ^ 32 }
        ensures ok { OnOk result (self.new ≡ self.old ++ None ∷ []) }
        ensures err { OnErr result (self.new ≡ self.old) }
    {
        let ring = self.bound.len() as u32;
        add_free_among(&mut self.bound, &self.rings, &mut self.spare, ring)
    }

    /// A ring more, which has this name.
    pub(crate) fn add_named(
        &mut self,
        alloc: Global,
        name: &str,
        counts: Counts,
    ) -> Result<(), AllocError>
        requires few { length self.old < 2 ^ 32 }
        requires unused { found name.now self.old ≡ None }
        ensures ok { OnOk result (self.new ≡ self.old
            ++ Some (record { name = name.now; before = counts.before; floor = counts.floor }) ∷ []) }
        ensures err { OnErr result (self.new ≡ self.old) }
    {
        let key = String::from_str(alloc, name)?;
        let binding = Binding {
            name: String::from_str(alloc, name)?,
            before: counts.before,
            floor: counts.floor,
        };
        let ring = self.bound.len() as u32;
        add_named_among(
            &mut self.bound,
            &mut self.rings,
            &mut self.spare,
            ring,
            key,
            binding,
        )
    }
}
