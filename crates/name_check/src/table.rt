//! Which ring each name has.

ghost use Rattle.std.specs.Prelude.{◌≡◌, ℕ, ◌<◌, ◌++◌, ◌∷◌, [], List, length, slice_get, slice_set, None, Some, OnOk, OnErr, option_map, string_bytes};
ghost use Rattle.std.specs.HashMap.{get_by_text};
ghost use Rattle.name_bindings.specs.Bindings.{Bound, found, ring_of, AreNamedOnce};
ghost use Rattle.name_check.specs.Judged.{same_bound};
ghost use Rattle.name_check.specs.Tables.{bound_of, bounds_of, IsTable};

use std::alloc::{AllocError, Global};
use std::collections::HashMap;
use std::marker::Model;

/// How a name is bound to a ring.
#[derive(Drop)]
pub(crate) struct Binding {
    name: String,
    before: u64,
    floor: u64,
}

/// How many grants a ring had when it was bound, and how many there were of all rings.
#[derive(Clone, Copy)]
pub(crate) struct Counts {
    pub(crate) before: u64,
    pub(crate) floor: u64,
}

/// The name of each ring that has one. Contracts see them as a list, by the rings' numbers.
#[derive(Drop)]
pub(crate) struct Table {
    bound: Vec<Option<Binding>>,
    rings: HashMap<String, usize>,
}

impl Model for Table {
    ghost use Rattle.std.specs.Prelude.{List, Option};
    ghost use Rattle.std.specs.HashMap.{get_by_text};
    ghost use Rattle.name_bindings.specs.Bindings.{Bound};
    ghost use Rattle.name_check.specs.Tables.{bounds_of, IsTable};

    ghost Value = { List (Option Bound) };

    ghost view = { λ t. bounds_of t.bound.items };

    ghost invariant = { λ t. IsTable (bounds_of t.bound.items) (λ x. get_by_text t.rings x) };
}

/// A ring without a name gets one.
fn bind_among(
    bound: &mut Vec<Option<Binding>>,
    rings: &mut HashMap<String, usize>,
    ring: usize,
    key: String,
    binding: Binding,
) -> Result<(), AllocError>
    requires table { IsTable (bounds_of bound.old.items) (λ x. get_by_text rings.old x) }
    requires free { slice_get (bounds_of bound.old.items) ring ≡ Some None }
    requires name { string_bytes key ≡ string_bytes binding.name }
    requires unused { found (string_bytes key) (bounds_of bound.old.items) ≡ None }
    ensures table { IsTable (bounds_of bound.new.items) (λ x. get_by_text rings.new x) }
    ensures ok { OnOk result (bounds_of bound.new.items
        ≡ slice_set (bounds_of bound.old.items) ring (Some (bound_of binding))) }
    ensures err { OnErr result (bounds_of bound.new.items ≡ bounds_of bound.old.items) }
{
    let Ok(_) = rings.insert(key, ring) else {
        return Err(AllocError);
    };
    bound[ring] = Some(binding);
    Ok(())
}

/// A ring has no name any more.
fn forget_among(bound: &mut Vec<Option<Binding>>, rings: &mut HashMap<String, usize>, ring: usize)
    requires table { IsTable (bounds_of bound.old.items) (λ x. get_by_text rings.old x) }
    requires ring { ring < length bound.old.items }
    ensures table { IsTable (bounds_of bound.new.items) (λ x. get_by_text rings.new x) }
    ensures new { bounds_of bound.new.items ≡ slice_set (bounds_of bound.old.items) ring None }
{
    let Some(binding) = bound[ring].take() else {
        return;
    };
    rings.remove(binding.name.as_str());
}

/// A ring more, which has no name.
fn add_free_among(
    bound: &mut Vec<Option<Binding>>,
    rings: &HashMap<String, usize>,
) -> Result<(), AllocError>
    requires table { IsTable (bounds_of bound.old.items) (λ x. get_by_text rings.now x) }
    ensures table { IsTable (bounds_of bound.new.items) (λ x. get_by_text rings.now x) }
    ensures ok { OnOk result (bounds_of bound.new.items ≡ bounds_of bound.old.items ++ None ∷ []) }
    ensures err { OnErr result (bounds_of bound.new.items ≡ bounds_of bound.old.items) }
{
    let Ok(()) = bound.reserve(1) else {
        return Err(AllocError);
    };
    bound.push_reserved(None);
    Ok(())
}

/// Whether the binding is this one.
fn is_same(binding: &Binding, name: &str, counts: Counts) -> bool
    ensures { result ≡ same_bound (record {
      name = name.now;
      before = counts.before;
      floor = counts.floor;
    }) (bound_of binding.now) }
{
    name == binding.name.as_str()
        && counts.before == binding.before
        && counts.floor == binding.floor
}

impl Table {
    /// No rings.
    pub(crate) fn none(alloc: Global) -> Table
        ensures { result ≡ [] }
    {
        Table {
            bound: Vec::new(alloc),
            rings: HashMap::new(alloc),
        }
    }

    /// The ring of a name.
    pub(crate) fn find(&self, name: &str) -> Option<usize>
        ensures { result ≡ ring_of name.now self.now }
    {
        self.rings.get(name).copied()
    }

    /// How many rings there are.
    pub(crate) fn count(&self) -> usize
        ensures { result ≡ length self.now }
    {
        self.bound.len()
    }

    /// No two rings have one name: this does nothing, and says so.
    pub(crate) fn are_apart(&self)
        ensures { AreNamedOnce self.now }
    {
        self.bound.len();
    }

    /// Whether the ring is bound so, if it has a name.
    pub(crate) fn is_bound(&self, ring: usize, name: &str, counts: Counts) -> Option<bool>
        requires { ring < length self.now }
        ensures bound { (b : Bound) → slice_get self.now ring ≡ Some (Some b)
            → result ≡ Some (same_bound (record {
              name = name.now;
              before = counts.before;
              floor = counts.floor;
            }) b) }
        ensures free { slice_get self.now ring ≡ Some None → result ≡ None }
    {
        match &self.bound[ring] {
            Some(binding) => Some(is_same(binding, name, counts)),
            None => None,
        }
    }

    /// Gives a name to a ring that has none. This is refused only for lack of memory.
    pub(crate) fn bind(
        &mut self,
        alloc: Global,
        ring: usize,
        name: &str,
        counts: Counts,
    ) -> Result<(), AllocError>
        requires free { slice_get self.old ring ≡ Some None }
        requires unused { found name.now self.old ≡ None }
        ensures ok { OnOk result (self.new ≡ slice_set self.old ring
            (Some (record { name = name.now; before = counts.before; floor = counts.floor }))) }
        ensures err { OnErr result (self.new ≡ self.old) }
    {
        let key = String::from_str(alloc, name)?;
        let binding = Binding {
            name: String::from_str(alloc, name)?,
            before: counts.before,
            floor: counts.floor,
        };
        bind_among(&mut self.bound, &mut self.rings, ring, key, binding)
    }

    /// Takes its name from a ring.
    pub(crate) fn forget(&mut self, ring: usize)
        requires { ring < length self.old }
        ensures { self.new ≡ slice_set self.old ring None }
    {
        forget_among(&mut self.bound, &mut self.rings, ring);
    }

    /// A ring more, which has no name.
    pub(crate) fn add_free(&mut self) -> Result<(), AllocError>
        ensures ok { OnOk result (self.new ≡ self.old ++ None ∷ []) }
        ensures err { OnErr result (self.new ≡ self.old) }
    {
        add_free_among(&mut self.bound, &self.rings)
    }
}
