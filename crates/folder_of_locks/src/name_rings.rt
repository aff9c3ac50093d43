//! The rings of locks by any name when these start, and their names.

ghost use Rattle.std.specs.Prelude.{◌≡◌, ◌⊎◌, ◌<◌, ◌≤◌, ◌-◌, ℕ, drop, length, map, slice_get, Some, MatchOption, IfOk, IfErr, option_map, string_bytes};
ghost use Rattle.held_locks.specs.Kept.{LockView, locks_of};
ghost use Rattle.lock_names.specs.Names.{total};
ghost use Rattle.lock_names.specs.Kept.{top_limit};
ghost use Rattle.lock_names.specs.Table.{bound_of, bounds_of};
ghost use Rattle.name_remarks.specs.Bindings.{bound_at};
ghost use Rattle.folder_of_locks.specs.Lists.{listed, names_of};
ghost use Rattle.folder_of_locks.specs.NameRings.{with_rings, bound_in, name_held, names_held, grants_before, top_now, AreNamed, AreUnnamed};

use crate::faults::StartFault;
use crate::locks::ListedLock;
use held_locks::Locks;
use lock_names::{Binding, Names, NotRestored, TOP_LIMIT};
use name_remarks::{Bound, Recorded};
use ring_model::Base;
use ring_state::Params;
use std::alloc::{AllocError, Global};

/// The locks of a list, and after them this number of rings of its pool, which have no name in it.
pub(crate) fn with_rings<'t>(
    alloc: Global,
    list: &[ListedLock<'t>],
    size: Params,
    count: usize,
) -> Result<Vec<ListedLock<'t>>, AllocError>
    ensures { IfOk result (λ all. map listed all.items
        ≡ with_rings (map listed list.now) size count) }
{
    let mut all = Vec::new(alloc);
    all.extend_from_slice(list)?;
    for _ in 0..count {
        let ring = ListedLock {
            name: "",
            n: size.n(),
            k: size.k(),
        };
        match all.push(ring) {
            Ok(()) => {}
            Err(_) => return Err(AllocError),
        }
    }
    Ok(all)
}

/// The names of the locks of a list.
pub(crate) fn texts_of(alloc: Global, list: &[ListedLock<'_>]) -> Result<Vec<String>, AllocError>
    ensures { IfOk result (λ names. map string_bytes names.items
        ≡ names_of (map listed list.now)) }
{
    let mut names = Vec::new(alloc);
    for lock in list {
        let name = String::from_str(alloc, lock.name)?;
        match names.push(name) {
            Ok(()) => {}
            Err(_) => return Err(AllocError),
        }
    }
    Ok(names)
}

/// How many grants there were of all these locks; none where there were as many as there may be.
fn grants_of(locks: &Locks) -> Option<u64>
    ensures { MatchOption result (top_limit ≤ total (locks_of locks.now))
        (λ n. (n ≡ total (locks_of locks.now)) × (n < top_limit)) }
{
    let mut sum = 0;
    for lock in 0..locks.count() {
        let more = locks.ring(lock).grants();
        let room = TOP_LIMIT - sum;
        if more >= room {
            return None;
        }
        sum += more;
    }
    Some(sum)
}

/// How many of all grants there were since these bases.
fn grants_since(total: u64, bases: &[Base]) -> u64
    ensures { result ≡ total - grants_before bases.now }
{
    let mut left = total;
    for base in bases {
        left = left.saturating_sub(base.grants);
    }
    left
}

/// How many grants there were of all rings for ever; none where there were as many as there may be.
fn top_of(locks: &Locks, floor: Option<u64>, bases: &[Base]) -> Option<u64>
    ensures { MatchOption result
        ((top_limit ≤ total (locks_of locks.now))
        ⊎ (top_limit ≤ top_now floor bases.now (locks_of locks.now)))
        (λ top. top ≡ top_now floor bases.now (locks_of locks.now)) }
{
    let Some(total) = grants_of(locks) else {
        return None;
    };
    match floor {
        Some(floor) => floor.checked_add(grants_since(total, bases)),
        None => Some(total),
    }
}

/// How a ring is bound, for the machine.
fn binding_of(alloc: Global, bound: &Bound) -> Result<Binding, AllocError>
    ensures { IfOk result (λ binding. bound_of binding ≡ bound_in bound.now) }
{
    let Ok(text) = str::from_utf8(bound.name()) else {
        // a name is ASCII, so this does not come
        return Err(AllocError);
    };
    let name = String::from_str(alloc, text)?;
    Ok(Binding {
        name,
        before: bound.before(),
        floor: bound.floor(),
    })
}

/// How a ring is bound, if a client holds it.
fn name_held(
    alloc: Global,
    recorded: &Recorded,
    locks: &Locks,
    ring: u32,
) -> Result<Option<Binding>, AllocError>
    requires { ring < length locks.now }
    ensures { (v : LockView) → slice_get locks.now ring ≡ Some v → IfOk result
        (λ name. option_map bound_of name ≡ name_held v.holder (bound_at recorded.now.rings ring)) }
{
    if locks.holder(ring).is_none() {
        return Ok(None);
    }
    let Some(bound) = recorded.binding(ring) else {
        return Ok(None);
    };
    match binding_of(alloc, bound) {
        Ok(binding) => Ok(Some(binding)),
        Err(error) => Err(error),
    }
}

/// How the rings of the pool are bound that clients hold.
fn names_held(
    alloc: Global,
    recorded: &Recorded,
    locks: &Locks,
    fixed: u32,
) -> Result<Vec<Option<Binding>>, AllocError>
    requires { fixed ≤ length locks.now }
    ensures { IfOk result (λ names. bounds_of names.items
        ≡ names_held fixed recorded.now.rings (drop fixed locks.now)) }
{
    let mut names = Vec::new(alloc);
    for ring in fixed..locks.count() {
        let name = match name_held(alloc, recorded, locks, ring) {
            Ok(name) => name,
            Err(error) => return Err(error),
        };
        match names.push(name) {
            Ok(()) => {}
            Err(_) => return Err(AllocError),
        }
    }
    Ok(names)
}

/// Locks get the names back that were recorded, after those of fixed locks. What came before the rings' segments is in the bases.
pub(crate) fn named(
    alloc: Global,
    locks: Locks,
    fixed: &[String],
    bases: &[Base],
    recorded: &Recorded,
) -> Result<Names, StartFault>
    requires { length fixed.now ≤ length locks }
    ensures ok { IfOk result (λ names. AreNamed locks (map string_bytes fixed.now) bases.now
        recorded.now names) }
    ensures err { IfErr result (λ e. AreUnnamed locks (map string_bytes fixed.now) bases.now
        recorded.now e) }
{
    locks.are_kept();
    let Ok(pool) = names_held(alloc, recorded, &locks, fixed.len() as u32) else {
        return Err(StartFault::OutOfMemory);
    };
    let Some(top) = top_of(&locks, recorded.top(), bases) else {
        return Err(StartFault::Names(NotRestored::Full));
    };
    match Names::restore(alloc, locks, fixed, &pool, top) {
        Ok(names) => Ok(names),
        Err(NotRestored::Memory) => Err(StartFault::OutOfMemory),
        Err(why) => Err(StartFault::Names(why)),
    }
}
