//! The next segment, with a pool that has grown.

ghost use Rattle.std.specs.Prelude.{◌≡◌, ◌⊎◌, ◌≤◌, false, length, IfOk, IfErr};
ghost use Rattle.held_locks.specs.declared.answers.Refusal.{Refusal};
ghost use Rattle.held_locks.specs.Kept.{lock_limit};
ghost use Rattle.lock_names.specs.Kept.{top_limit};
ghost use Rattle.lock_journal.specs.Due.{has_short};
ghost use Rattle.name_service.specs.Growth.{pool_of, IsPoolWanted, HasFreshRing, AreGrown, CannotAdd, AreNextGrown, HaveNoNextGrown};

use crate::segment::NameSegment;
use fresh_rings::fresh_ring;
use held_locks::Refusal;
use lock_journal::has_short;
use lock_names::{Names, NotGrown, wanted_pool};
use ring_state::Params;
use std::alloc::Global;

/// How many rings the pool has.
fn pool_of(names: &Names) -> u32
    ensures { result ≡ pool_of names.now }
{
    names.count().saturating_sub(names.fixed())
}

/// How many rings the pool should have: as many as are wanted beside those in use, at most `most`, and no fewer than it has.
fn pool_wanted(names: &Names, most: u32) -> u32
    ensures { IsPoolWanted most names.now result }
{
    let wanted = wanted_pool(names.used()).min(most as u64) as u32;
    pool_of(names).max(wanted)
}

/// Why a fresh ring cannot be added. No hold is open in it.
fn not_added(why: NotGrown) -> Refusal
    ensures { ((why ≡ NotGrown.Full) × (result ≡ Refusal.Full)) ⊎ (result ≡ Refusal.Memory) }
{
    match why {
        NotGrown::Full => Refusal::Full,
        NotGrown::Held | NotGrown::Memory => Refusal::Memory,
    }
}

/// A fresh ring more in the pool.
fn add_fresh(names: Names, alloc: Global, size: Params) -> Result<Names, Refusal>
    ensures ok { IfOk result (λ new. HasFreshRing size names new) }
    ensures why { IfErr result (λ e. ((e ≡ Refusal.Full)
        × ((lock_limit ≤ length names.locks) ⊎ (top_limit ≤ names.top)))
        ⊎ (e ≡ Refusal.Memory)) }
{
    let Ok(ring) = fresh_ring(alloc, size) else {
        return Err(Refusal::Memory);
    };
    match names.add(alloc, ring) {
        Ok(names) => Ok(names),
        Err(why) => Err(not_added(why)),
    }
}

/// A number of fresh rings more in the pool.
fn grow(names: Names, alloc: Global, size: Params, more: u32) -> Result<Names, Refusal>
    ensures ok { IfOk result (λ new. AreGrown size names more new) }
    ensures why { IfErr result (λ e.
        ((e ≡ Refusal.Full) × CannotAdd names more) ⊎ (e ≡ Refusal.Memory)) }
{
    let mut grown = names;
    for _ in 0..more {
        grown = match add_fresh(grown, alloc, size) {
            Ok(grown) => grown,
            Err(why) => return Err(why),
        };
    }
    Ok(grown)
}

/// The names of the next segment. None of its rings is short, and nothing of these names has changed.
///
/// # Errors
///
/// `Full` where no segment has room, a lock would be short in it, or the pool cannot grow; `Memory`.
fn next_names(names: &Names, alloc: Global, most: u32, size: Params) -> Result<Names, Refusal>
    ensures next { IfOk result (λ next. AreNextGrown most size names.now next) }
    ensures short { IfOk result (λ next. has_short next.locks ≡ false) }
    ensures why { IfErr result (λ e. HaveNoNextGrown most names.now e) }
{
    let more = pool_wanted(names, most).saturating_sub(pool_of(names));
    let next = match names.next(alloc) {
        Ok(next) => next,
        Err(why) => return Err(why),
    };
    if has_short(next.locks()) {
        return Err(Refusal::Full);
    }
    grow(next, alloc, size, more)
}

/// The next segment, whose journal may have `limit` lines: the names continue in the next segments of their rings, and the pool, of
/// rings of this size, has grown to what it should have, up to `most` rings.
///
/// # Errors
///
/// `Full` where no segment has room, a lock would be short in it, or the pool cannot grow; `Memory`.
pub(crate) fn next_segment(
    segment: &NameSegment,
    alloc: Global,
    most: u32,
    size: Params,
    limit: u64,
) -> Result<NameSegment, Refusal>
    ensures names { IfOk result (λ s. AreNextGrown most size segment.now.named s.named) }
    ensures remaining { IfOk result (λ s. s.remaining ≡ limit) }
    ensures short { IfOk result (λ s. s.short ≡ false) }
    ensures why { IfErr result (λ e. HaveNoNextGrown most segment.now.named e) }
{
    let names = match next_names(segment.names(), alloc, most, size) {
        Ok(names) => names,
        Err(why) => return Err(why),
    };
    match NameSegment::begin(alloc, names, limit, false) {
        Ok(next) => Ok(next),
        Err(_) => Err(Refusal::Memory),
    }
}
