//! Locks that are called by names.

ghost use Rattle.std.specs.Prelude.{◌≡◌, ℕ, ◌+◌, ◌<◌, ◌≤◌, true, false, not, length, map, slice_get, slice_set, Option, Some, None, IfOk, IfErr, option_map, string_bytes, vec_capacity};
ghost use Rattle.held_locks.specs.Asked.{asked};
ghost use Rattle.held_locks.specs.Cuts.{HaveNoNext};
ghost use Rattle.held_locks.specs.Kept.{locks_of, IsKeptRing};
ghost use Rattle.held_locks.specs.declared.answers.Answer.{Answer};
ghost use Rattle.lock_names.specs.Names.{Bound, kept, stays, found, free};
ghost use Rattle.lock_names.specs.Begun.{IsBegun, CannotBegin};
ghost use Rattle.lock_names.specs.Kept.{seen, IsKeptNamed, may_pass, top_limit, IsAsked, HasEvents};
ghost use Rattle.lock_names.specs.Handed.{IsHandedByName, CannotBeHandedByName};
ghost use Rattle.lock_names.specs.Leaves.{IsLeftByName};
ghost use Rattle.lock_names.specs.Restored.{IsRestored, CannotRestore};
ghost use Rattle.lock_names.specs.Sizes.{AreUsedUntil};
ghost use Rattle.lock_names.specs.Table.{bound_of, bounds_of};
ghost use Rattle.lock_names.specs.Grown.{IsGrown, CannotGrow, AreNextNames};
ghost use Rattle.lock_names.specs.declared.replies.Reply.{Reply};

use crate::asks::{Rings, ask_ring, may_pass, unused_answer};
use crate::growing::{NotGrown, add_ring};
use crate::handing::hand_among;
use crate::leaving::leave_among;
use crate::replies::{NameAnswers, NameAsked, Reply};
use crate::restoring::{NotRestored, are_counted, check_names, restored_table};
use crate::sizes::used_among;
use crate::starting::{NotBegun, begun_table, grants_of};
use crate::table::{Binding, Counts, Table};
use endless_ring::EndlessRing;
use held_locks::{Answer, Left, Locks, OneAsk, Refusal};
use std::alloc::Global;
use std::marker::Model;

/// After this number of grants no client is granted any more, except those that wait already, and no fault is written.
pub const TOP_LIMIT: u64 = 1 << 63;

/// Locks by any name, over a pool of rings. Contracts see the state of the machine, with its locks as they are kept.
#[derive(Drop)]
pub struct Names {
    rings: Rings,
    table: Table,
}

impl Model for Names {
    ghost use Rattle.lock_names.specs.Kept.{NamedView, seen, IsKeptNamed};

    ghost Value = { NamedView };

    ghost view = { λ s. seen s.rings s.table };

    ghost invariant = { λ s. IsKeptNamed (seen s.rings s.table) };
}

/// A reply that changes nothing, where the segment of the ring has this number of events.
fn only(ring: Option<u32>, events: usize, reply: Reply) -> NameAsked
    ensures answers { result.answers ≡ record {
      ring = ring;
      fresh = false;
      freed = false;
      own = Some reply;
      ended = None;
      granted = None;
    } }
    ensures events { (result.before ≡ events) × (result.after ≡ events) }
{
    let answers = NameAnswers {
        ring,
        fresh: false,
        freed: false,
        own: Some(reply),
        ended: None,
        granted: None,
    };
    NameAsked {
        answers,
        before: events,
        after: events,
    }
}

/// A refusal of an ask that reaches this ring.
fn refused(rings: &Rings, ring: u32, why: Refusal) -> NameAsked
    requires { ring < length rings.now.locks }
    ensures answers { result.answers ≡ record {
      ring = Some ring;
      fresh = false;
      freed = false;
      own = Some (Reply.Lock (Answer.Refused why));
      ended = None;
      granted = None;
    } }
    ensures events { HasEvents rings.now.locks rings.now.locks result }
{
    let events = rings.locks.ring(ring).segment().history().len();
    only(Some(ring), events, Reply::Lock(Answer::Refused(why)))
}

/// Whether the ask may make a ring pass, and the limit of grants is reached.
fn is_spent(rings: &Rings, ask: OneAsk) -> bool
    ensures yes { result ≡ true → (may_pass (asked ask) ≡ true) × (top_limit ≤ rings.now.top) }
    ensures no { result ≡ false → may_pass (asked ask) ≡ true → rings.now.top < top_limit }
{
    may_pass(ask) && rings.top >= TOP_LIMIT
}

/// A ring of the pool that no client holds loses its name: whether it has.
fn settle(table: &mut Table, rings: &Rings, ring: u32) -> bool
    requires lock { ring < length rings.now.locks }
    requires ring { ring < length table.old }
    ensures names { (b : Bound) → slice_get table.old ring ≡ Some (Some b) → table.new ≡ slice_set
        table.old ring (kept (stays rings.now.fixed ring (locks_of rings.now.locks)) b) }
    ensures freed { result ≡ not (stays rings.now.fixed ring (locks_of rings.now.locks)) }
{
    if ring < rings.fixed {
        return false;
    }
    if rings.locks.holder(ring).is_some() {
        return false;
    }
    table.forget(ring);
    true
}

/// The ring of a name is asked.
fn ask_bound(rings: &mut Rings, table: &mut Table, client: u64, ring: u32, ask: OneAsk) -> NameAsked
    requires kept { IsKeptNamed (seen rings.old table.old) }
    requires ring { (b : Bound) × (found b.name table.old ≡ Some (ring, b)) }
    ensures asked { (b : Bound) → found b.name table.old ≡ Some (ring, b)
        → IsAsked (seen rings.old table.old) (seen rings.new table.new) client b.name
        (asked ask) result.answers }
    ensures events { HasEvents rings.old.locks rings.new.locks result }
    ensures kept { IsKeptNamed (seen rings.new table.new) }
{
    if is_spent(rings, ask) {
        return refused(rings, ring, Refusal::Full);
    }
    let counts = table.counts(ring);
    let mut done = ask_ring(rings, client, ring, counts, ask);
    let freed = settle(table, rings, ring);
    done.answers.freed = freed;
    done
}

/// A name that no ring has is asked.
fn ask_unbound(
    rings: &mut Rings,
    table: &mut Table,
    alloc: Global,
    client: u64,
    name: &str,
    ask: OneAsk,
) -> NameAsked
    requires kept { IsKeptNamed (seen rings.old table.old) }
    requires unused { found name.now table.old ≡ None }
    ensures asked { IsAsked (seen rings.old table.old) (seen rings.new table.new) client name.now
        (asked ask) result.answers }
    ensures events { HasEvents rings.old.locks rings.new.locks result }
    ensures kept { IsKeptNamed (seen rings.new table.new) }
{
    if let Some(answer) = unused_answer(ask) {
        return only(None, 0, Reply::Lock(answer));
    }
    let Some(ring) = table.lowest_free() else {
        return only(None, 0, Reply::Names);
    };
    if is_spent(rings, ask) {
        return refused(rings, ring, Refusal::Full);
    }
    let counts = Counts {
        before: rings.locks.ring(ring).grants(),
        floor: rings.top,
    };
    let Ok(()) = table.bind(alloc, ring, name, counts) else {
        return refused(rings, ring, Refusal::Memory);
    };
    let mut done = ask_ring(rings, client, ring, counts, ask);
    let free_again = settle(table, rings, ring);
    done.answers.fresh = !free_again;
    done
}

/// A name is asked.
fn ask_among(
    rings: &mut Rings,
    table: &mut Table,
    alloc: Global,
    client: u64,
    name: &str,
    ask: OneAsk,
) -> NameAsked
    requires { IsKeptNamed (seen rings.old table.old) }
    ensures asked { IsAsked (seen rings.old table.old) (seen rings.new table.new) client name.now
        (asked ask) result.answers }
    ensures events { HasEvents rings.old.locks rings.new.locks result }
    ensures kept { IsKeptNamed (seen rings.new table.new) }
{
    match table.find(name) {
        Some(ring) => ask_bound(rings, table, client, ring, ask),
        None => ask_unbound(rings, table, alloc, client, name, ask),
    }
}

impl Names {
    /// Locks begin to have names: the first ones those of this list, for ever, and the others, which are the pool, none. No client
    /// may hold one of them yet.
    ///
    /// # Errors
    ///
    /// The first that applies: `Locks`, `Held`, `Full`, whichever lock comes first; `Twice`, `Memory`. The locks are let go.
    pub fn begin(alloc: Global, locks: Locks, fixed: &[String]) -> Result<Names, NotBegun>
        ensures ok { IfOk result (λ s. IsBegun locks (map string_bytes fixed.now) s) }
        ensures why { IfErr result (λ e. CannotBegin locks (map string_bytes fixed.now) e) }
    {
        locks.are_kept();
        let count = locks.count() as usize;
        if count < fixed.len() {
            return Err(NotBegun::Locks);
        }
        let top = match grants_of(&locks) {
            Ok(top) => top,
            Err(why) => return Err(why),
        };
        let table = match begun_table(alloc, fixed, count) {
            Ok(table) => table,
            Err(why) => return Err(why),
        };
        let rings = Rings {
            locks,
            fixed: fixed.len() as u32,
            top,
        };
        Ok(Names { rings, table })
    }

    /// Locks get back the names that they had, with the number of all grants: the first ones the names of the list, for ever, and
    /// the others, which are the pool, one after the other, how they were bound. Of these a client holds just those that
    /// have a name; the locks are as a restart finds them, or as they were.
    ///
    /// # Errors
    ///
    /// The first that applies: `Locks`; `Full`; `Top`; `Twice` or `Memory`, whichever comes first; `Unnamed`, `Free`, `Before`,
    /// `Token` or `Hold`, whichever ring comes first. The locks are let go.
    pub fn restore(
        alloc: Global,
        locks: Locks,
        fixed: &[String],
        pool: &[Option<Binding>],
        top: u64,
    ) -> Result<Names, NotRestored>
        ensures ok { IfOk result (λ s.
            IsRestored locks (map string_bytes fixed.now) (bounds_of pool.now) top s) }
        ensures why { IfErr result (λ e.
            CannotRestore locks (map string_bytes fixed.now) (bounds_of pool.now) top e) }
    {
        locks.are_kept();
        let count = locks.count() as usize;
        if count < fixed.len() || count - fixed.len() != pool.len() {
            return Err(NotRestored::Locks);
        }
        if top >= TOP_LIMIT {
            return Err(NotRestored::Full);
        }
        if !are_counted(&locks, top) {
            return Err(NotRestored::Top);
        }
        let table = match restored_table(alloc, fixed, pool) {
            Ok(table) => table,
            Err(why) => return Err(why),
        };
        let fixed = fixed.len() as u32;
        match check_names(&locks, &table, fixed, top) {
            Ok(()) => {}
            Err(why) => return Err(why),
        }
        let rings = Rings { locks, fixed, top };
        Ok(Names { rings, table })
    }

    /// One ring more in the pool, of 10 seats: it is repaired first. What is held and waited for stays, and so do the names.
    ///
    /// # Errors
    ///
    /// `Full`, `Held`, whichever comes first; `Memory`. The names are let go.
    pub fn add(self, alloc: Global, ring: EndlessRing) -> Result<Names, NotGrown>
        requires { IsKeptRing ring }
        ensures ok { IfOk result (λ s. IsGrown self s ring) }
        ensures why { IfErr result (λ e. CannotGrow self ring e) }
    {
        let mut rings = self.rings;
        let mut table = self.table;
        match add_ring(&mut rings, &mut table, alloc, ring) {
            Ok(()) => {}
            Err(why) => return Err(why),
        }
        Ok(Names { rings, table })
    }

    /// The names as they continue in the next segments of their rings: nothing of them changes. These names stay as they are.
    ///
    /// # Errors
    ///
    /// `Full` where no segment has room, `Memory`.
    pub fn next(&self, alloc: Global) -> Result<Names, Refusal>
        ensures ok { IfOk result (λ next. AreNextNames self.now next) }
        ensures why { IfErr result (λ e. HaveNoNext self.now.locks e) }
    {
        self.rings.locks.are_kept();
        let locks = match self.rings.locks.next(alloc) {
            Ok(locks) => locks,
            Err(why) => return Err(why),
        };
        let Ok(table) = self.table.copy(alloc) else {
            return Err(Refusal::Memory);
        };
        let rings = Rings {
            locks,
            fixed: self.rings.fixed,
            top: self.rings.top,
        };
        Ok(Names { rings, table })
    }

    /// The names are right, and there is a ring for each fixed lock, at each moment: this does nothing, and says so.
    pub fn are_kept(&self)
        ensures { IsKeptNamed self.now }
    {
        self.rings.locks.count(); // says: they are kept
    }

    /// How many rings there are.
    pub fn count(&self) -> u32
        ensures { result ≡ length self.now.locks }
    {
        self.rings.locks.count()
    }

    /// How many rings belong to fixed locks. They come first.
    pub fn fixed(&self) -> u32
        ensures { result ≡ self.now.fixed }
    {
        self.rings.fixed
    }

    /// How many grants there were of all rings for ever.
    pub fn top(&self) -> u64
        ensures { result ≡ self.now.top }
    {
        self.rings.top
    }

    /// The locks of all rings.
    pub fn locks(&self) -> &Locks
        ensures { result.now ≡ self.now.locks }
    {
        &self.rings.locks
    }

    /// The lowest ring that has no name, which the next new name gets.
    pub fn free(&self) -> Option<u32>
        ensures { result ≡ free self.now.names }
    {
        self.table.lowest_free()
    }

    /// How many rings of the pool there are up to the last one that has a name.
    pub fn used(&self) -> u32
        ensures { AreUsedUntil self.now.names (self.now.fixed + result) }
    {
        self.rings.locks.are_kept();
        used_among(&self.table, self.rings.fixed)
    }

    /// How a ring is bound, if it has a name.
    pub fn binding(&self, ring: u32) -> Option<&Binding>
        ensures there { (o : Option Bound) → slice_get self.now.names ring ≡ Some o
            → option_map (λ x. bound_of x.now) result ≡ o }
        ensures far { length self.now.names ≤ ring → result ≡ None }
    {
        self.table.binding(ring)
    }

    /// The name of a ring, if it has one.
    pub fn name(&self, ring: u32) -> Option<&str>
        ensures some { (b : Bound) → slice_get self.now.names ring ≡ Some (Some b)
            → option_map (λ x. x.now) result ≡ Some b.name }
        ensures none { slice_get self.now.names ring ≡ Some None → result ≡ None }
        ensures far { length self.now.names ≤ ring → result ≡ None }
    {
        self.table.name(ring)
    }

    /// Hands a name's open hold of client 0 with this token to another client, as [`Locks::hand`] does: it is not an input. False if
    /// client 0 does not hold the name with this token, or a client waits for it; nothing has changed then.
    pub fn hand(&mut self, name: &str, token: u64, client: u64) -> bool
        ensures yes { result ≡ true → IsHandedByName self.old self.new name.now token client }
        ensures no { result ≡ false
            → CannotBeHandedByName self.old name.now token × (self.new ≡ self.old) }
    {
        hand_among(&mut self.rings, &self.table, name, token, client)
    }

    /// A client asks something of a name. A name that no ring has is bound to the lowest free ring by an ask for a hold that is
    /// granted, and is forgotten with the end of a hold that is handed to nobody.
    ///
    /// Refused: `Names` where no ring has the name and none is free; `Holder`, `Waiter` or `Lock` where none has it and the ask is
    /// not for a hold; `Full` where the ask is for a hold, or a fault, and [`TOP_LIMIT`] grants were counted; what the lock of
    /// its ring refuses, with `Full`; or `Memory`. Nothing has changed then.
    ///
    /// It says too how many events the segment of the ring had before that was asked, and has now.
    pub fn ask(&mut self, alloc: Global, client: u64, name: &str, ask: OneAsk) -> NameAsked
        ensures answer { IsAsked self.old self.new client name.now (asked ask) result.answers }
        ensures events { HasEvents self.old.locks self.new.locks result }
    {
        ask_among(&mut self.rings, &mut self.table, alloc, client, name, ask)
    }

    /// A client leaves all names: it waits for none any more, and its holds end. For each name that it held, `left` has an entry
    /// after it, and no other: the ring, that the hold has ended, and the client that is granted the name next, with its
    /// token. This needs neither room nor memory.
    pub fn leave(&mut self, client: u64, left: &mut Vec<Left>)
        requires room { length self.old.locks ≤ vec_capacity left.old }
        ensures left { IsLeftByName self.old self.new client left.new.items }
        ensures capacity { vec_capacity left.new ≡ vec_capacity left.old }
    {
        leave_among(&mut self.rings, &mut self.table, client, left);
    }
}
