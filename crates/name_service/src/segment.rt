//! Locks by any name in a segment, with what its journal has had.

ghost use Rattle.std.specs.Prelude.{◌≡◌, ℕ, ◌+◌, ◌-◌, ◌||◌, [], true, None, option_map, IfOk};
ghost use Rattle.held_locks.specs.Asked.{asked};
ghost use Rattle.lock_names.specs.Kept.{IsAsked, HasEvents};
ghost use Rattle.lock_names.specs.Leaves.{IsLeftByName};
ghost use Rattle.lock_journal.specs.Due.{is_due, has_short_left};
ghost use Rattle.lock_journal.specs.Counting.{IsWatched, end_count, count_of_all};
ghost use Rattle.name_service.specs.Naming.{IsNameCounted, count_at, is_short_asked, has_no_pool, is_wanting, reply_told, is_name_lack};

use held_locks::{Left, OneAsk};
use lock_journal::{after_end, after_events, after_left, has_short_left, is_short_at};
use lock_names::{NameAsked, Names};
use std::alloc::{AllocError, Global};
use std::marker::Model;

/// The locks of a segment with their names. Its journal may have `remaining` lines more until it is due.
#[derive(Drop)]
pub(crate) struct NameSegment {
    /// The memory of names that are new.
    alloc: Global,
    names: Names,
    /// What the client that left last held, with room for all rings.
    left: Vec<Left>,
    remaining: u64,
    /// Whether a ring was short after some line.
    short: bool,
}

impl Model for NameSegment {
    ghost use Rattle.std.specs.Prelude.{◌≤◌, length, vec_capacity};
    ghost use Rattle.lock_journal.specs.Counting.{IsWatched};
    ghost use Rattle.name_service.specs.Naming.{NamingView};

    ghost Value = { NamingView };

    ghost view = { λ s. record {
      named = s.names;
      left = s.left.items;
      remaining = s.remaining;
      short = s.short;
    } };

    ghost invariant = { λ s. (length s.names.locks ≤ vec_capacity s.left)
        × IsWatched s.names.locks s.short };
}

/// How much a journal may have yet, and whether a ring was short.
#[derive(Clone, Copy)]
struct Watch {
    remaining: u64,
    short: bool,
}

/// Whether the list has no pool: there is no ring beside those of the fixed locks, and there may be none.
pub(crate) fn has_no_pool(names: &Names, most: u32) -> bool
    ensures { result ≡ has_no_pool most names.now }
{
    most == 0 && names.count() <= names.fixed()
}

/// Whether no ring is free, and the pool may have this number of them and has fewer.
pub(crate) fn is_wanting(names: &Names, most: u32) -> bool
    ensures { result ≡ is_wanting most names.now }
{
    names.free().is_none() && names.count().saturating_sub(names.fixed()) < most
}

/// Whether the ring that was asked is short.
fn is_short_asked(names: &Names, ring: Option<u32>) -> bool
    ensures { result ≡ is_short_asked names.now.locks ring }
{
    match ring {
        Some(ring) => is_short_at(names.locks(), ring),
        None => false,
    }
}

/// What follows of an answer. Only the ring that was asked is looked at.
fn after_ask(names: &Names, watch: Watch, asked: NameAsked) -> Watch
    ensures remaining { result.remaining ≡ watch.remaining
        - (end_count asked.answers.ended + (asked.after - asked.before)) }
    ensures short { result.short
        ≡ (watch.short || is_short_asked names.now.locks asked.answers.ring) }
{
    let remaining = after_end(watch.remaining, asked.answers.ended);
    Watch {
        remaining: after_events(remaining, asked.before, asked.after),
        short: watch.short || is_short_asked(names, asked.answers.ring),
    }
}

/// What follows of a leave of these holds.
fn after_leave(names: &Names, watch: Watch, left: &[Left]) -> Watch
    ensures remaining { result.remaining
        ≡ watch.remaining - count_of_all names.now.locks left.now }
    ensures short { result.short ≡ (watch.short || has_short_left names.now.locks left.now) }
{
    let locks = names.locks();
    Watch {
        remaining: after_left(watch.remaining, locks, left),
        short: watch.short || has_short_left(locks, left),
    }
}

impl NameSegment {
    /// A segment of these names. Its journal may have `remaining` lines more until it is due.
    ///
    /// # Errors
    ///
    /// Only if memory is short. The names are let go then.
    pub(crate) fn begin(
        alloc: Global,
        names: Names,
        remaining: u64,
        short: bool,
    ) -> Result<NameSegment, AllocError>
        requires { IsWatched names.locks short }
        ensures { IfOk result (λ s. s ≡ record {
          named = names;
          left = [];
          remaining = remaining;
          short = short;
        }) }
    {
        let Ok(left) = Vec::with_capacity(alloc, names.count() as usize) else {
            return Err(AllocError);
        };
        Ok(NameSegment {
            alloc,
            names,
            left,
            remaining,
            short,
        })
    }

    /// The locks with their names.
    pub(crate) fn names(&self) -> &Names
        ensures { result.now ≡ self.now.named }
    {
        &self.names
    }

    /// What the client that left last held.
    pub(crate) fn left(&self) -> &[Left]
        ensures { result.now ≡ self.now.left }
    {
        self.left.as_slice()
    }

    /// Whether its journal has had all its lines, or a ring was short.
    pub(crate) fn is_due(&self) -> bool
        ensures { result ≡ is_due self.now.remaining self.now.short }
    {
        self.remaining == 0 || self.short
    }

    /// Asks a name. Only its ring is looked at, and nothing changes if the asker is refused for lack of room, of memory or of rings.
    pub(crate) fn ask(&mut self, client: u64, name: &str, ask: OneAsk) -> NameAsked
        ensures answer { IsAsked self.old.named self.new.named client name.now (asked ask)
            result.answers }
        ensures events { HasEvents self.old.named.locks self.new.named.locks result }
        ensures counted { IsNameCounted self.old self.new
            (count_at result.answers.ring self.old.named self.new.named result.answers) }
        ensures lack { is_name_lack (option_map (reply_told true) result.answers.own) ≡ true
            → self.new ≡ self.old }
        ensures unreached { result.answers.ring ≡ None → self.new ≡ self.old }
    {
        let watch = Watch {
            remaining: self.remaining,
            short: self.short,
        };
        let asked = self.names.ask(self.alloc, client, name, ask);
        let after = after_ask(&self.names, watch, asked);
        self.remaining = after.remaining;
        self.short = after.short;
        asked
    }

    /// A client leaves all names. It takes no memory.
    pub(crate) fn leave(&mut self, client: u64)
        ensures left { IsLeftByName self.old.named self.new.named client self.new.left }
        ensures counted { IsNameCounted self.old self.new
            (count_of_all self.new.named.locks self.new.left) }
    {
        let watch = Watch {
            remaining: self.remaining,
            short: self.short,
        };
        self.names.leave(client, &mut self.left);
        let after = after_leave(&self.names, watch, self.left.as_slice());
        self.remaining = after.remaining;
        self.short = after.short;
    }
}
