//! The locks of a segment, with what its journal has had.

ghost use Rattle.std.specs.Prelude.{◌≡◌, ◌||◌, ◌⊎◌, true, false, slice_get, IfOk, IfErr};
ghost use Rattle.held_locks.specs.declared.answers.Refusal.{Refusal};
ghost use Rattle.held_locks.specs.Cuts.{AreNext};
ghost use Rattle.held_locks.specs.Kept.{IsLeft};
ghost use Rattle.held_locks.specs.Asked.{asked, IsAnswerTo, events_at};
ghost use Rattle.lock_journal.specs.Asking.{is_lack};
ghost use Rattle.lock_journal.specs.Due.{is_due, has_short, HaveNoSegment};
ghost use Rattle.lock_journal.specs.Counting.{IsCounted, IsStart, count_about, count_of_all};

use held_locks::{Left, Locks, OneAnswer, OneAsk, Refusal};
use lock_journal::{
    after_end, after_events, after_left, after_start, has_short, has_short_left, is_short_at,
};
use lock_protocol::LockNames;
use std::alloc::{AllocError, Global};
use std::marker::Model;
use std::rc::Rc;

/// The locks of a segment. Its journal may have `remaining` lines more until it is due.
#[derive(Drop)]
pub(crate) struct Segment {
    locks: Locks,
    /// The names of the locks, which the next segment has too.
    names: Rc<LockNames>,
    /// What the client that left last held, with room for all locks.
    left: Vec<Left>,
    remaining: u64,
    /// Whether a lock was short after some line.
    short: bool,
}

impl Model for Segment {
    ghost use Rattle.std.specs.Prelude.{◌≤◌, length, vec_capacity};
    ghost use Rattle.lock_journal.specs.Counting.{SegmentView, IsWatched};

    ghost Value = { SegmentView };

    ghost view = { λ s. record {
      locks = s.locks;
      names = s.names.value;
      left = s.left.items;
      remaining = s.remaining;
      short = s.short;
    } };

    ghost invariant = { λ s. (length s.locks ≤ vec_capacity s.left) × IsWatched s.locks s.short };
}

/// Whether a lock was short, or is so.
fn was_or_is(was: bool, is: bool) -> bool
    ensures { result ≡ (was || is) }
{
    was || is
}

impl Segment {
    /// The segment with which these locks start. Its journal may have `limit` lines until it is due, those with which it begins
    /// among them.
    ///
    /// # Errors
    ///
    /// Only if memory is short.
    pub(crate) fn start(
        alloc: Global,
        locks: Locks,
        names: LockNames,
        limit: u64,
    ) -> Result<Segment, AllocError>
        ensures { IfOk result (λ s. IsStart limit names locks s) }
    {
        let Ok(left) = Vec::with_capacity(alloc, locks.count() as usize) else {
            return Err(AllocError);
        };
        let Ok(names) = Rc::new(alloc, names) else {
            return Err(AllocError);
        };
        let remaining = after_start(limit, &locks);
        let short = has_short(&locks);
        Ok(Segment {
            locks,
            names,
            left,
            remaining,
            short,
        })
    }

    /// The locks.
    pub(crate) fn locks(&self) -> &Locks
        ensures { result.now ≡ self.now.locks }
    {
        &self.locks
    }

    /// The names of the locks.
    pub(crate) fn names(&self) -> &LockNames
        ensures { result.now ≡ self.now.names }
    {
        self.names.as_ref()
    }

    /// What the client that left last held.
    pub(crate) fn left(&self) -> &[Left]
        ensures { result.now ≡ self.now.left }
    {
        self.left.as_slice()
    }

    /// Whether its journal has had all its lines, or a lock was short.
    pub(crate) fn is_due(&self) -> bool
        ensures { result ≡ is_due self.now.remaining self.now.short }
    {
        self.remaining == 0 || self.short
    }

    /// Asks one lock. Only this lock is looked at, and nothing changes if the asker is refused for lack of room or memory.
    pub(crate) fn ask(&mut self, client: u64, lock: u32, ask: OneAsk) -> OneAnswer
        ensures answer { IsAnswerTo self.old.locks self.new.locks client lock (asked ask)
            result.answers }
        ensures before { result.before ≡ events_at (slice_get self.old.locks lock) }
        ensures counted { IsCounted self.old self.new
            (count_about lock self.old.locks self.new.locks result.answers.ended) }
        ensures lack { is_lack result.answers.own ≡ true → self.new ≡ self.old }
    {
        let done = self.locks.ask(client, lock, ask);
        let remaining = after_end(self.remaining, done.answers.ended);
        self.remaining = after_events(remaining, done.before, done.after);
        self.short = was_or_is(self.short, is_short_at(&self.locks, lock));
        done
    }

    /// A client leaves all locks. It takes no memory.
    pub(crate) fn leave(&mut self, client: u64)
        ensures left { IsLeft self.old.locks self.new.locks client self.new.left }
        ensures counted { IsCounted self.old self.new
            (count_of_all self.new.locks self.new.left) }
    {
        self.left.clear();
        self.locks.leave(client, &mut self.left);
        self.remaining = after_left(self.remaining, &self.locks, self.left.as_slice());
        let short = has_short_left(&self.locks, self.left.as_slice());
        self.short = was_or_is(self.short, short);
    }

    /// The next segment, of the locks as they continue in the next segments of their rings.
    ///
    /// # Errors
    ///
    /// `Full` where no segment has room, or a lock would be short in it; `Memory`.
    pub(crate) fn next(&self, alloc: Global, limit: u64) -> Result<Segment, Refusal>
        ensures locks { IfOk result (λ s. AreNext self.now.locks s.locks) }
        ensures names { IfOk result (λ s. s.names ≡ self.now.names) }
        ensures remaining { IfOk result (λ s. s.remaining ≡ limit) }
        ensures short { IfOk result (λ s. s.short ≡ false) }
        ensures why { IfErr result (λ e. HaveNoSegment self.now.locks e) }
    {
        let locks = match self.locks.next(alloc) {
            Ok(locks) => locks,
            Err(why) => return Err(why),
        };
        if has_short(&locks) {
            return Err(Refusal::Full);
        }
        let Ok(left) = Vec::with_capacity(alloc, locks.count() as usize) else {
            return Err(Refusal::Memory);
        };
        let Ok(names) = self.names.clone() else {
            return Err(Refusal::Memory);
        };
        Ok(Segment {
            locks,
            names,
            left,
            remaining: limit,
            short: false,
        })
    }
}
