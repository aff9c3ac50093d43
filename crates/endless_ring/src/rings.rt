//! A ring whose segment can end and be followed by the next.

ghost use Rattle.std.specs.Prelude.{◌≡◌, ◌<◌, ◌≤◌, ◌+◌, true, IsOk, IfOk, IfErr, OnOk, OnErr, length};
ghost use Rattle.ring_model.specs.Ring.{is_privileged};
ghost use Rattle.ring_model.specs.Resources.{till};
ghost use Rattle.ring_model.specs.declared.events.Op.TheVariants as op;
ghost use Rattle.one_thread_ring.specs.Rings.{IsOneThreadRing};
ghost use Rattle.one_thread_ring.specs.Refusals.{IsDecided, bounds_of, seat_refusal, reserve_refusal, pass_refusal, try_refusal, corrupt_refusal, group_refusal};
ghost use Rattle.ring_model.specs.Bases.{IsBase, base_after};
ghost use Rattle.ring_model.specs.Tallies.{empty_tally, tallied};
ghost use Rattle.endless_ring.specs.declared.rings.NextError.TheVariants as error;
ghost use Rattle.endless_ring.specs.Endless.{IsEndless, IsSameEndless, IsCalled, IsTried, IsGrouped, IsSurveyed, IsNextRing, survey_now};

use one_thread_ring::{CallError, OneThreadRing};
use ring_book::{GroupReceipt, Till};
use ring_model::{Base, Receipt, Survey, Tally};
use std::alloc::Global;
use std::marker::Model;

/// A ring over a till whose history has no end: a segment of it in memory, and the base of the segment.
///
/// Contracts see the base and the segment.
#[derive(Drop)]
pub struct EndlessRing {
    base: Base,
    quiet: bool, // whether no corruption came in the segment: all else is in its history
    ring: OneThreadRing<Till>,
}

impl Model for EndlessRing {
    ghost use Rattle.endless_ring.specs.Endless.{EndlessView, IsKnown};

    ghost Value = { EndlessView };

    ghost view = { λ e. record { base = e.base; ring = e.ring } };

    ghost invariant = { λ e. IsKnown e.base e.quiet e.ring };
}

/// Why there is no next segment.
#[derive(Clone, Copy, Debug, PartialEq, Eq)]
pub enum NextError {
    /// No segment has room after this one: its numbers would not have 64 bits.
    Full,
    OutOfMemory,
}

/// A ring that has no next segment, and why.
#[derive(Drop)]
pub struct Uncut {
    pub ring: EndlessRing,
    pub why: NextError,
}

impl EndlessRing {
    /// A ring whose segment is this one, after this base.
    pub fn after(base: Base, ring: OneThreadRing<Till>) -> EndlessRing
        requires base { IsBase base }
        requires ring { IsOneThreadRing till 0 ring }
        ensures is { IsEndless result }
        ensures base { result.base ≡ base }
        ensures ring { result.ring ≡ ring }
    {
        EndlessRing {
            base,
            quiet: Tally::empty().with_events(ring.history()).quiet,
            ring,
        }
    }

    /// The base of the segment.
    pub fn base(&self) -> &Base
        ensures is { result.now ≡ self.now.base }
        ensures endless { IsEndless self.now }
    {
        &self.base
    }

    /// The segment, which counts by itself.
    pub fn segment(&self) -> &OneThreadRing<Till>
        ensures is { result.now ≡ self.now.ring }
        ensures endless { IsEndless self.now }
    {
        &self.ring
    }

    /// The tally of the segment.
    fn tally(&self) -> Tally
        ensures { result ≡ tallied empty_tally self.now.ring.book.history }
    {
        Tally::of(self.ring.history(), self.quiet)
    }

    /// How many passes were granted, over all segments.
    pub fn grants(&self) -> u64
        ensures { result ≡ self.now.base.grants + self.now.ring.book.now.grants }
    {
        self.base.grants + self.tally().grants
    }

    /// Takes memory for `more` events of the segment, so that this many calls are not refused for lack of it.
    ///
    /// # Errors
    ///
    /// Those of [`OneThreadRing::reserve`]. Nothing has changed then.
    pub fn reserve(&mut self, more: u32) -> Result<(), CallError>
        ensures ok { OnOk result (more ≤ self.new.ring.book.room) }
        ensures same { IsSameEndless self.old self.new }
        ensures endless { IsEndless self.new }
        ensures refused { IsDecided (reserve_refusal (bounds_of self.old.ring) more) result }
        ensures err { OnErr result (self.new ≡ self.old) }
    {
        match self.ring.reserve(more) {
            Ok(()) => Ok(()),
            Err(error) => Err(error),
        }
    }

    /// A pass by a machine, for a seat; its receipt is shifted.
    ///
    /// With room for an event, it is not refused for lack of room or memory.
    ///
    /// # Errors
    ///
    /// Those of [`OneThreadRing::pass`]. Nothing has changed then.
    #[inline(always)]
    pub fn pass(&mut self, seat: u32, machine: u32, order: u64) -> Result<Receipt, CallError>
        ensures ok { IfOk result
            (λ r. IsCalled self.old self.new seat (op.Pass machine order) r) }
        ensures endless { IsEndless self.new }
        ensures err { OnErr result (self.new ≡ self.old) }
        ensures refused { IsDecided (pass_refusal (bounds_of self.old.ring) seat machine) result }
        ensures succeeds { 1 ≤ self.old.ring.book.room
            → pass_refusal (bounds_of self.old.ring) seat machine ≡ None → IsOk result }
        ensures room { OnOk result (self.old.ring.book.room ≤ self.new.ring.book.room + 1) }
    {
        let receipt = match self.ring.pass(seat, machine, order) {
            Ok(receipt) => receipt,
            Err(error) => return Err(error),
        };
        Ok(self.base.shift_receipt(receipt))
    }

    /// A pass by a machine that is privileged, for a seat that there is, where the segment has room for an event: it is not
    /// refused. Its receipt is shifted.
    #[inline(always)]
    pub fn grant(&mut self, seat: u32, machine: u32, order: u64) -> Receipt
        requires seat { seat < length self.old.ring.clients }
        requires machine { machine < length self.old.ring.book.now.ring.values }
        requires privileged { is_privileged self.old.ring.book.now.ring.values machine ≡ true }
        requires room { 1 ≤ self.old.ring.book.room }
        ensures called { IsCalled self.old self.new seat (op.Pass machine order) result }
        ensures endless { IsEndless self.new }
        ensures room { self.old.ring.book.room ≤ self.new.ring.book.room + 1 }
    {
        let receipt = self.ring.grant(seat, machine, order);
        self.base.shift_receipt(receipt)
    }

    /// A pass by a machine, for a seat, if the machine is privileged, with its receipt, shifted; if it is not, nothing changes.
    ///
    /// # Errors
    ///
    /// Those of [`OneThreadRing::try_pass`]. Nothing has changed then.
    pub fn try_pass(
        &mut self,
        seat: u32,
        machine: u32,
        order: u64,
    ) -> Result<Option<Receipt>, CallError>
        ensures ok { IfOk result (λ r. IsTried self.old self.new seat machine order r) }
        ensures endless { IsEndless self.new }
        ensures err { OnErr result (self.new ≡ self.old) }
        ensures refused { IsDecided (try_refusal (bounds_of self.old.ring) seat machine) result }
    {
        let receipt = match self.ring.try_pass(seat, machine, order) {
            Ok(Some(receipt)) => receipt,
            Ok(None) => return Ok(None),
            Err(error) => return Err(error),
        };
        Ok(Some(self.base.shift_receipt(receipt)))
    }

    /// A fault, for a seat: a value is written into a machine; its receipt is shifted.
    ///
    /// With room for an event, it is not refused for lack of room or memory.
    ///
    /// # Errors
    ///
    /// Those of [`OneThreadRing::corrupt`]. Nothing has changed then.
    pub fn corrupt(&mut self, seat: u32, machine: u32, value: u32) -> Result<Receipt, CallError>
        ensures ok { IfOk result
            (λ r. IsCalled self.old self.new seat (op.Corrupt machine value) r) }
        ensures endless { IsEndless self.new }
        ensures err { OnErr result (self.new ≡ self.old) }
        ensures refused { IsDecided
            (corrupt_refusal (bounds_of self.old.ring) seat machine value) result }
        ensures succeeds { 1 ≤ self.old.ring.book.room
            → corrupt_refusal (bounds_of self.old.ring) seat machine value ≡ None
            → IsOk result }
        ensures room { OnOk result (self.old.ring.book.room ≤ self.new.ring.book.room + 1) }
    {
        let receipt = match self.ring.corrupt(seat, machine, value) {
            Ok(receipt) => receipt,
            Err(error) => return Err(error),
        };
        self.quiet = false;
        Ok(self.base.shift_receipt(receipt))
    }

    /// A pass by a group of machines at once, for a seat; the place of its block is shifted.
    ///
    /// # Errors
    ///
    /// Those of [`OneThreadRing::pass_group`]. Nothing has changed then.
    pub fn pass_group(
        &mut self,
        seat: u32,
        machines: &[u32],
        order: u64,
    ) -> Result<GroupReceipt, CallError>
        ensures ok { IfOk result (λ r. IsGrouped self.old self.new seat order machines.now r) }
        ensures endless { IsEndless self.new }
        ensures err { OnErr result (self.new ≡ self.old) }
        ensures refused { IsDecided
            (group_refusal (bounds_of self.old.ring) seat machines.now) result }
    {
        let receipt = match self.ring.pass_group(seat, machines, order) {
            Ok(receipt) => receipt,
            Err(error) => return Err(error),
        };
        Ok(GroupReceipt {
            first: self.base.events + receipt.first,
            count: receipt.count,
        })
    }

    /// A survey of the segment's end, shifted; the seat's log keeps it as the segment counts.
    ///
    /// # Errors
    ///
    /// Those of [`OneThreadRing::survey`]. Nothing has changed then.
    pub fn survey(&mut self, seat: u32) -> Result<Survey, CallError>
        ensures ok { IfOk result (λ s. IsSurveyed self.old self.new seat s) }
        ensures endless { IsEndless self.new }
        ensures err { OnErr result (self.new ≡ self.old) }
        ensures refused { IsDecided (seat_refusal (bounds_of self.old.ring) seat) result }
    {
        let survey = match self.ring.survey(seat) {
            Ok(survey) => survey,
            Err(error) => return Err(error),
        };
        Ok(self.base.shift_survey(self.quiet, survey))
    }

    /// The same survey, which no log keeps.
    pub fn glance(&self) -> Survey
        ensures { result ≡ survey_now self.now }
    {
        self.base.shift_survey(self.quiet, self.ring.glance())
    }

    /// The ring with its next segment, which has no events. This one does not change.
    ///
    /// # Errors
    ///
    /// `Full` exactly where no segment has room after this one, or `OutOfMemory`.
    pub fn next(&self, alloc: Global) -> Result<EndlessRing, NextError>
        ensures ok { IfOk result (λ next. IsNextRing self.now next) }
        ensures is { IfOk result (λ next. IsEndless next) }
        ensures full { IfErr result (λ e. e ≡ error.Full
            → ¬ IsBase (base_after self.now.base self.now.ring.book.start
            self.now.ring.book.history)) }
        ensures memory { IfErr result (λ e. e ≡ error.OutOfMemory
            → IsBase (base_after self.now.base self.now.ring.book.start
            self.now.ring.book.history)) }
    {
        let Some(base) = self.base.next(self.tally(), self.ring.glance()) else {
            return Err(NextError::Full);
        };
        let Ok(ring) = self.ring.successor(alloc, Till::new()) else {
            return Err(NextError::OutOfMemory);
        };
        Ok(EndlessRing {
            base,
            quiet: true,
            ring,
        })
    }

    /// Ends the segment and begins the next.
    ///
    /// # Errors
    ///
    /// The ring as it was, with the error of [`EndlessRing::next`].
    pub fn cut(self, alloc: Global) -> Result<EndlessRing, Uncut>
        ensures ok { IfOk result (λ next. IsNextRing self next × IsEndless next) }
        ensures err { IfErr result (λ uncut. uncut.ring ≡ self) }
        ensures full { IfErr result (λ uncut. uncut.why ≡ error.Full
            → ¬ IsBase (base_after self.base self.ring.book.start self.ring.book.history)) }
        ensures memory { IfErr result (λ uncut. uncut.why ≡ error.OutOfMemory
            → IsBase (base_after self.base self.ring.book.start self.ring.book.history)) }
    {
        match self.next(alloc) {
            Ok(next) => Ok(next),
            Err(why) => Err(Uncut { ring: self, why }),
        }
    }
}
