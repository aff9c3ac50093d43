//! The copy that readers see, and what brings it up to date.
ghost use Rattle.std.specs.Prelude.{◌≡◌, ◌+◌, ◌<◌, ◌≤◌, ◌++◌, ◌∷◌, [], List, length, true, false};
ghost use Rattle.ring_model.specs.Surveys.{calm as calm_of};
ghost use Rattle.ring_model.specs.declared.events.Event.{Event};
ghost use Rattle.ring_shared.specs.Folds.{ring_after, survey_of, IsSummary, IsSummaryWithin, IsWritten};
ghost use Rattle.ring_shared.specs.Holding.{IsHeld};
ghost use Rattle.ring_logs.specs.Replays.{IsCallOf, machine_of};
ghost use Rattle.ring_shared.specs.Stepping.{stepped};

use crate::front::Front;
use crate::names::Name;
use crate::summary::{Effect, Summary};
use left_right::Absorb;
use ring_book::{Book, Resource};
use ring_model::{Event, Op, Survey};
use ring_state::RingState;
use std::alloc::AllocError;
use std::marker::Model;

/// The summary of a list of events, with that list's front. Contracts see it as the list.
#[derive(Drop)]
pub struct Shown<N: Name> {
    summary: Summary,
    front: Front<N>,
}

impl<N: Name> Model for Shown<N> {
    ghost use Rattle.std.specs.Prelude.{List};
    ghost use Rattle.ring_model.specs.declared.events.Event.{Event};
    ghost use Rattle.ring_shared.specs.Folds.{IsSummary};

    ghost Value = { List Event };

    ghost view = { λ s. s.front };

    ghost invariant = { λ s.
        IsSummary N.start s.front s.summary.ring s.summary.position s.summary.calm };
}

/// The effect of events on the ring of a summary.
#[derive(Drop)]
enum Change {
    /// One event leaves this value in this machine.
    Write { machine: u32, value: u32 },
    /// The events of a block lead to this ring.
    Become(RingState),
}

/// The effect of an event or a block on a summary: the change of the ring, and the calm after it; and the front that
/// ends with it. Contracts see that front, and whether it is a block that ends it.
#[derive(Drop)]
pub struct Operation<N: Name> {
    change: Change,
    calm: u64,
    front: Front<N>,
}

impl<N: Name> Model for Operation<N> {
    ghost use Rattle.ring_shared.specs.Folds.{IsEffect, is_block};
    ghost use Rattle.ring_shared.specs.Stepping.{Target};

    ghost Value = { Target };

    ghost view = { λ o. record { list = o.front; block = is_block o.change } };

    ghost invariant = { λ o. IsEffect N.start o.front o.change o.calm };
}

impl<N: Name> Shown<N> {
    /// The start.
    pub(crate) fn new(start: RingState, front: Front<N>) -> Shown<N>
        requires start { start ≡ N.start }
        requires front { front ≡ [] }
        ensures { result ≡ [] }
    {
        Shown {
            summary: Summary::new(start),
            front,
        }
    }

    /// The survey of the list.
    pub(crate) fn survey(&self) -> Survey
        ensures { result ≡ survey_of N.start self.now }
    {
        self.summary.survey()
    }

    /// Writes the summary of the list over another, which is of a prefix of it.
    pub(crate) fn copy_to(&self, summary: &mut Summary)
        requires { IsSummaryWithin N.start self.now summary.old.ring summary.old.position
            summary.old.calm }
        ensures { IsSummary N.start self.now summary.new.ring summary.new.position
            summary.new.calm }
    {
        summary.go_to(&self.summary.ring, self.summary.position, self.summary.calm);
    }

    /// Brings another summary up to the list, where it has a prefix of that. Where it lacks only the last event, nothing
    /// but the value of that event is written.
    pub(crate) fn lead_on(&self, summary: &mut Summary, effect: Effect)
        requires within { IsSummaryWithin N.start self.now summary.old.ring summary.old.position
            summary.old.calm }
        requires effect { IsWritten N.start self.now effect.machine effect.value effect.calm }
        ensures { IsSummary N.start self.now summary.new.ring summary.new.position
            summary.new.calm }
    {
        self.front.len(); // says: it is not too long
        if summary.position + 1 == self.summary.position {
            summary.go_on(effect.machine, effect.value, effect.calm);
        } else {
            self.copy_to(summary);
        }
    }

    pub(crate) fn front(&self) -> Front<N>
        ensures { result ≡ self.now }
    {
        self.front.again()
    }

    /// Moves on to a list that is one event longer, which left this value in this machine and the calm there. Another
    /// list changes nothing.
    fn take_event(&mut self, machine: u32, value: u32, calm: u64, front: &Front<N>)
        requires { IsWritten N.start front.now machine value calm }
        ensures { self.new ≡ stepped self.old (record { list = front.now; block = false }) }
    {
        self.front.compare(front); // says: the shorter of the two is a prefix of the longer
        if front.len() == self.front.len() + 1 {
            self.summary.go_on(machine, value, calm);
            self.front = front.again();
        }
    }

    /// Moves on to a list that is longer, with the ring and the calm there. Another list changes nothing.
    fn take_block(&mut self, ring: &RingState, calm: u64, front: &Front<N>)
        requires ring { ring.now ≡ ring_after N.start front.now }
        requires calm { calm ≡ calm_of front.now }
        ensures { self.new ≡ stepped self.old (record { list = front.now; block = true }) }
    {
        if self.front.len() < front.len() {
            self.summary.go_to(ring, front.len(), calm);
            self.front = front.again();
        }
    }
}

/// The machine that a call names.
fn machine_named(op: Op) -> u32
    ensures { result ≡ machine_of op }
{
    match op {
        Op::Pass { machine, .. } | Op::Member { machine, .. } => machine,
        Op::Corrupt { machine, .. } => machine,
    }
}

/// Returns the effect of the event that ends the book's history.
#[inline(always)]
pub(crate) fn last_effect<N: Name, R: Resource + Drop>(book: &Book<R>, event: Event) -> Effect
    requires held { IsHeld R.works R.first N.start N.seats N.legal book.now }
    requires call { IsCallOf N.start event.op }
    requires last { (before : List Event) × (book.now.history ≡ before ++ event ∷ []) }
    ensures { IsWritten N.start book.now.history result.machine result.value result.calm }
{
    let machine = machine_named(event.op);
    Effect {
        machine,
        value: book.state().get(machine),
        calm: book.calm(),
    }
}

impl<N: Name> Operation<N> {
    /// It changes nothing.
    pub(crate) fn nothing(front: Front<N>) -> Operation<N>
        requires machine { 0 < length N.start.values }
        requires value { 0 < N.start.k }
        requires front { front ≡ [] }
        ensures { result ≡ record { list = []; block = false } }
    {
        Operation {
            change: Change::Write {
                machine: 0,
                value: 0,
            },
            calm: 0,
            front,
        }
    }

    /// Returns the effect of the event that ends the list of this front on a summary of that list without it.
    #[inline(always)]
    pub(crate) fn event(effect: Effect, front: Front<N>) -> Operation<N>
        requires { IsWritten N.start front effect.machine effect.value effect.calm }
        ensures { result ≡ record { list = front; block = false } }
    {
        Operation {
            change: Change::Write {
                machine: effect.machine,
                value: effect.value,
            },
            calm: effect.calm,
            front,
        }
    }

    /// Returns the effect of the block that ends the book's history on the shown state, whatever part of the history that is. The
    /// ring is the book's.
    pub(crate) fn block<R: Resource + Drop>(
        book: &Book<R>,
        ring: RingState,
        front: Front<N>,
    ) -> Operation<N>
        requires held { IsHeld R.works R.first N.start N.seats N.legal book.now }
        requires ring { ring ≡ book.now.now.ring }
        requires front { front ≡ book.now.history }
        ensures { result ≡ record { list = front; block = true } }
    {
        Operation {
            change: Change::Become(ring),
            calm: book.calm(),
            front,
        }
    }
}

impl<N: Name> Absorb<Operation<N>> for Shown<N> {
    ghost use Rattle.ring_shared.specs.Stepping.{stepped};

    type State = [Event; 0];

    ghost state = { λ s. s };

    ghost applied = { stepped };

    ghost never_fails = { Unit {0} };

    fn absorb_first(
        &mut self,
        operation: &Operation<N>,
        _other: &Shown<N>,
    ) -> Result<(), AllocError> {
        match &operation.change {
            Change::Write { machine, value } => {
                self.take_event(*machine, *value, operation.calm, &operation.front);
            }
            Change::Become(ring) => self.take_block(ring, operation.calm, &operation.front),
        }
        Ok(())
    }
}
