//! A ring, replayed event by event.

ghost use Rattle.std.specs.Prelude.{◌≡◌, ◌+◌, ◌<◌, ◌≤◌, ◌^◌, length, map, true, IfOk};
ghost use Rattle.ring_model.specs.declared.events.Reply.TheVariants.{NotPrivileged};
ghost use Rattle.ring_model.specs.Ring.{ring_with, IsRing};
ghost use Rattle.ring_model.specs.History.{Step, next};
ghost use Rattle.ring_model.specs.Resources.{till};
ghost use Rattle.ring_model.proofs.Histories.{calm_next};
ghost use Rattle.ring_check.specs.Table.{event_of, in_range, is_replied, event_fault};
ghost use Rattle.ring_check.specs.Replays.{state_of, survey_where, Measures};

use crate::answers::Kind;
use crate::gauge::Gauge;
use crate::group_lines::may_come;
use crate::measures::is_privileged;
use ring_model::Survey;
use ring_model::limits::SEAT_LIMIT;
use saved_history::SavedEvent;
use std::alloc::{AllocError, Global};

/// A ring over a till as some events of a block leave it.
#[derive(Drop)]
pub(crate) struct Replay {
    pub(crate) k: u32,
    pub(crate) values: Vec<u32>,
    /// The till's amount.
    pub(crate) amount: u64,
    /// How many passes were granted.
    pub(crate) grants: u64,
    /// The granted passes since the last corruption.
    pub(crate) calm: u64,
}

impl Replay {
    /// The ring before any event.
    pub(crate) fn begin(alloc: Global, k: u32, start: &[u32]) -> Result<Replay, AllocError>
        ensures { IfOk result (λ r. (r.k ≡ k)
            × (r.values.items ≡ start.now)
            × (r.amount ≡ 0)
            × (r.grants ≡ 0)
            × (r.calm ≡ 0)) }
    {
        Ok(Replay {
            k,
            values: Vec::from_slice(alloc, start)?,
            amount: 0,
            grants: 0,
            calm: 0,
        })
    }

    /// Whether an event is a call of this ring by one of the seats.
    fn is_in_range(&self, event: &SavedEvent) -> bool
        ensures { result ≡ in_range (length self.now.values.items) self.now.k (event_of event.now) }
    {
        match *event {
            SavedEvent::Granted { seat, machine, .. }
            | SavedEvent::Refused { seat, machine, .. }
            | SavedEvent::Member { seat, machine, .. } => {
                (seat as usize) < SEAT_LIMIT && (machine as usize) < self.values.len()
            }
            SavedEvent::Corrupted {
                seat,
                machine,
                value,
                ..
            } => (seat as usize) < SEAT_LIMIT
                && (machine as usize) < self.values.len()
                && value < self.k,
        }
    }

    /// Whether the reply of an event is the ring's at this point.
    fn is_replied(&self, event: &SavedEvent) -> bool
        requires call { in_range (length self.now.values.items) self.now.k (event_of event.now)
            ≡ true }
        requires room { self.now.grants + 1 < 2 ^ 64 }
        ensures { result ≡ is_replied (state_of self.now) (event_of event.now) }
    {
        match *event {
            SavedEvent::Granted {
                machine,
                order,
                number,
                result,
                ..
            }
            | SavedEvent::Member {
                machine,
                order,
                number,
                result,
                ..
            } => {
                is_privileged(&self.values, machine as usize)
                    && number == self.grants + 1
                    && result == self.amount.saturating_add(order)
            }
            SavedEvent::Refused { machine, .. } => !is_privileged(&self.values, machine as usize),
            SavedEvent::Corrupted { machine, old, .. } => old == self.values[machine as usize],
        }
    }

    /// Returns the fault of an event at this point; `run` has the members of the block that is open here.
    pub(crate) fn fault_of(&self, run: &[SavedEvent], event: &SavedEvent) -> Option<Kind>
        requires room { self.now.grants + 1 < 2 ^ 64 }
        ensures { result
            ≡ event_fault (length self.now.values.items) (map event_of run.now) (state_of self.now)
            (event_of event.now) }
    {
        if !self.is_in_range(event) {
            Some(Kind::Range)
        } else if !self.is_replied(event) {
            Some(Kind::Reply)
        } else if !may_come(self.values.len(), run, event) {
            Some(Kind::Group)
        } else {
            None
        }
    }

    /// Does what an event without a fault says.
    pub(crate) fn apply(&mut self, event: &SavedEvent)
        requires ring { IsRing (state_of self.old).ring }
        requires step { Step till (state_of self.old) (event_of event.now)
            (next till (state_of self.old) (event_of event.now).op) }
        requires room { (self.old.grants + 1 < 2 ^ 64) × (self.old.calm + 1 < 2 ^ 64) }
        ensures state { state_of self.new ≡ next till (state_of self.old) (event_of event.now).op }
        ensures calm { self.new.calm ≡ calm_next self.old.calm (event_of event.now).reply }
        ensures stays { (event_of event.now).reply ≡ NotPrivileged → self.new ≡ self.old }
    {
        match *event {
            SavedEvent::Granted { machine, order, .. }
            | SavedEvent::Member { machine, order, .. } => {
                let i = machine as usize;
                self.values[i] = if i == 0 {
                    (self.values[0] + 1) % self.k
                } else {
                    self.values[i - 1]
                };
                self.amount = self.amount.saturating_add(order);
                self.grants += 1;
                self.calm += 1;
            }
            SavedEvent::Refused { .. } => {}
            SavedEvent::Corrupted { machine, value, .. } => {
                self.values[machine as usize] = value;
                self.calm = 0;
            }
        }
    }

    /// Returns the survey of the ring at this point, by the measures of a gauge.
    pub(crate) fn survey(&self, gauge: &Gauge, position: u64) -> Survey
        requires ring { IsRing (state_of self.now).ring }
        requires measured { Measures gauge.now self.now }
        ensures { result ≡ survey_where self.now position }
    {
        Survey {
            position,
            privileged: gauge.privileged_count(),
            first: gauge.first_privileged(),
            calm: self.calm,
            rest: gauge.rest(),
        }
    }
}
