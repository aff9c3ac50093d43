//! The one-thread ring, event by event, with its own replies.

ghost use Rattle.std.specs.Prelude.{◌≡◌, ◌+◌, ◌<◌, ◌^◌, cond, nat_lt, length, map, true, IfOk};
ghost use Rattle.ring_model.specs.Limits.{seat_limit};
ghost use Rattle.ring_model.specs.History.{next, reply};
ghost use Rattle.ring_model.specs.Resources.{till};
ghost use Rattle.ring_model.specs.Surveys.{survey_from};
ghost use Rattle.ring_model.specs.Replay.{machine_of};
ghost use Rattle.ring_model.specs.declared.events.Op.TheVariants as op;
ghost use Rattle.ring_model.proofs.Histories.{calm_next};
ghost use Rattle.ring_check.specs.Table.{event_of, first_state, in_range, same_reply, event_fault};
ghost use Rattle.bad_lines.specs.BadLines.{bad_of};
ghost use Rattle.bad_lines.specs.Replays.{state_of};
ghost use Rattle.bad_lines.specs.Wrongs.{range_wrong, group_wrong, event_wrong};

use crate::wrongs::{Bad, Wrong};
use ring_check::{Kind, goes_on, may_come};
use ring_model::limits::SEAT_LIMIT;
use ring_model::{Reply, Survey};
use ring_settle::survey_here;
use ring_state::RingState;
use saved_history::SavedEvent;
use std::alloc::{AllocError, Global};

/// A ring over a till as some events leave it, whatever their lines say that it replied.
#[derive(Drop)]
pub(crate) struct Replay {
    pub(crate) state: RingState,
    /// The till's amount.
    pub(crate) amount: u64,
    /// How many passes were granted.
    pub(crate) grants: u64,
    /// The granted passes since the last corruption.
    pub(crate) calm: u64,
}

/// The reply that an event line records.
fn reply_told(event: &SavedEvent) -> Reply
    ensures { result ≡ (event_of event.now).reply }
{
    match *event {
        SavedEvent::Granted { number, result, .. } | SavedEvent::Member { number, result, .. } => {
            Reply::Granted { number, result }
        }
        SavedEvent::Refused { .. } => Reply::NotPrivileged,
        SavedEvent::Corrupted { old, .. } => Reply::Corrupted { old },
    }
}

/// Whether two replies are the same.
fn same_reply(a: Reply, b: Reply) -> bool
    ensures { result ≡ same_reply a b }
{
    match (a, b) {
        (
            Reply::Granted { number, result },
            Reply::Granted {
                number: other_number,
                result: other_result,
            },
        ) => number == other_number && result == other_result,
        (Reply::NotPrivileged, Reply::NotPrivileged) => true,
        (Reply::Corrupted { old }, Reply::Corrupted { old: other_old }) => old == other_old,
        _ => false,
    }
}

/// A number that should be below a limit.
fn over(there: u32, limit: u32) -> Wrong
    ensures { result ≡ Wrong.Limit there limit }
{
    Wrong::Limit {
        there: there as u64,
        limit: limit as u64,
    }
}

/// The seat or the machine of a pass that is too large.
fn pass_wrong(n: u32, seat: u32, machine: u32) -> Wrong
    ensures { result
        ≡ cond (nat_lt seat seat_limit) (Wrong.Limit machine n) (Wrong.Limit seat seat_limit) }
{
    if seat as usize >= SEAT_LIMIT {
        over(seat, SEAT_LIMIT as u32)
    } else {
        over(machine, n)
    }
}

/// The number of a call, or its seat, that is too large for a ring of n machines and K values.
fn range_wrong(n: u32, k: u32, event: &SavedEvent) -> Wrong
    ensures { result ≡ range_wrong n k (event_of event.now) }
{
    match *event {
        SavedEvent::Granted { seat, machine, .. }
        | SavedEvent::Refused { seat, machine, .. }
        | SavedEvent::Member { seat, machine, .. } => pass_wrong(n, seat, machine),
        SavedEvent::Corrupted {
            seat,
            machine,
            value,
            ..
        } => {
            if machine < n && (seat as usize) < SEAT_LIMIT {
                over(value, k)
            } else {
                pass_wrong(n, seat, machine)
            }
        }
    }
}

/// What is wrong with a call that may not come where the last one has this many members left.
fn group_wrong(n: u32, run: &[SavedEvent], last: u32, event: &SavedEvent) -> Wrong
    ensures { result
        ≡ group_wrong n (map event_of run.now) last (event_of event.now).seat (event_of event.now).op }
{
    let unfinished = Wrong::Unfinished {
        left: last.saturating_sub(1),
    };
    match *event {
        SavedEvent::Member {
            seat,
            order,
            left,
            ..
        } => {
            if left as u64 + 1 >= n as u64 {
                Wrong::Limit {
                    there: left as u64,
                    limit: n.saturating_sub(1) as u64,
                }
            } else if goes_on(run, seat, order, left) {
                Wrong::Disordered
            } else {
                unfinished
            }
        }
        _ => unfinished,
    }
}

impl Replay {
    /// The ring before any event.
    pub(crate) fn begin(alloc: Global, start: &RingState) -> Result<Replay, AllocError>
        ensures state { IfOk result (λ r. state_of r ≡ first_state start.now) }
        ensures calm { IfOk result (λ r. r.calm ≡ 0) }
    {
        Ok(Replay {
            state: start.try_copy(alloc)?,
            amount: 0,
            grants: 0,
            calm: 0,
        })
    }

    /// Whether an event is a call of this ring by one of the seats.
    pub(crate) fn is_in_range(&self, event: &SavedEvent) -> bool
        ensures { result
            ≡ in_range (length self.now.state.values) self.now.state.k (event_of event.now) }
    {
        let size = self.state.params();
        match *event {
            SavedEvent::Granted { seat, machine, .. }
            | SavedEvent::Refused { seat, machine, .. }
            | SavedEvent::Member { seat, machine, .. } => {
                (seat as usize) < SEAT_LIMIT && machine < size.n()
            }
            SavedEvent::Corrupted {
                seat,
                machine,
                value,
                ..
            } => (seat as usize) < SEAT_LIMIT && machine < size.n() && value < size.k(),
        }
    }

    /// The ring's reply to a pass.
    fn pass_reply(&self, machine: u32, order: u64) -> Reply
        requires machine { machine < length self.now.state.values }
        requires room { self.now.grants + 1 < 2 ^ 64 }
        ensures { result ≡ reply till (state_of self.now) (op.Pass machine order) }
    {
        if self.state.is_privileged(machine) {
            Reply::Granted {
                number: self.grants + 1,
                result: self.amount.saturating_add(order),
            }
        } else {
            Reply::NotPrivileged
        }
    }

    /// The ring's reply to an event's call.
    fn reply(&self, event: &SavedEvent) -> Reply
        requires machine { machine_of (event_of event.now).op < length self.now.state.values }
        requires room { self.now.grants + 1 < 2 ^ 64 }
        ensures { result ≡ reply till (state_of self.now) (event_of event.now).op }
    {
        match *event {
            SavedEvent::Granted { machine, order, .. }
            | SavedEvent::Member { machine, order, .. }
            | SavedEvent::Refused { machine, order, .. } => self.pass_reply(machine, order),
            SavedEvent::Corrupted { machine, .. } => Reply::Corrupted {
                old: self.state.get(machine),
            },
        }
    }

    /// The fault of an event at this point; `run` has the members of the block that is open here, and the event before has
    /// `last` members left.
    pub(crate) fn fault_of(&self, run: &[SavedEvent], last: u32, event: &SavedEvent) -> Option<Bad>
        requires room { self.now.grants + 1 < 2 ^ 64 }
        ensures { result
            ≡ bad_of (event_fault (length self.now.state.values) (map event_of run.now)
            (state_of self.now) (event_of event.now))
            (event_wrong (length self.now.state.values) (map event_of run.now) last
            (state_of self.now) (event_of event.now)) }
    {
        let size = self.state.params();
        let n = size.n();
        if !self.is_in_range(event) {
            return Some(Bad {
                kind: Kind::Range,
                wrong: range_wrong(n, size.k(), event),
            });
        }
        let there = reply_told(event);
        let should = self.reply(event);
        if !same_reply(there, should) {
            return Some(Bad {
                kind: Kind::Reply,
                wrong: Wrong::Replied { there, should },
            });
        }
        if !may_come(n as usize, run, event) {
            return Some(Bad {
                kind: Kind::Group,
                wrong: group_wrong(n, run, last, event),
            });
        }
        None
    }

    /// Does a pass, if its machine is privileged.
    fn pass(&mut self, machine: u32, order: u64)
        requires machine { machine < length self.old.state.values }
        requires room { (self.old.grants + 1 < 2 ^ 64) × (self.old.calm + 1 < 2 ^ 64) }
        ensures state { state_of self.new ≡ next till (state_of self.old) (op.Pass machine order) }
        ensures calm { self.new.calm
            ≡ calm_next self.old.calm (reply till (state_of self.old) (op.Pass machine order)) }
    {
        if self.state.is_privileged(machine) {
            self.state.move_machine(machine);
            self.amount = self.amount.saturating_add(order);
            self.grants += 1;
            self.calm += 1;
        }
    }

    /// Does an event's call.
    pub(crate) fn step(&mut self, event: &SavedEvent)
        requires call { in_range (length self.old.state.values) self.old.state.k
            (event_of event.now) ≡ true }
        requires room { (self.old.grants + 1 < 2 ^ 64) × (self.old.calm + 1 < 2 ^ 64) }
        ensures state { state_of self.new ≡ next till (state_of self.old) (event_of event.now).op }
        ensures calm { self.new.calm
            ≡ calm_next self.old.calm (reply till (state_of self.old) (event_of event.now).op) }
    {
        match *event {
            SavedEvent::Granted { machine, order, .. }
            | SavedEvent::Member { machine, order, .. }
            | SavedEvent::Refused { machine, order, .. } => self.pass(machine, order),
            SavedEvent::Corrupted { machine, value, .. } => {
                self.state.write(machine, value);
                self.calm = 0;
            }
        }
    }

    /// The survey of the ring at this point.
    pub(crate) fn survey(&self, position: u64) -> Survey
        ensures { result ≡ survey_from self.now.state position self.now.calm }
    {
        survey_here(&self.state, position, self.calm)
    }
}
