//! The survey lines of a block.

ghost use Rattle.std.specs.Prelude.{◌≡◌, ◌&&◌, ◌==◌, ℕ, ◌+◌, ◌<◌, ◌≤◌, ◌^◌, List, length, map, take, IfOk, IfSome, IsNone};
ghost use Rattle.ring_model.specs.Groups.{left_after};
ghost use Rattle.ring_model.specs.Limits.{machine_limit};
ghost use Rattle.ring_model.specs.Ring.{ring_with, IsRing};
ghost use Rattle.ring_model.specs.History.{Step, next, IsLegal};
ghost use Rattle.ring_model.specs.declared.events.Reply.TheVariants.{NotPrivileged};
ghost use Rattle.ring_model.specs.Replay.{machine_of};
ghost use Rattle.ring_model.proofs.Histories.{calm_next};
ghost use Rattle.ring_model.specs.Resources.{till};
ghost use Rattle.saved_history.specs.declared.saved.SavedEvent.{SavedEvent};
ghost use Rattle.ring_check.specs.Lines.{SurveyLine};
ghost use Rattle.ring_check.specs.Table.{event_of, first_state, same_survey, is_onward};
ghost use Rattle.ring_check.specs.Scan.{first_fault, Finds, in_block};
ghost use Rattle.ring_check.specs.Replays.{state_of, survey_where, Measures, TellsStill, StandsAt, IsReading};

use crate::answers::{CheckError, Kind};
use crate::gauge::Gauge;
use crate::group_lines::left_after;
use crate::replay::Replay;
use ring_model::Survey;
use ring_model::limits::SEAT_LIMIT;
use saved_history::{SavedEvent, SavedSurvey};
use std::alloc::{AllocError, Global};

/// The survey of a ring at some place of its history, the replay that is there, and a gauge of its ring.
#[derive(Drop)]
pub(crate) struct Reading {
    pub(crate) replay: Replay,
    pub(crate) gauge: Gauge,
    pub(crate) survey: Survey,
    /// Whether the values are those of the survey still, since none but refused passes came.
    pub(crate) unchanged: bool,
}

/// The machine whose value an event without a fault may change.
#[inline(always)]
fn changed_by(event: &SavedEvent) -> Option<usize>
    ensures some { IfSome result (λ machine. machine ≡ machine_of (event_of event.now).op) }
    ensures none { IsNone result → (event_of event.now).reply ≡ NotPrivileged }
{
    match *event {
        SavedEvent::Refused { .. } => None,
        SavedEvent::Granted { machine, .. }
        | SavedEvent::Member { machine, .. }
        | SavedEvent::Corrupted { machine, .. } => Some(machine as usize),
    }
}

impl Reading {
    /// The ring before any event.
    fn begin(alloc: Global, k: u32, start: &[u32]) -> Result<Reading, AllocError>
        requires ring { IsRing (ring_with k start.now) }
        requires few { length start.now ≤ machine_limit }
        ensures { IfOk result (λ r. (r.survey.position ≡ 0)
            × ((events : List SavedEvent) → IsReading (ring_with k start.now) events r)) }
    {
        let replay = Replay::begin(alloc, k, start)?;
        let gauge = Gauge::new(alloc, k, start)?;
        let survey = replay.survey(&gauge, 0);
        Ok(Reading {
            replay,
            gauge,
            survey,
            unchanged: true,
        })
    }

    /// Does what an event without a fault says; the survey stays.
    fn apply(&mut self, event: &SavedEvent)
        requires ring { IsRing (state_of self.old.replay).ring }
        requires step { Step till (state_of self.old.replay) (event_of event.now)
            (next till (state_of self.old.replay) (event_of event.now).op) }
        requires room { (self.old.replay.grants + 1 < 2 ^ 64)
            × (self.old.replay.calm + 1 < 2 ^ 64) }
        requires measured { Measures self.old.gauge self.old.replay }
        ensures state { state_of self.new.replay
            ≡ next till (state_of self.old.replay) (event_of event.now).op }
        ensures calm { self.new.replay.calm
            ≡ calm_next self.old.replay.calm (event_of event.now).reply }
        ensures measured { Measures self.new.gauge self.new.replay }
        ensures tells { TellsStill self.old → TellsStill self.new }
    {
        self.replay.apply(event);
        if let Some(machine) = changed_by(event) {
            self.unchanged = false;
            if machine < self.replay.values.len() {
                self.gauge.settle_on(machine, self.replay.values[machine]);
            }
        }
    }

    /// Returns the survey of the ring at this point. That of the same values is not counted again.
    fn survey_at(&self, position: u64) -> Survey
        requires ring { IsRing (state_of self.now.replay).ring }
        requires measured { Measures self.now.gauge self.now.replay }
        requires tells { TellsStill self.now }
        ensures { result ≡ survey_where self.now.replay position }
    {
        if self.unchanged {
            Survey {
                position,
                calm: self.replay.calm,
                ..self.survey
            }
        } else {
            self.replay.survey(&self.gauge, position)
        }
    }

    /// Goes from the place after the first `from` events of a block to the one after its first `to` events; the survey stays.
    fn follow(&mut self, start: &[u32], events: &[SavedEvent], from: usize, to: usize)
        requires ring { IsRing (ring_with self.old.replay.k start.now) }
        requires stands { StandsAt (ring_with self.old.replay.k start.now) events.now from
            self.old.replay }
        requires measured { Measures self.old.gauge self.old.replay }
        requires tells { TellsStill self.old }
        requires onward { from ≤ to }
        requires within { to ≤ length events.now }
        requires room { length events.now + 1 < 2 ^ 64 }
        requires legal { IsLegal till (first_state (ring_with self.old.replay.k start.now))
            (map event_of events.now) }
        ensures stands { StandsAt (ring_with self.old.replay.k start.now) events.now to
            self.new.replay }
        ensures measured { Measures self.new.gauge self.new.replay }
        ensures tells { TellsStill self.new }
    {
        for i in from..to {
            self.apply(&events[i]);
        }
    }

    /// Goes to a place of the history, and to one before this one from the start. The survey of the place where it is
    /// already is not computed again.
    fn go_to(
        &mut self,
        alloc: Global,
        start: &[u32],
        events: &[SavedEvent],
        position: u64,
    ) -> Result<(), AllocError>
        requires ring { IsRing (ring_with self.old.replay.k start.now) }
        requires few { length start.now ≤ machine_limit }
        requires reading { IsReading (ring_with self.old.replay.k start.now) events.now self.old }
        requires within { position ≤ length events.now }
        requires room { length events.now + 1 < 2 ^ 64 }
        requires legal { IsLegal till (first_state (ring_with self.old.replay.k start.now))
            (map event_of events.now) }
        ensures { IfOk result (λ u.
            IsReading (ring_with self.old.replay.k start.now) events.now self.new
            × (self.new.survey.position ≡ position)) }
    {
        if position == self.survey.position {
            return Ok(());
        }
        if position < self.survey.position {
            *self = Reading::begin(alloc, self.replay.k, start)?;
        }
        let from = self.survey.position as usize;
        self.follow(start, events, from, position as usize);
        self.survey = self.survey_at(position);
        self.unchanged = true;
        Ok(())
    }
}

/// Whether a survey is not earlier than the one before, which had this seat and position.
fn is_onward(seat: u32, position: u64, survey: &SavedSurvey) -> bool
    ensures { result ≡ is_onward seat position survey.now }
{
    seat < survey.seat || seat == survey.seat && position <= survey.position
}

/// Whether a survey line says what a survey of the ring says.
fn is_same(line: &SavedSurvey, survey: &Survey) -> bool
    ensures { result ≡ same_survey line.now survey.now }
{
    line.privileged == survey.privileged
        && line.first == survey.first
        && line.calm == survey.calm
        && line.rest == survey.rest
}

/// Whether a survey line has its place outside blocks, and says what the survey of the ring there says.
fn is_right(events: &[SavedEvent], line: &SavedSurvey, survey: &Survey) -> bool
    requires { line.now.position ≤ length events.now }
    ensures { result
        ≡ (same_survey line.now survey.now
        && (left_after (take line.now.position (map event_of events.now)) == 0)) }
{
    is_same(line, survey) && left_after(events, line.position as usize) == 0
}

/// Finds the first survey with a fault; `line` is the number of lines before the surveys.
/// A replay goes back to the start only at another seat's surveys, so at most nine times.
pub(crate) fn check_surveys(
    alloc: Global,
    k: u32,
    start: &[u32],
    events: &[SavedEvent],
    surveys: &[SavedSurvey],
    line: u64,
) -> Result<(), CheckError>
    requires ring { IsRing (ring_with k start.now) }
    requires few { length start.now ≤ machine_limit }
    requires legal { IsLegal till (first_state (ring_with k start.now)) (map event_of events.now) }
    requires room { (length events.now + 1 < 2 ^ 64) × (line + length surveys.now + 1 < 2 ^ 64) }
    ensures { (version rings : ℕ)
        → Finds (first_fault
        (in_block version line rings (length start.now) k start.now (map event_of events.now))
        (map SurveyLine surveys.now)) result }
{
    if surveys.is_empty() {
        return Ok(());
    }
    let Ok(mut reading) = Reading::begin(alloc, k, start) else {
        return Err(CheckError::OutOfMemory);
    };
    let mut seat: u32 = 0;
    let mut position: u64 = 0;
    for (i, survey) in surveys.iter().enumerate() {
        let here = line + i as u64 + 1;
        if survey.seat as usize >= SEAT_LIMIT {
            return Err(CheckError::Bad {
                line: here,
                kind: Kind::Range,
            });
        }
        if survey.position > events.len() as u64 || !is_onward(seat, position, survey) {
            return Err(CheckError::Bad {
                line: here,
                kind: Kind::Survey,
            });
        }
        let Ok(()) = reading.go_to(alloc, start, events, survey.position) else {
            return Err(CheckError::OutOfMemory);
        };
        if !is_right(events, survey, &reading.survey) {
            return Err(CheckError::Bad {
                line: here,
                kind: Kind::Survey,
            });
        }
        seat = survey.seat;
        position = survey.position;
    }
    Ok(())
}
