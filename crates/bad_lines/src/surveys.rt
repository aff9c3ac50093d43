//! The survey lines of a block.

ghost use Rattle.std.specs.Prelude.{◌≡◌, ◌+◌, ◌<◌, ◌≤◌, ◌^◌, ◌&&◌, ◌==◌, ◌++◌, [], ℕ, length, map, take, cond, None, Some, IfOk, OnOk};
ghost use Rattle.ring_check.specs.Lines.{SurveyLine};
ghost use Rattle.ring_check.specs.Scan.{in_block};
ghost use Rattle.ring_check.specs.Table.{event_of, first_state, same_survey};
ghost use Rattle.ring_check.specs.Meaning.{survey_of};
ghost use Rattle.ring_check.specs.declared.answers.Kind.TheVariants as kind;
ghost use Rattle.bad_lines.specs.BadLines.{bad, bad_among, known, mended};
ghost use Rattle.bad_lines.specs.Replays.{AreCallable, Stands, IsMark, own_all, marked};
ghost use Rattle.bad_lines.specs.Wrongs.{place_fault};

use crate::replay::Replay;
use crate::wrongs::{Bad, BadLine, Wrong, tell};
use ring_check::{Kind, left_after};
use ring_model::Survey;
use ring_model::limits::SEAT_LIMIT;
use ring_state::RingState;
use saved_history::{SavedEvent, SavedSurvey};
use std::alloc::{AllocError, Global};

/// The last survey that was in its place, if any was, and the ring there.
#[derive(Drop)]
pub(crate) struct Mark {
    pub(crate) seat: u32,
    pub(crate) position: u64,
    pub(crate) replay: Replay,
}

/// Takes a replay from one place of the events to another.
fn follow(start: &RingState, events: &[SavedEvent], replay: &mut Replay, from: usize, to: usize)
    requires stands { Stands start.now (map event_of (take from events.now)) replay.old }
    requires onward { from ≤ to }
    requires within { to ≤ length events.now }
    requires room { length events.now + 1 < 2 ^ 64 }
    requires callable { AreCallable (length start.now.values) (first_state start.now)
        (map event_of events.now) }
    ensures { Stands start.now (map event_of (take to events.now)) replay.new }
{
    for i in from..to {
        replay.step(&events[i]);
    }
}

/// The same, also back: then from the start.
fn go_to(
    alloc: Global,
    start: &RingState,
    events: &[SavedEvent],
    replay: &mut Replay,
    from: u64,
    to: u64,
) -> Result<(), AllocError>
    requires stands { Stands start.now (map event_of (take from events.now)) replay.old }
    requires within { to ≤ length events.now }
    requires room { length events.now + 1 < 2 ^ 64 }
    requires callable { AreCallable (length start.now.values) (first_state start.now)
        (map event_of events.now) }
    ensures { OnOk result (Stands start.now (map event_of (take to events.now)) replay.new) }
{
    if from <= to {
        follow(start, events, replay, from as usize, to as usize);
        return Ok(());
    }
    *replay = Replay::begin(alloc, start)?;
    follow(start, events, replay, 0, to as usize);
    Ok(())
}

/// The fault of a survey's place, if the one in its place before it had this seat and position, and there are this many events.
fn place_fault(seat: u32, position: u64, events: u64, survey: &SavedSurvey) -> Option<Bad>
    requires { events + 1 < 2 ^ 64 }
    ensures { result ≡ place_fault seat position events survey.now }
{
    if survey.seat as usize >= SEAT_LIMIT {
        return Some(Bad {
            kind: Kind::Range,
            wrong: Wrong::Limit {
                there: survey.seat as u64,
                limit: SEAT_LIMIT as u64,
            },
        });
    }
    if survey.seat < seat || survey.seat == seat && survey.position < position {
        return Some(Bad {
            kind: Kind::Survey,
            wrong: Wrong::Early {
                seat: survey.seat,
                position: survey.position,
                last_seat: seat,
                last: position,
            },
        });
    }
    if survey.position > events {
        return Some(Bad {
            kind: Kind::Survey,
            wrong: Wrong::Limit {
                there: survey.position,
                limit: events + 1,
            },
        });
    }
    None
}

/// The fault of a survey in its place, if this is the ring's own, and this many members of a group are left.
fn answer_fault(survey: &SavedSurvey, should: Survey, left: u32) -> Option<Bad>
    ensures { result
        ≡ cond (same_survey survey.now should && (left == 0)) None
        (Some (record {
          kind = kind.Survey;
          wrong = cond (left == 0) (Wrong.Surveyed (survey_of survey.now) should)
              (Wrong.Inside survey.now.position);
        })) }
{
    if left != 0 {
        return Some(Bad {
            kind: Kind::Survey,
            wrong: Wrong::Inside {
                position: survey.position,
            },
        });
    }
    if survey.privileged == should.privileged
        && survey.first == should.first
        && survey.calm == should.calm
        && survey.rest == should.rest
    {
        return None;
    }
    let there = Survey {
        position: survey.position,
        privileged: survey.privileged,
        first: survey.first,
        calm: survey.calm,
        rest: survey.rest,
    };
    Some(Bad {
        kind: Kind::Survey,
        wrong: Wrong::Surveyed { there, should },
    })
}

/// The fault of a survey; the mark goes to it if it is in its place.
fn judge(
    alloc: Global,
    start: &RingState,
    events: &[SavedEvent],
    mark: &mut Mark,
    survey: &SavedSurvey,
) -> Result<Option<Bad>, AllocError>
    requires mark { IsMark start.now events.now mark.old }
    requires room { length events.now + 1 < 2 ^ 64 }
    requires callable { AreCallable (length start.now.values) (first_state start.now)
        (map event_of events.now) }
    ensures mark { OnOk result (IsMark start.now events.now mark.new) }
    ensures bad { IfOk result (λ found. (version line rings : ℕ)
        → found ≡ bad (marked version line rings start.now events.now mark.old.seat
        mark.old.position) (SurveyLine survey.now)) }
    ensures next { OnOk result ((version line rings : ℕ)
        → mended (marked version line rings start.now events.now mark.old.seat mark.old.position)
        (SurveyLine survey.now)
        ≡ marked version (line + 1) rings start.now events.now mark.new.seat mark.new.position) }
{
    let many = events.len() as u64;
    if let Some(bad) = place_fault(mark.seat, mark.position, many, survey) {
        return Ok(Some(bad));
    }
    go_to(
        alloc,
        start,
        events,
        &mut mark.replay,
        mark.position,
        survey.position,
    )?;
    mark.seat = survey.seat;
    mark.position = survey.position;
    let should = mark.replay.survey(survey.position);
    let left = left_after(events, survey.position as usize);
    Ok(answer_fault(survey, should, left))
}

/// Adds the bad lines among the surveys of a ring, before which are `line` lines. The ring is replayed again from its start only
/// at another seat's surveys, so at most ten times.
pub(crate) fn add_surveys(
    alloc: Global,
    start: &RingState,
    events: &[SavedEvent],
    surveys: &[SavedSurvey],
    line: u64,
    out: &mut Vec<BadLine>,
) -> Result<(), AllocError>
    requires room { (length events.now + 1 < 2 ^ 64) × (line + length surveys.now + 1 < 2 ^ 64) }
    requires callable { AreCallable (length start.now.values) (first_state start.now)
        (map event_of events.now) }
    ensures { OnOk result ((version rings : ℕ) → out.new.items
        ≡ out.old.items
        ++ bad_among (known (in_block version line rings (length start.now.values) start.now.k
        start.now.values (own_all (first_state start.now) (map event_of events.now))))
        (map SurveyLine surveys.now)) }
{
    let replay = Replay::begin(alloc, start)?;
    let mut mark = Mark {
        seat: 0,
        position: 0,
        replay,
    };
    for (i, survey) in surveys.iter().enumerate() {
        let bad = judge(alloc, start, events, &mut mark, survey)?;
        tell(out, line + i as u64, bad)?;
    }
    Ok(())
}
