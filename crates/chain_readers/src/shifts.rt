//! The events and the surveys of a segment, counted from the first event of all.

ghost use Rattle.std.specs.Prelude.{◌≡◌, ◌<◌, ◌^◌, ◌++◌, ℕ, List, map, take, nat_le, OnOk};
ghost use Rattle.saved_history.specs.declared.saved.SavedEvent.{SavedEvent};
ghost use Rattle.ring_check.specs.Table.{event_of};
ghost use Rattle.ring_model.specs.Bases.{is_quiet};
ghost use Rattle.chain_readers.specs.Joining.{shifted_event, counted_survey, shifted_survey};

use ring_model::Base;
use saved_history::{SavedEvent, SavedSurvey};
use std::alloc::AllocError;

/// An event of a segment with this base, shifted.
pub(crate) fn shift_event(base: &Base, event: SavedEvent) -> SavedEvent
    ensures { result ≡ shifted_event base.now event }
{
    match event {
        SavedEvent::Granted {
            seat,
            machine,
            order,
            number,
            result,
        } => SavedEvent::Granted {
            seat,
            machine,
            order,
            number: base.grants.saturating_add(number),
            result: base.amount.saturating_add(result),
        },
        SavedEvent::Member {
            seat,
            machine,
            order,
            left,
            number,
            result,
        } => SavedEvent::Member {
            seat,
            machine,
            order,
            left,
            number: base.grants.saturating_add(number),
            result: base.amount.saturating_add(result),
        },
        other => other,
    }
}

/// Up to which place no corruption has come; the greatest number if none comes at all.
pub(crate) fn quiet_length(events: &[SavedEvent]) -> u64
    ensures { (p : ℕ) → p < 2 ^ 64
        → is_quiet (take p (map event_of events.now)) ≡ nat_le p result }
{
    for (i, event) in events.iter().enumerate() {
        if let SavedEvent::Corrupted { .. } = event {
            return i as u64;
        }
    }
    u64::MAX
}

/// A survey of a place up to which the segment is quiet, or is not, shifted.
pub(crate) fn shift_survey(base: &Base, quiet: bool, survey: &SavedSurvey) -> SavedSurvey
    ensures { result ≡ counted_survey base.now quiet survey.now }
{
    SavedSurvey {
        seat: survey.seat,
        position: base.events.saturating_add(survey.position),
        privileged: survey.privileged,
        first: survey.first,
        calm: if quiet {
            base.calm.saturating_add(survey.calm)
        } else {
            survey.calm
        },
        rest: survey.rest,
    }
}

/// Puts the events of a segment, shifted, after others.
pub(crate) fn put_events(
    events: &mut Vec<SavedEvent>,
    base: &Base,
    more: &[SavedEvent],
) -> Result<(), AllocError>
    ensures { OnOk result
        (events.new.items ≡ events.old.items ++ map (shifted_event base.now) more.now) }
{
    for event in more {
        events.push(shift_event(base, *event))?;
    }
    Ok(())
}

/// Puts the surveys of a segment with these events, shifted, after others.
pub(crate) fn put_surveys(
    surveys: &mut Vec<SavedSurvey>,
    base: &Base,
    events: &[SavedEvent],
    more: &[SavedSurvey],
) -> Result<(), AllocError>
    ensures { OnOk result (surveys.new.items
        ≡ surveys.old.items ++ map (shifted_survey base.now events.now) more.now) }
{
    let quiet = quiet_length(events);
    for survey in more {
        surveys.push(shift_survey(base, survey.position <= quiet, survey))?;
    }
    Ok(())
}
