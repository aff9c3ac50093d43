//! Looks of a seat, each broken: a survey or a glance in which one thing is wrong.

ghost use Rattle.std.specs.Prelude.{◌≡◌, ◌≤◌, ◌++◌, ◌∷◌, [], length, IfOk, OnOk, ◌≢◌};
ghost use mathlib.Core.List.{IsPrefix};
ghost use Rattle.ring_model.specs.History.{opening};
ghost use Rattle.ring_model.specs.Surveys.{survey_at};

use ring_book::Resource;
use ring_model::{Entry, Survey};
use ring_shared::{Name, Ring, Seat};
use std::alloc::AllocError;

/// A glance answers for all that its seat has seen then: it answers for the opening state.
pub fn glance_at_the_opening_state<N: Name, R: Resource + Drop>(
    ring: &Ring<N, R>,
    seat: &mut Seat<N>,
) -> Survey
    requires some { 1 ≤ length seat.old.seen }
    ensures wrong { result
        ≡ survey_at R.works (opening N.start R.first) seat.new.seen (length seat.new.seen) → ⊥ }
{
    let glance = ring.glance(seat);
    Survey {
        position: 0,
        ..glance
    }
}

/// The place of a glance is the end of the events that its seat has seen: it has another position.
pub fn glance_at_another_position<N: Name, R: Resource + Drop>(
    ring: &Ring<N, R>,
    seat: &mut Seat<N>,
) -> Survey
    ensures wrong { result
        ≡ survey_at R.works (opening N.start R.first) seat.new.seen (length seat.new.seen) → ⊥ }
{
    let glance = ring.glance(seat);
    Survey {
        position: if glance.position == 0 { 1 } else { 0 },
        ..glance
    }
}

/// A glance has the first privileged machine: machine 0 is returned, or machine 1 instead of it.
pub fn glance_at_another_first_machine<N: Name, R: Resource + Drop>(
    ring: &Ring<N, R>,
    seat: &mut Seat<N>,
) -> Survey
    ensures wrong { result
        ≡ survey_at R.works (opening N.start R.first) seat.new.seen (length seat.new.seen) → ⊥ }
{
    let glance = ring.glance(seat);
    Survey {
        first: if glance.first == 0 { 1 } else { 0 },
        ..glance
    }
}

/// A glance is not logged: a survey is taken in its place.
pub fn glance_that_is_logged<N: Name, R: Resource + Drop>(
    ring: &Ring<N, R>,
    seat: &mut Seat<N>,
) -> Result<Survey, AllocError>
    ensures wrong { OnOk result (seat.new.log ≡ seat.old.log → ⊥) }
{
    ring.survey(seat)
}

/// The events that a seat sees begin with all that it saw: the seat is changed for one that has seen nothing.
pub fn glance_falls_back_to_a_shorter_list<N: Name, R: Resource + Drop>(
    ring: &Ring<N, R>,
    seat: &mut Seat<N>,
    fresh: Seat<N>,
) -> Survey
    requires some { 1 ≤ length seat.old.seen }
    requires fresh { fresh.seen ≡ [] }
    ensures wrong { IsPrefix seat.old.seen seat.new.seen → ⊥ }
{
    let glance = ring.glance(seat);
    *seat = fresh;
    glance
}

/// A glance leaves the seat its number: the seat is changed for another one.
pub fn glance_under_another_number<N: Name, R: Resource + Drop>(
    ring: &Ring<N, R>,
    seat: &mut Seat<N>,
    other: Seat<N>,
) -> Survey
    requires apart { other.number ≢ seat.old.number }
    ensures wrong { seat.new.number ≡ seat.old.number → ⊥ }
{
    let glance = ring.glance(seat);
    *seat = other;
    glance
}

/// A survey has the rest: rest 0 is returned, or rest 1 instead of it.
pub fn survey_with_another_rest<N: Name, R: Resource + Drop>(
    ring: &Ring<N, R>,
    seat: &mut Seat<N>,
) -> Result<Survey, AllocError>
    ensures wrong { IfOk result (λ s.
        s ≡ survey_at R.works (opening N.start R.first) seat.new.seen (length seat.new.seen) → ⊥) }
{
    let survey = ring.survey(seat)?;
    Ok(Survey {
        rest: if survey.rest == 0 { 1 } else { 0 },
        ..survey
    })
}

/// A survey is logged as it is answered: another number of privileged machines is answered.
pub fn survey_logged_with_another_count<N: Name, R: Resource + Drop>(
    ring: &Ring<N, R>,
    seat: &mut Seat<N>,
) -> Result<Survey, AllocError>
    ensures wrong { IfOk result (λ s. seat.new.log ≡ seat.old.log ++ Entry.Survey s ∷ [] → ⊥) }
{
    let survey = ring.survey(seat)?;
    Ok(Survey {
        privileged: if survey.privileged == 0 { 1 } else { 0 },
        ..survey
    })
}

/// A survey is logged: a glance is taken in its place.
pub fn survey_that_is_not_logged<N: Name, R: Resource + Drop>(
    ring: &Ring<N, R>,
    seat: &mut Seat<N>,
) -> Survey
    ensures wrong { seat.new.log ≡ seat.old.log ++ Entry.Survey result ∷ [] → ⊥ }
{
    ring.glance(seat)
}

/// A survey is logged once: it is taken twice.
pub fn survey_that_is_logged_twice<N: Name, R: Resource + Drop>(
    ring: &Ring<N, R>,
    seat: &mut Seat<N>,
) -> Result<Survey, AllocError>
    ensures wrong { IfOk result (λ s. seat.new.log ≡ seat.old.log ++ Entry.Survey s ∷ [] → ⊥) }
{
    ring.survey(seat)?;
    ring.survey(seat)
}
