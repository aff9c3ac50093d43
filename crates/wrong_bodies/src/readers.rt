//! Wrong bodies of the readers of a book.

ghost use Rattle.std.specs.Prelude.{◌≡◌, ◌≢◌, ◌<◌, ◌≤◌, false, length, IfOk};
ghost use Rattle.ring_model.specs.Limits.{seat_limit};
ghost use Rattle.ring_model.specs.Ring.{first_privileged, is_settled, rest};
ghost use Rattle.ring_model.specs.Grants.{grants_of, settled_grants_of};
ghost use Rattle.ring_model.specs.History.{opening};
ghost use Rattle.ring_model.specs.Logs.{calls_of};
ghost use Rattle.ring_model.specs.Numbers.{sum_below};
ghost use Rattle.ring_model.specs.Surveys.{calm, survey_at};

use crate::numbers::another;
use ring_book::{Book, BookError, Event, Resource, Survey};
use ring_state::RingState;

/// The history has each event: this one drops the last.
pub fn drops_the_last_event<R: Resource + Drop>(book: &Book<R>) -> &[Event]
    requires some { 1 ≤ length book.now.history }
    ensures wrong { result.now ≡ book.now.history → ⊥ }
{
    let history = book.history();
    &history[..history.len() - 1]
}

/// The history begins with the first event: this one with the second.
pub fn drops_the_first_event<R: Resource + Drop>(book: &Book<R>) -> &[Event]
    requires some { 1 ≤ length book.now.history }
    ensures wrong { result.now ≡ book.now.history → ⊥ }
{
    &book.history()[1..]
}

/// The state is that after all events: this one is that of the start, where the two differ.
pub fn tells_the_start_as_the_state<R: Resource + Drop>(book: &Book<R>) -> &RingState
    requires apart { book.now.start ≢ book.now.now.ring }
    ensures wrong { result.now ≡ book.now.now.ring → ⊥ }
{
    book.start()
}

/// The start stays: this one is the state now, where the two differ.
pub fn tells_the_state_as_the_start<R: Resource + Drop>(book: &Book<R>) -> &RingState
    requires apart { book.now.start ≢ book.now.now.ring }
    ensures wrong { result.now ≡ book.now.start → ⊥ }
{
    book.state()
}

/// A survey has the rest: this one has 0 for a ring that is not settled.
#[tactic(auto, using(crate::proofs::Surveys::open_rest))]
pub fn surveys_no_rest<R: Resource + Drop>(book: &Book<R>) -> Survey
    requires unsettled { is_settled book.now.now.ring.values ≡ false }
    ensures wrong { result
        ≡ survey_at R.works (opening book.now.start R.first) book.now.history
        (length book.now.history) → ⊥ }
{
    Survey {
        rest: 0,
        ..book.survey()
    }
}

/// A survey has the rest now: this one that at the start, where the two differ.
pub fn surveys_the_rest_at_the_start<R: Resource + Drop>(book: &Book<R>) -> Survey
    requires apart { rest book.now.start ≢ rest book.now.now.ring }
    ensures wrong { result
        ≡ survey_at R.works (opening book.now.start R.first) book.now.history
        (length book.now.history) → ⊥ }
{
    Survey {
        rest: ring_settle::rest(book.start()),
        ..book.survey()
    }
}

/// A survey has the first privileged machine: this one has machine 0, where it is another.
#[tactic(auto, using(crate::proofs::Surveys::survey_here))]
pub fn surveys_machine_0_as_the_first<R: Resource + Drop>(book: &Book<R>) -> Survey
    requires apart { first_privileged book.now.now.ring.values ≢ 0 }
    ensures wrong { result
        ≡ survey_at R.works (opening book.now.start R.first) book.now.history
        (length book.now.history) → ⊥ }
{
    Survey {
        first: 0,
        ..book.survey()
    }
}

/// A survey has the number of privileged machines: this one has 1 for a ring that is not settled.
#[tactic(auto, using(crate::proofs::Surveys::survey_here))]
pub fn surveys_one_privileged_machine<R: Resource + Drop>(book: &Book<R>) -> Survey
    requires unsettled { is_settled book.now.now.ring.values ≡ false }
    ensures wrong { result
        ≡ survey_at R.works (opening book.now.start R.first) book.now.history
        (length book.now.history) → ⊥ }
{
    Survey {
        privileged: 1,
        ..book.survey()
    }
}

/// A survey has the calm: this one another.
pub fn surveys_another_calm<R: Resource + Drop>(book: &Book<R>) -> Survey
    ensures wrong { result
        ≡ survey_at R.works (opening book.now.start R.first) book.now.history
        (length book.now.history) → ⊥ }
{
    let survey = book.survey();
    Survey {
        calm: another(survey.calm),
        ..survey
    }
}

/// The place of a survey is after all events: this one says that it is before the first.
pub fn surveys_before_all_events<R: Resource + Drop>(book: &Book<R>) -> Survey
    requires some { 1 ≤ length book.now.history }
    ensures wrong { result
        ≡ survey_at R.works (opening book.now.start R.first) book.now.history
        (length book.now.history) → ⊥ }
{
    Survey {
        position: 0,
        ..book.survey()
    }
}

/// A corruption ends the calm: here the calm before it is returned after it, where it is not 0.
pub fn keeps_the_calm_over_a_corruption<R: Resource + Drop>(
    book: &mut Book<R>,
    seat: u32,
    machine: u32,
    value: u32,
) -> Result<Survey, BookError>
    requires seat { seat < seat_limit }
    requires machine { machine < length book.old.now.ring.values }
    requires value { value < book.old.now.ring.k }
    requires some { 1 ≤ calm book.old.history }
    ensures wrong { IfOk result (λ s. s
        ≡ survey_at R.works (opening book.new.start R.first) book.new.history
        (length book.new.history) → ⊥) }
{
    let calm = book.survey().calm;
    book.corrupt(seat, machine, value)?;
    Ok(Survey {
        calm,
        ..book.survey()
    })
}

/// Each event of a seat is counted: here one more.
pub fn counts_another_number_of_calls<R: Resource + Drop>(book: &Book<R>, seat: u32) -> u64
    requires { seat < seat_limit }
    ensures wrong { result ≡ length (calls_of seat book.now.history) → ⊥ }
{
    another(book.calls_of(seat))
}

/// The calls of one seat are counted: here those of all, where another has some.
pub fn counts_the_calls_of_all_seats<R: Resource + Drop>(book: &Book<R>, seat: u32) -> u64
    requires apart { length (calls_of seat book.now.history) ≢ length book.now.history }
    ensures wrong { result ≡ length (calls_of seat book.now.history) → ⊥ }
{
    book.history().len() as u64
}

/// A corruption is a call of its seat: here it is not counted.
pub fn counts_no_corruption<R: Resource + Drop>(
    book: &mut Book<R>,
    seat: u32,
    machine: u32,
    value: u32,
) -> Result<u64, BookError>
    requires seat { seat < seat_limit }
    requires machine { machine < length book.old.now.ring.values }
    requires value { value < book.old.now.ring.k }
    ensures wrong { IfOk result (λ calls. calls ≡ length (calls_of seat book.new.history) → ⊥) }
{
    let calls = book.calls_of(seat);
    book.corrupt(seat, machine, value)?;
    Ok(calls)
}

/// Each granted pass is counted: here another number of them.
pub fn counts_another_number_of_grants<R: Resource + Drop>(book: &Book<R>) -> u64
    ensures wrong { result
        ≡ sum_below (λ i. grants_of i book.now.history) (length book.now.start.values) → ⊥ }
{
    another(book.grants().total())
}

/// The grants of each machine are counted: here those of another, where that has more or fewer.
pub fn counts_the_grants_of_another_machine<R: Resource + Drop>(
    book: &Book<R>,
    machine: u32,
    other: u32,
) -> u64
    requires machine { other < length book.now.start.values }
    requires apart { grants_of other book.now.history ≢ grants_of machine book.now.history }
    ensures wrong { result ≡ grants_of machine book.now.history → ⊥ }
{
    book.grants().of(other)
}

/// Only the grants of the settled run are returned: here all, where some are before it.
pub fn counts_grants_before_the_settled_run<R: Resource + Drop>(book: &Book<R>, machine: u32) -> u64
    requires machine { machine < length book.now.start.values }
    requires apart { grants_of machine book.now.history
        ≢ settled_grants_of R.works (opening book.now.start R.first) machine book.now.history }
    ensures wrong { result
        ≡ settled_grants_of R.works (opening book.now.start R.first) machine book.now.history
        → ⊥ }
{
    book.grants().of(machine)
}
