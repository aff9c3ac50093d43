//! Whether surveys are right, by playing the history again.
ghost use Rattle.std.specs.Prelude.{◌≡◌, ◌≤◌, ◌+◌, ◌<◌, ◌↔◌, All, length, take, IsTrue, IfOk};
ghost use Rattle.std.specs.List.Sorted.{IsNonDecreasingBy};
ghost use Rattle.ring_model.specs.Limits.{event_limit};
ghost use Rattle.ring_model.specs.History.{after, opening};
ghost use Rattle.ring_model.specs.Groups.{left_of, left_after};
ghost use Rattle.ring_model.specs.Logs.{IsSurvey};
ghost use Rattle.ring_model.specs.Surveys.{calm as calm_of, survey_at};
ghost use Rattle.ring_logs.specs.Fronts.{IsSurveyFrom};
ghost use Rattle.ring_logs.specs.Replays.{IsCallOf, called, calm_after};

use ring_book::{Book, Resource};
use ring_model::{Op, Reply, Survey};
use ring_settle::survey_here;
use ring_state::RingState;
use std::alloc::{AllocError, Global};

/// A place of a book's history, with the ring and the calm there: the book is played again up to this place.
#[derive(Drop)]
struct Replay<'a, R: Resource + Drop> {
    book: &'a Book<R>,
    place: usize,
    ring: RingState,
    calm: u64,
    /// How many members of a group come after the last event: where some do, the place is inside a block.
    left: u32,
    ghost within: { place ≤ length book.now.history },
    ghost ring_is: { ring
        ≡ (after R.works (opening book.now.start R.first) (take place book.now.history)).ring },
    ghost calm_is: { calm ≡ calm_of (take place book.now.history) },
    ghost few: { calm ≤ place },
    ghost left_is: { left ≡ left_after (take place book.now.history) },
}

/// Plays a call.
fn play(ring: &mut RingState, op: Op)
    requires { IsCallOf ring.old op }
    ensures { ring.new ≡ called ring.old op }
{
    match op {
        Op::Pass { machine, .. } | Op::Member { machine, .. } => {
            if ring.is_privileged(machine) {
                ring.move_machine(machine);
            }
        }
        Op::Corrupt { machine, value } => {
            ring.write(machine, value);
        }
    }
}

/// How many members of its group come after a call.
fn left_of(op: Op) -> u32
    ensures { result ≡ left_of op }
{
    match op {
        Op::Member { left, .. } => left,
        Op::Pass { .. } | Op::Corrupt { .. } => 0,
    }
}

fn is_same_survey(one: Survey, other: Survey) -> bool
    ensures { IsTrue result ↔ one ≡ other }
{
    one == other
}

/// The calm after a reply, where it was `calm` before: the granted passes since the last corruption.
/// `calm` is at most `EVENT_LIMIT`.
pub fn calm_behind(calm: u64, reply: Reply) -> u64
    requires { calm ≤ event_limit }
    ensures is { result ≡ calm_after calm reply }
    ensures few { result ≤ calm + 1 }
{
    match reply {
        Reply::Granted { .. } => calm + 1,
        Reply::NotPrivileged => calm,
        Reply::Corrupted { .. } => 0,
    }
}

impl<'a, R: Resource + Drop> Replay<'a, R> {
    /// At the start.
    fn new(alloc: Global, book: &'a Book<R>) -> Result<Replay<'a, R>, AllocError>
        ensures { IfOk result (λ r. (r.book.now ≡ book.now) × (r.place ≡ 0)) }
    {
        let ring = book.start().try_copy(alloc)?;
        Ok(Replay {
            book,
            place: 0,
            ring,
            calm: 0,
            left: 0,
        })
    }

    /// Plays the next event.
    fn step(&mut self)
        requires { self.old.place < length self.old.book.now.history }
        ensures book { self.new.book.now ≡ self.old.book.now }
        ensures place { self.new.place ≡ self.old.place + 1 }
    {
        let event = self.book.history()[self.place];
        play(&mut self.ring, event.op);
        self.calm = calm_behind(self.calm, event.reply);
        self.left = left_of(event.op);
        self.place += 1;
    }

    /// Plays on to a place, and answers whether it is ahead in the history.
    fn advance(&mut self, place: u64) -> bool
        ensures book { self.new.book.now ≡ self.old.book.now }
        ensures ahead { IsTrue result
            ↔ (self.old.place ≤ place) × (place ≤ length self.old.book.now.history) }
        ensures there { IsTrue result → self.new.place ≡ place }
    {
        if place < self.place as u64 || place > self.book.history().len() as u64 {
            return false;
        }
        for _ in self.place..place as usize {
            self.step();
        }
        true
    }

    /// The survey here.
    fn survey(&self) -> Survey
        ensures { result
            ≡ survey_at R.works (opening self.now.book.now.start R.first) self.now.book.now.history
            self.now.place }
    {
        survey_here(&self.ring, self.place as u64, self.calm)
    }

    /// Whether a survey is right here, which is inside no block.
    fn is_surveyed(&self, survey: Survey) -> bool
        ensures { IsTrue result
            ↔ (survey
            ≡ survey_at R.works (opening self.now.book.now.start R.first)
            self.now.book.now.history self.now.place)
            × (left_after (take self.now.place self.now.book.now.history) ≡ 0) }
    {
        self.left == 0 && is_same_survey(survey, self.survey())
    }

    /// Plays on to the place of a survey, and answers whether it is ahead and the survey is right there.
    fn pass_survey(&mut self, survey: Survey) -> bool
        ensures book { self.new.book.now ≡ self.old.book.now }
        ensures front { IsTrue result → self.new.place ≡ survey.position }
        ensures right { IsTrue result
            ↔ IsSurveyFrom R.works (opening self.old.book.now.start R.first)
            self.old.book.now.history self.old.place survey }
    {
        self.advance(survey.position) && self.is_surveyed(survey)
    }
}

/// Whether each of these surveys, which are in the order of their places, is right. The history is played again once,
/// for all of them; where there is none, it isn't.
///
/// # Errors
///
/// If there is no memory for playing the history again.
pub(crate) fn are_right<R: Resource + Drop>(
    alloc: Global,
    book: &Book<R>,
    surveys: &[Survey],
) -> Result<bool, AllocError>
    requires { IsNonDecreasingBy (λ s. s.position) surveys.now }
    ensures { IfOk result (λ b. IsTrue b
        ↔ All (IsSurvey R.works (opening book.now.start R.first) book.now.history) surveys.now) }
{
    if surveys.is_empty() {
        return Ok(true);
    }
    let mut replay = Replay::new(alloc, book)?;
    for survey in surveys {
        if !replay.pass_survey(*survey) {
            return Ok(false);
        }
    }
    Ok(true)
}
