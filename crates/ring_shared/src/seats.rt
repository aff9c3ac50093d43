//! The seats of a ring, one for each client: their logs, and the events that they have seen.
ghost use Rattle.std.specs.Prelude.{◌≡◌, ◌<◌, ◌≤◌, ◌+◌, ◌++◌, ◌∷◌, [], length, IsOk, IfOk, IfSome, IfNone, OnErr, vec_len, vec_capacity};
ghost use mathlib.Core.List.{IsPrefix};
ghost use Rattle.ring_model.specs.Limits.{seat_limit};
ghost use Rattle.ring_shared.specs.Client.{fresh_client, told_of, IsUnchanged};
ghost use Rattle.ring_shared.specs.Closing.{IsLogOf};
ghost use Rattle.ring_shared.specs.Folds.{survey_of, AnswersFor, IsWritten};
ghost use Rattle.ring_logs.specs.Seats.{AreOfSeats};

use crate::front::Front;
use crate::names::Name;
use crate::shown::{Operation, Shown};
use crate::summary::{Effect, Summary};
use core::mem::replace_with;
use crossbeam_utils::rule::Unruled;
use left_right::reader::Reader;
use left_right::writer::Writer;
use ring_logs::{ClientLog, Log};
use ring_model::{Entry, Survey};
use ring_state::RingState;
use std::alloc::{AllocError, Global};
use std::marker::Model;
use std::sync::Wait;

/// The reader that looks beside the lock.
pub type RingReader<N> = Reader<Shown<N>, (), Unruled>;

/// The writer that shows each call to the readers.
pub type RingWriter<N> = Writer<Shown<N>, Operation<N>, (), Unruled>;

/// One client's place at a ring, with the client's log.
///
/// Contracts see its number, its log, the events that it has seen, and its room: how many entries more its log takes
/// without asking for memory. It carries the ring's name `N`, so it serves only at rings of that name.
#[derive(Drop)]
pub struct Seat<N: Name> {
    number: u32,
    pub(crate) log: Vec<Entry>,
    reader: RingReader<N>,
    front: Front<N>,
    last: Option<Survey>,
    summary: Summary,
}

impl<N: Name> Model for Seat<N> {
    ghost use Rattle.std.specs.Prelude.{◌≡◌, ◌<◌, ◌≤◌, ◌-◌, length, vec_capacity};
    ghost use Rattle.ring_model.specs.Limits.{seat_limit};
    ghost use Rattle.ring_shared.specs.Client.{Client};
    ghost use Rattle.ring_shared.specs.Folds.{AnswersFor};

    ghost Value = { Client };

    ghost view = { λ s. record {
      number = s.number;
      log = s.log.items;
      seen = s.front;
      room = vec_capacity s.log - length s.log.items;
    } };

    ghost invariant = { λ s. (s.number < N.seats)
        × (s.number < seat_limit)
        × AnswersFor N.start s.front s.last s.summary.ring s.summary.position s.summary.calm };
}

/// Enters, and answers what is shown then.
fn look<N: Name>(reader: RingReader<N>) -> (RingReader<N>, Option<(Survey, Front<N>)>)
    ensures { IfSome result.1 (λ t. t.0 ≡ survey_of N.start t.1) }
{
    match reader.enter_as::<Unruled>() {
        Ok(reading) => {
            let shown = reading.get();
            let found = (shown.survey(), shown.front());
            (reading.leave(), Some(found))
        }
        Err(reader) => (reader, None),
    }
}

/// Sees the shown state, where that is no earlier than the seen one, and answers its survey.
#[tactic(auto, using(crate::proofs::Prefixes::prefix_self))]
fn refresh<N: Name>(reader: &mut RingReader<N>, front: &mut Front<N>) -> Option<Survey>
    ensures legal { N.legal front.new }
    ensures of_seats { AreOfSeats N.seats front.new }
    ensures some { IfSome result (λ s. s ≡ survey_of N.start front.new) }
    ensures none { IfNone result (front.new ≡ front.old) }
    ensures later { IsPrefix front.old front.new }
{
    let found = replace_with(reader, (), |reader, _| look(reader));
    if let Some((survey, shown)) = found {
        front.compare(&shown); // says: the shorter of the two is a prefix of the longer
        if front.len() <= shown.len() {
            *front = shown;
            front.len(); // says: it is legal, of the ring's seats
            return Some(survey);
        }
    }
    front.len(); // says: it is legal, of the ring's seats
    None
}

/// The state that answers for a front.
fn answer<N: Name>(last: &Option<Survey>, summary: &Summary, front: &Front<N>) -> Survey
    requires { AnswersFor N.start front.now last.now summary.now.ring summary.now.position
        summary.now.calm }
    ensures { result ≡ survey_of N.start front.now }
{
    match last {
        Some(survey) => *survey,
        None => summary.survey(),
    }
}

/// Sees the shown state, where that is no earlier than the seen one, and answers for the state seen then.
fn renew<N: Name>(
    reader: &mut RingReader<N>,
    front: &mut Front<N>,
    last: &mut Option<Survey>,
    summary: &Summary,
) -> Survey
    requires { AnswersFor N.start front.old last.old summary.now.ring summary.now.position
        summary.now.calm }
    ensures answers { AnswersFor N.start front.new last.new summary.now.ring summary.now.position
        summary.now.calm }
    ensures legal { N.legal front.new }
    ensures of_seats { AreOfSeats N.seats front.new }
    ensures survey { result ≡ survey_of N.start front.new }
    ensures later { IsPrefix front.old front.new }
{
    if let Some(survey) = refresh(reader, front) {
        *last = Some(survey);
        return survey;
    }
    let survey = answer(last, summary, front);
    *last = Some(survey);
    survey
}

impl<N: Name> Seat<N> {
    /// A seat with an empty log, that has seen nothing.
    pub(crate) fn new(
        alloc: Global,
        number: u32,
        reader: RingReader<N>,
        front: Front<N>,
        start: RingState,
    ) -> Seat<N>
        requires given { number < N.seats }
        requires most { number < seat_limit }
        requires front { front ≡ [] }
        requires start { start ≡ N.start }
        ensures { result ≡ fresh_client number 0 }
    {
        Seat {
            number,
            log: Vec::new(alloc),
            reader,
            front,
            last: None,
            summary: Summary::new(start),
        }
    }

    /// The seat's number, from 0. It is below the number of the ring's seats, and `SEAT_LIMIT`.
    pub fn number(&self) -> u32
        ensures is { result ≡ self.now.number }
        ensures given { result < N.seats }
        ensures most { result < seat_limit }
    {
        self.number
    }

    /// Of the lists that two seats of one ring's name have seen the shorter is a prefix of the longer. It changes neither:
    /// it is called for its clauses.
    pub fn compare(&self, other: &Seat<N>)
        ensures shorter { length self.now.seen ≤ length other.now.seen
            → IsPrefix self.now.seen other.now.seen }
        ensures longer { length other.now.seen ≤ length self.now.seen
            → IsPrefix other.now.seen self.now.seen }
    {
        self.front.compare(&other.front);
    }

    /// A copy of the front that the seat has seen, to compare it with others.
    pub fn seen(&self) -> Front<N>
        ensures { result ≡ self.now.seen }
    {
        self.front.again()
    }

    /// Returns the client's log, in order: the receipt of each of its calls, and each of its surveys.
    pub fn log(&self) -> &[Entry]
        ensures { result.now ≡ self.now.log }
    {
        self.log.as_slice()
    }

    /// The seat's number and its log.
    pub(crate) fn told(&self) -> ClientLog
        ensures { result ≡ told_of self.now }
    {
        ClientLog {
            number: self.number(),
            entries: self.log(),
        }
    }

    /// Takes memory for `more` entries of the log, and answers how many it then has room for: a call or a survey takes one
    /// place of it, a group one for each machine. The number, the log and the seen list stay, also after a refusal.
    ///
    /// # Errors
    ///
    /// Only if memory runs out.
    pub fn reserve(&mut self, more: usize) -> Result<usize, AllocError>
        ensures room { IfOk result (λ room. (more ≤ room) × (self.new.room ≡ room)) }
        ensures same { IsUnchanged self.old self.new }
    {
        reserve_entries(&mut self.log, more)
    }

    /// The survey of the state seen now. It waits for nobody, takes no memory, and is not logged.
    pub(crate) fn glance(&mut self) -> Survey
        ensures number { self.new.number ≡ self.old.number }
        ensures log { self.new.log ≡ self.old.log }
        ensures room { self.new.room ≡ self.old.room }
        ensures legal { N.legal self.new.seen }
        ensures of_seats { AreOfSeats N.seats self.new.seen }
        ensures survey { result ≡ survey_of N.start self.new.seen }
        ensures later { IsPrefix self.old.seen self.new.seen }
    {
        renew(
            &mut self.reader,
            &mut self.front,
            &mut self.last,
            &self.summary,
        )
    }

    /// The survey of the state seen now, which is logged. It waits for nobody.
    #[tactic(auto, using(crate::proofs::Prefixes::prefix_self))]
    pub(crate) fn survey(&mut self) -> Result<Survey, AllocError>
        ensures number { self.new.number ≡ self.old.number }
        ensures logged { IfOk result (λ s. self.new.log ≡ self.old.log ++ Entry.Survey s ∷ []) }
        ensures room { IfOk result (λ _. self.old.room ≤ self.new.room + 1) }
        ensures with_room { 1 ≤ self.old.room → IsOk result }
        ensures legal { N.legal self.new.seen }
        ensures of_seats { AreOfSeats N.seats self.new.seen }
        ensures survey { IfOk result (λ s. s ≡ survey_of N.start self.new.seen) }
        ensures later { IsPrefix self.old.seen self.new.seen }
        ensures err { OnErr result (self.new ≡ self.old) }
    {
        self.front.len(); // says: it is legal, of the ring's seats
        self.log.reserve(1)?;
        let survey = renew(
            &mut self.reader,
            &mut self.front,
            &mut self.last,
            &self.summary,
        );
        self.log.push_reserved(Entry::Survey(survey));
        Ok(survey)
    }

    /// The front that was seen.
    pub(crate) fn front(&self) -> &Front<N>
        ensures { result.now ≡ self.now.seen }
    {
        &self.front
    }

    /// Sees the shown state, which begins with the seen one and ends with the event of this effect. Where only that event
    /// was not seen, the seat's summary takes the written value, and nothing else.
    #[inline(always)]
    pub(crate) fn go_on(&mut self, shown: &Shown<N>, effect: Effect)
        requires later { IsPrefix self.old.seen shown.now }
        requires effect { IsWritten N.start shown.now effect.machine effect.value effect.calm }
        ensures { self.new
            ≡ record {
              number = self.old.number;
              log = self.old.log;
              seen = shown.now;
              room = self.old.room;
            } }
    {
        self.front = shown.front();
        self.last = None;
        shown.lead_on(&mut self.summary, effect);
    }

    /// Sees the shown state, which begins with the seen one.
    pub(crate) fn catch_up(&mut self, shown: &Shown<N>)
        requires { IsPrefix self.old.seen shown.now }
        ensures { self.new
            ≡ record {
              number = self.old.number;
              log = self.old.log;
              seen = shown.now;
              room = self.old.room;
            } }
    {
        self.front = shown.front();
        self.last = None;
        shown.copy_to(&mut self.summary);
    }

    /// Returns only where the seen list is a prefix of this front. It returns at its first turn where the front has the
    /// whole list.
    pub(crate) fn surely_begins<W: Wait>(&self, rt: &W, front: &Front<N>)
        ensures { IsPrefix self.now.seen front.now }
    {
        self.front.surely_begins(rt, front);
    }

    /// The seat's log, with its number.
    pub(crate) fn into_log(self) -> Log
        ensures { IsLogOf self result }
    {
        let Seat {
            number,
            log,
            reader: _reader,
            front: _front,
            last: _,
            summary: _summary,
        } = self;
        Log {
            seat: number,
            entries: log,
        }
    }
}

/// Takes memory for `more` entries, and answers how many a log then has room for.
fn reserve_entries(log: &mut Vec<Entry>, more: usize) -> Result<usize, AllocError>
    ensures room { IfOk result
        (λ room. (more ≤ room) × (vec_len log.new + room ≡ vec_capacity log.new)) }
    ensures grows { vec_capacity log.old ≤ vec_capacity log.new }
    ensures same { log.new.items ≡ log.old.items }
{
    log.reserve_exact(more)?;
    Ok(log.capacity() - log.len())
}
