//! Locks that answer lines.

ghost use Rattle.std.specs.Prelude.{◌≡◌, ◌⊎◌, ◌&&◌, List, ℕ, Some, OnOk, OnErr, IfOk};
ghost use Rattle.held_locks.specs.Asked.{asked};
ghost use Rattle.lock_protocol.specs.Asks.{seen};
ghost use Rattle.lock_protocol.specs.Views.{input_of};
ghost use Rattle.lock_journal.specs.Asking.{one_ask, is_lack};
ghost use Rattle.lock_journal.specs.Counting.{IsStart};
ghost use Rattle.lock_journal.specs.Stages.{limit_of, is_past, stage_after};
ghost use Rattle.lock_journal.specs.Answering.{IsTold, IsToldOf, IsToldOfLeave, IsInputAnswered, Leaves};
ghost use Rattle.lock_service.specs.Serving.{AnswersInput, IsKept};
ghost use Rattle.line_replica.specs.Replies.{IsAdded};

use crate::segment::Segment;
use crate::telling::{tell, tell_left};
use held_locks::{Answer, Locks, OneAsk, Refusal};
use line_service::Pending;
use lock_journal::{
    Stage, Terms, Untold, denial_of, is_lack, is_off, is_stopped, limit_of, note_if, note_left_if,
    one_ask, put, stage_after,
};
use lock_protocol::{Ask, Denial, Input, LockNames, put_answer, put_denial};
use std::alloc::{AllocError, Global};

/// Locks that answer the lines of clients.
#[derive(Drop)]
pub struct LockService {
    pub(crate) segment: Segment,
    pub(crate) terms: Terms,
    pub(crate) stage: Stage,
}

/// Whether it is a refusal for lack of room or memory, on strict terms.
fn is_stop(strict: bool, own: Option<Answer>) -> bool
    ensures { result ≡ (strict && is_lack own) }
{
    strict && is_lack(own)
}

/// Asks one lock, and adds the lines of the answers.
fn answer_one(
    segment: &mut Segment,
    terms: Terms,
    client: u64,
    lock: u32,
    ask: OneAsk,
    pending: &mut Pending,
) -> Result<(), Untold>
    ensures { Leaves result
        (λ said noted. IsToldOf terms.strict terms.noting client lock (asked ask) segment.old said
        noted segment.new) (segment.new ≡ segment.old) pending.old pending.new }
{
    let done = segment.ask(client, lock, ask);
    if is_stop(terms.strict, done.answers.own) {
        return Err(Untold::Unanswered);
    }
    match tell(
        &mut pending.answers,
        segment.names(),
        client,
        lock,
        done.answers,
    ) {
        Ok(()) => put(note_if(
            terms.noting,
            segment.locks(),
            lock,
            done.answers.ended,
            done.before,
            &mut pending.notes,
        )),
        Err(_) => Err(Untold::Answered),
    }
}

/// A client leaves all locks. Each client that is granted one gets its line.
fn leave(
    segment: &mut Segment,
    noting: bool,
    client: u64,
    pending: &mut Pending,
) -> Result<(), AllocError>
    ensures { (said : List ℕ)
        × (noted : List ℕ)
        × IsToldOfLeave noting client segment.old said noted segment.new
        × OnOk result (IsAdded pending.old pending.new said noted) }
{
    segment.leave(client);
    match tell_left(&mut pending.answers, segment.names(), segment.left()) {
        Ok(()) => note_left_if(noting, segment.locks(), segment.left(), &mut pending.notes),
        Err(error) => Err(error),
    }
}

/// Asks the lock of a name, if there is one, and adds the lines of the answers.
fn answer_named(
    segment: &mut Segment,
    terms: Terms,
    client: u64,
    name: &[u8],
    ask: OneAsk,
    pending: &mut Pending,
) -> Result<(), Untold>
    ensures { Leaves result
        (λ said noted. IsTold terms.strict terms.noting client (Some (name.now, asked ask))
        segment.old said noted segment.new) (segment.new ≡ segment.old) pending.old pending.new }
{
    let found = segment.names().find(name);
    match found {
        Some(lock) => answer_one(segment, terms, client, lock, ask, pending),
        None => {
            let answer = Answer::Refused(Refusal::Lock);
            put(put_answer(&mut pending.answers, client, name, answer))
        }
    }
}

/// Answers an ask of a lock, or leaves all.
fn answer_ask(
    segment: &mut Segment,
    terms: Terms,
    client: u64,
    ask: Ask<'_>,
    pending: &mut Pending,
) -> Result<(), Untold>
    ensures { Leaves result
        (λ said noted. IsTold terms.strict terms.noting client (one_ask (seen ask.entry))
        segment.old said noted segment.new) (segment.new ≡ segment.old) pending.old pending.new }
{
    match one_ask(ask) {
        Some((name, ask)) => answer_named(segment, terms, client, name, ask, pending),
        None => put(leave(segment, terms.noting, client, pending)),
    }
}

/// Answers what was read of a line.
fn answer_input(
    segment: &mut Segment,
    terms: Terms,
    input: Input<'_>,
    pending: &mut Pending,
) -> Result<(), Untold>
    ensures { Leaves result
        (λ said noted. IsInputAnswered terms (input_of input.entry) segment.old said noted
        segment.new) (segment.new ≡ segment.old) pending.old pending.new }
{
    match input {
        Input::Asked { client, ask } => {
            if is_off(terms.faults, ask) {
                return put(put_denial(&mut pending.answers, client, Denial::Off));
            }
            answer_ask(segment, terms, client, ask, pending)
        }
        Input::Refused { client, why } => {
            put(put_denial(&mut pending.answers, client, denial_of(why)))
        }
        Input::Nobody => Ok(()),
    }
}

/// Whether the segment is due, where segments have a limit.
fn is_past(terms: Terms, segment: &Segment) -> bool
    ensures { result ≡ is_past terms segment.now }
{
    terms.limit.is_some() && segment.is_due()
}

/// Sees whether the segment is due.
fn see(service: &mut LockService)
    ensures { service.new ≡ record service.old {
      stage = stage_after service.old.stage (is_past service.old.terms service.old.segment);
    } }
{
    service.stage = stage_after(service.stage, is_past(service.terms, &service.segment));
}

/// Answers what was read of a line, and sees whether the segment is due.
pub(crate) fn answer(
    service: &mut LockService,
    input: Input<'_>,
    pending: &mut Pending,
) -> Result<(), AllocError>
    ensures ok { OnOk result ((said : List ℕ)
        × (noted : List ℕ)
        × AnswersInput service.old (input_of input.entry) said noted service.new
        × IsAdded pending.old pending.new said noted) }
    ensures err { OnErr result ((service.new ≡ service.old)
        ⊎ ((said : List ℕ)
        × (noted : List ℕ)
        × AnswersInput service.old (input_of input.entry) said noted service.new)) }
{
    let terms = service.terms;
    if is_stopped(terms.strict, service.stage) {
        return Err(AllocError);
    }
    match answer_input(&mut service.segment, terms, input, pending) {
        Ok(()) => {
            see(service);
            Ok(())
        }
        Err(Untold::Answered) => {
            see(service);
            Err(AllocError)
        }
        Err(Untold::Unanswered) => Err(AllocError),
    }
}

/// The locks are kept, at each moment: this does nothing, and says so.
pub(crate) fn are_kept(service: &LockService)
    ensures { IsKept service.now }
{
    service.locks().are_kept(); // says: they are
}

impl LockService {
    /// Locks of these names that answer lines, with the segment with which they start.
    ///
    /// # Errors
    ///
    /// Only if memory is short. The locks are let go then.
    pub fn new(
        alloc: Global,
        locks: Locks,
        names: LockNames,
        terms: Terms,
    ) -> Result<LockService, AllocError>
        ensures start { IfOk result (λ s. IsStart (limit_of terms.limit) names locks s.segment) }
        ensures terms { IfOk result (λ s. s.terms ≡ terms) }
        ensures stage { IfOk result (λ s. s.stage
            ≡ stage_after Stage.Open (is_past terms s.segment)) }
    {
        let Ok(segment) = Segment::start(alloc, locks, names, limit_of(terms.limit)) else {
            return Err(AllocError);
        };
        let stage = stage_after(Stage::Open, is_past(terms, &segment));
        Ok(LockService {
            segment,
            terms,
            stage,
        })
    }

    /// The locks.
    pub fn locks(&self) -> &Locks
        ensures { result.now ≡ self.now.segment.locks }
    {
        self.segment.locks()
    }
}
