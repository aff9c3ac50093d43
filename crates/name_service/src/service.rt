//! Locks by any name that answer lines.

ghost use Rattle.std.specs.Prelude.{◌≡◌, ◌⊎◌, ◌&&◌, not, is_some, List, Some, ℕ, OnOk, OnErr, option_map};
ghost use Rattle.held_locks.specs.Asked.{asked};
ghost use Rattle.lock_protocol.specs.Asks.{seen, HasName};
ghost use Rattle.lock_protocol.specs.Names.{IsName};
ghost use Rattle.lock_protocol.specs.Views.{input_of};
ghost use Rattle.line_replica.specs.Replies.{IsAdded};
ghost use Rattle.lock_journal.specs.Asking.{one_ask};
ghost use Rattle.lock_journal.specs.Answering.{Leaves};
ghost use Rattle.lock_journal.specs.Stages.{stage_after};
ghost use Rattle.name_service.specs.Naming.{reply_told, is_name_lack};
ghost use Rattle.name_service.specs.Serving.{IsNameToldOfLeave, IsNameTold, IsNamedInput, IsNameInputAnswered, AnswersNameInput, is_name_past, IsNameKept};

use crate::noting::{note_name_if, note_names_left_if, tell_name, tell_names_left};
use crate::segment::{NameSegment, has_no_pool, is_wanting};
use held_locks::{Answer, OneAsk, Refusal};
use line_service::Pending;
use lock_journal::{
    Stage, Terms, Untold, denial_of, is_lack, is_off, is_stopped, one_ask, put, stage_after,
};
use lock_names::{Names, Reply};
use lock_protocol::{Ask, Denial, Input, put_answer, put_denial};
use ring_state::Params;
use std::alloc::AllocError;

/// On which terms lines about names are answered.
#[derive(Clone, Copy)]
pub struct NameTerms {
    /// The terms of locks that answer lines. A segment is due too if no ring is free and the pool may get one.
    pub lines: Terms,
    /// How many rings the pool has at most; 0, if the list has none: then a name that no lock has is refused with `lock`.
    pub most: u32,
    /// The size of its rings.
    pub size: Params,
}

/// Locks by any name that answer the lines of clients.
#[derive(Drop)]
pub struct NameService {
    pub(crate) segment: NameSegment,
    pub(crate) terms: NameTerms,
    pub(crate) stage: Stage,
}

/// The reply as the client gets it: while the pool may get rings, an ask that finds none free is refused for lack of room.
fn reply_told(wanting: bool, reply: Reply) -> Reply
    ensures { result ≡ reply_told wanting reply }
{
    match reply {
        Reply::Names => {
            if wanting {
                Reply::Lock(Answer::Refused(Refusal::Full))
            } else {
                Reply::Names
            }
        }
        Reply::Lock(answer) => Reply::Lock(answer),
    }
}

/// The reply to the client that asks, as it gets it.
fn own_told(wanting: bool, own: Option<Reply>) -> Option<Reply>
    ensures { result ≡ option_map (reply_told wanting) own }
{
    match own {
        Some(reply) => Some(reply_told(wanting, reply)),
        None => None,
    }
}

/// Whether no ring was reached, of a list without a pool.
fn is_no_lock(listed: bool, ring: Option<u32>) -> bool
    ensures { result ≡ (not (is_some ring) && listed) }
{
    ring.is_none() && listed
}

/// Whether it is a refusal for lack of room or memory.
fn is_name_lack(own: Option<Reply>) -> bool
    ensures { result ≡ is_name_lack own }
{
    match own {
        Some(Reply::Lock(answer)) => is_lack(Some(answer)),
        Some(Reply::Names) => false,
        None => false,
    }
}

/// Whether it is one, on strict terms.
fn is_stop(strict: bool, own: Option<Reply>) -> bool
    ensures { result ≡ (strict && is_name_lack own) }
{
    strict && is_name_lack(own)
}

/// The bytes of a name as text.
fn text_of(name: &[u8]) -> &str
    requires { IsName name.now }
    ensures { result.now ≡ name.now }
{
    match str::from_utf8(name) {
        Ok(text) => text,
        Err(_) => unreachable!(), // the bytes of a name are ASCII
    }
}

/// Asks a name, and adds the lines of the answers; of a list without a pool: or that there is no such lock.
fn answer_name(
    segment: &mut NameSegment,
    terms: NameTerms,
    client: u64,
    name: &[u8],
    ask: OneAsk,
    pending: &mut Pending,
) -> Result<(), Untold>
    requires { IsName name.now }
    ensures { Leaves result
        (λ said noted. IsNameTold terms client (Some (name.now, asked ask)) segment.old said noted
        segment.new) (segment.new ≡ segment.old) pending.old pending.new }
{
    let names = segment.names();
    let listed = has_no_pool(names, terms.most);
    let wanting = is_wanting(names, terms.most);
    let done = segment.ask(client, text_of(name), ask);
    if is_no_lock(listed, done.answers.ring) {
        let answer = Answer::Refused(Refusal::Lock);
        return put(put_answer(&mut pending.answers, client, name, answer));
    }
    let own = own_told(wanting, done.answers.own);
    if is_stop(terms.lines.strict, own) {
        return Err(Untold::Unanswered);
    }
    match tell_name(
        &mut pending.answers,
        client,
        name,
        own,
        done.answers.granted,
    ) {
        Ok(()) => put(note_name_if(
            terms.lines.noting,
            segment.names(),
            done.answers,
            done.before,
            &mut pending.notes,
        )),
        Err(_) => Err(Untold::Answered),
    }
}

/// A client leaves all names. Each client that is granted one gets its line.
fn leave_names(
    segment: &mut NameSegment,
    noting: bool,
    client: u64,
    pending: &mut Pending,
) -> Result<(), AllocError>
    ensures { (said : List ℕ)
        × (noted : List ℕ)
        × IsNameToldOfLeave noting client segment.old said noted segment.new
        × OnOk result (IsAdded pending.old pending.new said noted) }
{
    segment.leave(client);
    match tell_names_left(&mut pending.answers, segment.names(), segment.left()) {
        Ok(()) => note_names_left_if(noting, segment.names(), segment.left(), &mut pending.notes),
        Err(error) => Err(error),
    }
}

/// Answers an ask of a name, or leaves all.
fn answer_ask(
    segment: &mut NameSegment,
    terms: NameTerms,
    client: u64,
    ask: Ask<'_>,
    pending: &mut Pending,
) -> Result<(), Untold>
    requires { HasName (seen ask) }
    ensures { Leaves result
        (λ said noted. IsNameTold terms client (one_ask (seen ask.entry)) segment.old said noted
        segment.new) (segment.new ≡ segment.old) pending.old pending.new }
{
    match one_ask(ask) {
        Some((name, ask)) => answer_name(segment, terms, client, name, ask, pending),
        None => put(leave_names(segment, terms.lines.noting, client, pending)),
    }
}

/// Answers what was read of a line.
fn answer_input(
    segment: &mut NameSegment,
    terms: NameTerms,
    input: Input<'_>,
    pending: &mut Pending,
) -> Result<(), Untold>
    requires { IsNamedInput (input_of input) }
    ensures { Leaves result
        (λ said noted. IsNameInputAnswered terms (input_of input.entry) segment.old said noted
        segment.new) (segment.new ≡ segment.old) pending.old pending.new }
{
    match input {
        Input::Asked { client, ask } => {
            if is_off(terms.lines.faults, ask) {
                return put(put_denial(&mut pending.answers, client, Denial::Off));
            }
            answer_ask(segment, terms, client, ask, pending)
        }
        Input::Refused { client, why } => {
            put(put_denial(&mut pending.answers, client, denial_of(why)))
        }
        Input::Nobody => Ok(()),
    }
}

/// Whether the segment is due, where segments have a limit.
pub(crate) fn is_past(terms: NameTerms, segment: &NameSegment) -> bool
    ensures { result ≡ is_name_past terms segment.now }
{
    terms.lines.limit.is_some() && (segment.is_due() || is_wanting(segment.names(), terms.most))
}

/// Sees whether the segment is due.
fn see(service: &mut NameService)
    ensures { service.new ≡ record service.old {
      stage = stage_after service.old.stage
          (is_name_past service.old.terms service.old.segment);
    } }
{
    service.stage = stage_after(service.stage, is_past(service.terms, &service.segment));
}

/// Answers what was read of a line, and sees whether the segment is due.
pub(crate) fn answer(
    service: &mut NameService,
    input: Input<'_>,
    pending: &mut Pending,
) -> Result<(), AllocError>
    requires { IsNamedInput (input_of input) }
    ensures ok { OnOk result ((said : List ℕ)
        × (noted : List ℕ)
        × AnswersNameInput service.old (input_of input.entry) said noted service.new
        × IsAdded pending.old pending.new said noted) }
    ensures err { OnErr result ((service.new ≡ service.old)
        ⊎ ((said : List ℕ)
        × (noted : List ℕ)
        × AnswersNameInput service.old (input_of input.entry) said noted service.new)) }
{
    let terms = service.terms;
    if is_stopped(terms.lines.strict, service.stage) {
        return Err(AllocError);
    }
    match answer_input(&mut service.segment, terms, input, pending) {
        Ok(()) => {
            see(service);
            Ok(())
        }
        Err(Untold::Answered) => {
            see(service);
            Err(AllocError)
        }
        Err(Untold::Unanswered) => Err(AllocError),
    }
}

/// The locks are kept, and their names are right, at each moment: this does nothing, and says so.
pub(crate) fn are_kept(service: &NameService)
    ensures { IsNameKept service.now }
{
    let names = service.names();
    names.are_kept(); // says: the names are right
    names.locks().are_kept(); // says: the locks are kept
}

impl NameService {
    /// The locks with their names.
    pub fn names(&self) -> &Names
        ensures { result.now ≡ self.now.segment.named }
    {
        self.segment.names()
    }
}
