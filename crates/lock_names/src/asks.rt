//! What is asked of a ring that has a name, and its answers with the tokens of the name.

ghost use Rattle.std.specs.Prelude.{◌≡◌, ℕ, ◌+◌, ◌-◌, ◌^◌, ◌<◌, ◌≤◌, true, length, slice_get, Some, option_map};
ghost use Rattle.held_locks.specs.Asked.{asked, events_at, IsAnswerTo};
ghost use Rattle.held_locks.specs.Kept.{LockView};
ghost use Rattle.lock_names.specs.Names.{of_ring, as_told, told_holder, token_in};
ghost use Rattle.lock_names.specs.Kept.{may_pass, unused_answer, bound_by, own_number, with_number, told_of, IsReady, IsTellable, IsTold};
ghost use Rattle.held_locks.specs.declared.answers.Answer.{Answer};
ghost use Rattle.held_locks.specs.declared.answers.Holder.{Holder};

use crate::replies::{NameAnswers, NameAsked, Reply};
use crate::table::Counts;
use held_locks::{Answer, Answers, Holder, Locks, OneAnswer, OneAsk, Refusal, Stats};

/// Whether the ask may make the ring pass, and not for a client that waits already.
pub(crate) fn may_pass(ask: OneAsk) -> bool
    ensures { result ≡ may_pass (asked ask) }
{
    match ask {
        OneAsk::Acquire { .. } | OneAsk::Try { .. } | OneAsk::Corrupt { .. } => true,
        OneAsk::Release { .. } | OneAsk::Cancel | OneAsk::Stats => false,
    }
}

/// The answer to an ask of a name that no ring has, if it is not for a hold.
pub(crate) fn unused_answer(ask: OneAsk) -> Option<Answer>
    ensures { result ≡ unused_answer (asked ask) }
{
    match ask {
        OneAsk::Acquire { .. } | OneAsk::Try { .. } => None,
        OneAsk::Release { .. } => Some(Answer::Refused(Refusal::Holder)),
        OneAsk::Cancel => Some(Answer::Refused(Refusal::Waiter)),
        OneAsk::Corrupt { .. } => Some(Answer::Refused(Refusal::Lock)),
        OneAsk::Stats => Some(Answer::Stats(Stats {
            machines: 0,
            waiters: 0,
            passes: 0,
            holder: None,
        })),
    }
}

/// The name's token of a grant of the ring.
fn token_in(counts: Counts, number: u64) -> u64
    requires { token_in (bound_by counts) number < 2 ^ 64 }
    ensures { result ≡ token_in (bound_by counts) number }
{
    counts.floor + number.saturating_sub(counts.before)
}

/// The ring's number of the hold, if this is its token for the name; else 0.
pub(crate) fn own_number(counts: Counts, token: u64, holder: Option<Holder>) -> u64
    requires { (h : Holder) → holder ≡ Some h → token_in (bound_by counts) h.token < 2 ^ 64 }
    ensures { result ≡ own_number (bound_by counts) token holder }
{
    match holder {
        Some(holder) => {
            if token == token_in(counts, holder.token) {
                holder.token
            } else {
                0
            }
        }
        None => 0,
    }
}

/// The ask, as the lock of the ring understands it: a release has the ring's number of the hold.
fn with_number(counts: Counts, ask: OneAsk, holder: Option<Holder>) -> OneAsk
    requires { (h : Holder) → holder ≡ Some h → token_in (bound_by counts) h.token < 2 ^ 64 }
    ensures { asked result ≡ with_number (bound_by counts) (asked ask) holder }
{
    match ask {
        OneAsk::Release { token } => OneAsk::Release {
            token: own_number(counts, token, holder),
        },
        OneAsk::Acquire { .. } | OneAsk::Try { .. } | OneAsk::Cancel => ask,
        OneAsk::Corrupt { .. } | OneAsk::Stats => ask,
    }
}

/// The lock of the ring is asked.
fn ask_lock(locks: &mut Locks, client: u64, ring: u32, counts: Counts, ask: OneAsk) -> OneAnswer
    requires lock { ring < length locks.old }
    requires tokens { (v : LockView) (h : Holder) → slice_get locks.old ring ≡ Some v
        → v.holder ≡ Some h → token_in (bound_by counts) h.token < 2 ^ 64 }
    requires began { (v : LockView) (h : Holder) → slice_get locks.old ring ≡ Some v
        → v.holder ≡ Some h → counts.before < h.token }
    ensures answer { IsAnswerTo locks.old locks.new client ring
        (of_ring (bound_by counts) (asked ask)) result.answers }
    ensures before { result.before ≡ events_at (slice_get locks.old ring) }
    ensures after { result.after ≡ events_at (slice_get locks.new ring) }
{
    let own = with_number(counts, ask, locks.holder(ring));
    locks.ask(client, ring, own)
}

/// The holder, with the token of the name.
pub(crate) fn told_holder(counts: Counts, holder: Holder) -> Holder
    requires { token_in (bound_by counts) holder.token < 2 ^ 64 }
    ensures { result ≡ told_holder (bound_by counts) holder }
{
    Holder {
        client: holder.client,
        token: token_in(counts, holder.token),
    }
}

/// The ring's answer, with the token of the name.
fn as_told(counts: Counts, answer: Answer) -> Answer
    requires { IsTellable (bound_by counts) answer }
    ensures { result ≡ as_told (bound_by counts) answer }
{
    match answer {
        Answer::Granted(number) => Answer::Granted(token_in(counts, number)),
        Answer::Stats(stats) => {
            let holder = match stats.holder {
                Some(holder) => Some(told_holder(counts, holder)),
                None => None,
            };
            Answer::Stats(Stats {
                machines: stats.machines,
                waiters: stats.waiters,
                passes: stats.passes.saturating_sub(counts.before),
                holder,
            })
        }
        Answer::Waiting(more) => Answer::Waiting(more),
        Answer::Busy => Answer::Busy,
        Answer::Released => Answer::Released,
        Answer::Cancelled => Answer::Cancelled,
        Answer::Corrupted(value) => Answer::Corrupted(value),
        Answer::Refused(why) => Answer::Refused(why),
    }
}

/// The ring's answers, with the tokens of the name.
fn told(counts: Counts, ring: u32, answers: Answers) -> NameAnswers
    requires own { (a : Answer) → answers.own ≡ Some a → IsTellable (bound_by counts) a }
    requires granted { (h : Holder) → answers.granted ≡ Some h
        → token_in (bound_by counts) h.token < 2 ^ 64 }
    ensures { result ≡ told_of ring (bound_by counts) answers }
{
    let own = match answers.own {
        Some(answer) => Some(Reply::Lock(as_told(counts, answer))),
        None => None,
    };
    let granted = match answers.granted {
        Some(holder) => Some(told_holder(counts, holder)),
        None => None,
    };
    NameAnswers {
        ring: Some(ring),
        fresh: false,
        freed: false,
        own,
        ended: answers.ended,
        granted,
    }
}

/// The locks of all rings, the fixed ones first; how many these are; and how many grants there were of all rings for ever.
#[derive(Drop)]
pub(crate) struct Rings {
    pub(crate) locks: Locks,
    pub(crate) fixed: u32,
    pub(crate) top: u64,
}

/// The ring is asked, its grants are counted, and its answers get the tokens of the name.
pub(crate) fn ask_ring(
    rings: &mut Rings,
    client: u64,
    ring: u32,
    counts: Counts,
    ask: OneAsk,
) -> NameAsked
    requires { IsReady rings.old.locks rings.old.top ring (bound_by counts) (asked ask) }
    ensures told { IsTold rings.old.locks rings.new.locks rings.old.top rings.new.top client ring
        (bound_by counts) (asked ask) result.answers }
    ensures before { result.before ≡ events_at (slice_get rings.old.locks ring) }
    ensures after { result.after ≡ events_at (slice_get rings.new.locks ring) }
    ensures fixed { rings.new.fixed ≡ rings.old.fixed }
{
    rings.locks.are_kept();
    let before = rings.locks.ring(ring).grants();
    let done = ask_lock(&mut rings.locks, client, ring, counts, ask);
    rings.top += rings.locks.ring(ring).grants() - before;
    NameAsked {
        answers: told(counts, ring, done.answers),
        before: done.before,
        after: done.after,
    }
}
