//! The answers to C about locks.

ghost use Rattle.std.specs.Prelude.{◌≡◌};
ghost use Rattle.c_calls.specs.LockReports;

use crate::codes::{GRANTS_LEFT, HISTORY_FULL, NO_MEMORY, NO_MORE};
use held_locks::{Answer, Answers, Refusal};

/// The answer to a client that acquires a lock: its token, or how many clients wait before it.
#[repr(C)]
#[derive(Clone, Copy)]
pub struct Hold {
    pub token: u64,
    pub ahead: u64,
}

/// A lock that was granted to a client that waited.
#[repr(C)]
#[derive(Clone, Copy)]
pub struct Grant {
    pub client: u64,
    pub token: u64,
    pub lock: u32,
}

/// The code of an input about locks that is refused.
pub(crate) fn lock_code(refusal: Refusal) -> u32
    ensures { result ≡ LockReports.lock_code refusal }
{
    match refusal {
        Refusal::Lock => 96,
        Refusal::Holds => 97,
        Refusal::Waits => 98,
        Refusal::Circle => 99,
        Refusal::Holder => 100,
        Refusal::Waiter => 101,
        Refusal::Machine => 17,
        Refusal::Value => 18,
        Refusal::Full => HISTORY_FULL,
        Refusal::Memory => NO_MEMORY,
    }
}

/// The code of a client's answer.
#[inline(always)]
fn own_code(own: Option<Answer>) -> u32
    ensures { result ≡ LockReports.own_code own }
{
    match own {
        Some(Answer::Granted(_)) => 0,
        Some(Answer::Waiting(_)) => 1,
        Some(Answer::Busy) => 2,
        Some(Answer::Released) => 0,
        Some(Answer::Cancelled) => 0,
        Some(Answer::Corrupted(_)) => 0,
        Some(Answer::Stats(_)) => 0,
        Some(Answer::Refused(why)) => lock_code(why),
        None => 0,
    }
}

/// What is written for it.
#[inline(always)]
fn own_hold(own: Option<Answer>, old: Hold) -> Hold
    ensures { result ≡ LockReports.own_hold own old }
{
    match own {
        Some(Answer::Granted(token)) => Hold { token, ahead: 0 },
        Some(Answer::Waiting(ahead)) => Hold { token: 0, ahead },
        Some(Answer::Busy) => old,
        Some(Answer::Released) => old,
        Some(Answer::Cancelled) => old,
        Some(Answer::Corrupted(_)) => old,
        Some(Answer::Stats(_)) => old,
        Some(Answer::Refused(_)) => old,
        None => old,
    }
}

/// The code of an ask.
#[inline(always)]
pub fn asked_code(answers: Option<Answers>) -> u32
    ensures { result ≡ LockReports.asked_code answers }
{
    match answers {
        Some(answers) => own_code(answers.own),
        None => GRANTS_LEFT,
    }
}

/// What is written for it.
#[inline(always)]
pub fn asked_hold(answers: Option<Answers>, old: Hold) -> Hold
    ensures { result ≡ LockReports.asked_hold answers old }
{
    match answers {
        Some(answers) => own_hold(answers.own, old),
        None => old,
    }
}

/// The answer to who asks for a grant.
pub fn report_grant(answer: Option<Grant>, out: &mut Grant) -> u32
    ensures { LockReports.IsGrantReport answer result out.old out.new }
{
    match answer {
        Some(grant) => {
            *out = grant;
            0
        }
        None => NO_MORE,
    }
}
