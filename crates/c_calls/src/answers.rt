//! The answers to C.

ghost use Rattle.std.specs.Prelude.{◌≡◌};
ghost use Rattle.one_thread_ring.specs.SavedOf;
ghost use Rattle.c_calls.specs.Reports.{IsCallReport, IsTryReport, IsReplyReport, IsGroupReport, IsSightReport, IsEventReport, row_for, grant_in, IsTextReport, IsCheckReport, line_of};

use crate::codes::{NO_EVENT, NO_MEMORY, TOO_SMALL, call_code, kind_code};
use one_thread_ring::CallError;
use ring_book::GroupReceipt;
use ring_check::{CheckError, Summary};
use ring_model::{Event, Op, Receipt, Reply, Survey};
use saved_history::ReadError;

/// The answer to a call: its place in the history, the grant's number, and the resource's answer or the value that a
/// fault wrote over.
#[repr(C)]
#[derive(Clone, Copy)]
pub struct Answer {
    pub position: u64,
    pub number: u64,
    pub result: u64,
}

/// The answer to a group: the place of its first member, the number of that member's grant and the resource's answer to it,
/// how many members it has, and the least machine that is not privileged where one kept it from moving.
#[repr(C)]
#[derive(Clone, Copy)]
pub struct Group {
    pub first: u64,
    pub number: u64,
    pub result: u64,
    pub count: u32,
    pub machine: u32,
}

/// The survey of a ring.
#[repr(C)]
#[derive(Clone, Copy)]
pub struct Sight {
    pub position: u64,
    pub calm: u64,
    pub rest: u64,
    pub privileged: u32,
    pub first: u32,
}

/// An event of a history; what does not belong to its kind is 0.
#[repr(C)]
#[derive(Clone, Copy)]
pub struct EventRow {
    pub order: u64,
    pub number: u64,
    pub result: u64,
    pub kind: u32,
    pub seat: u32,
    pub machine: u32,
    pub value: u32,
}

/// The sums of a legal text; of any other the first bad line, from 1, and 0 elsewhere.
#[repr(C)]
#[derive(Clone, Copy)]
pub struct Sums {
    pub events: u64,
    pub granted: u64,
    pub corrupted: u64,
    pub surveys: u64,
    pub line: u64,
    pub rings: u32,
}

/// A reply at a position.
#[inline(always)]
fn report_reply(position: u64, reply: Reply, out: &mut Answer) -> u32
    ensures { IsReplyReport position reply result out.new }
{
    match reply {
        Reply::Granted { number, result } => {
            *out = Answer {
                position,
                number,
                result,
            };
            0
        }
        Reply::NotPrivileged => {
            *out = Answer {
                position,
                number: 0,
                result: 0,
            };
            1
        }
        Reply::Corrupted { old } => {
            *out = Answer {
                position,
                number: 0,
                result: old as u64,
            };
            0
        }
    }
}

/// The answer of a call.
#[inline(always)]
pub fn report_call(answer: Result<Receipt, CallError>, out: &mut Answer) -> u32
    ensures { IsCallReport answer result out.old out.new }
{
    match answer {
        Ok(receipt) => report_reply(receipt.position, receipt.event.reply, out),
        Err(error) => call_code(error),
    }
}

/// The answer of a try.
pub fn report_try(answer: Result<Option<Receipt>, CallError>, out: &mut Answer) -> u32
    ensures { IsTryReport answer result out.old out.new }
{
    match answer {
        Ok(Some(receipt)) => report_reply(receipt.position, receipt.event.reply, out),
        Ok(None) => 1,
        Err(error) => call_code(error),
    }
}

/// The answer of a group, with the grant of its first member.
pub fn report_group(
    answer: Result<GroupReceipt, CallError>,
    grant: (u64, u64),
    out: &mut Group,
) -> u32
    ensures { IsGroupReport answer grant result out.old out.new }
{
    match answer {
        Ok(receipt) => {
            *out = Group {
                first: receipt.first,
                number: grant.0,
                result: grant.1,
                count: receipt.count,
                machine: 0,
            };
            0
        }
        Err(CallError::NotPrivileged(machine)) => {
            *out = Group {
                first: 0,
                number: 0,
                result: 0,
                count: 0,
                machine,
            };
            21
        }
        Err(error) => call_code(error),
    }
}

/// The answer of a survey.
pub fn report_sight(answer: Result<Survey, CallError>, out: &mut Sight) -> u32
    ensures { IsSightReport answer result out.old out.new }
{
    match answer {
        Ok(survey) => {
            *out = Sight {
                position: survey.position,
                calm: survey.calm,
                rest: survey.rest,
                privileged: survey.privileged,
                first: survey.first,
            };
            0
        }
        Err(error) => call_code(error),
    }
}

/// The number of a grant, and the resource's answer; 0 where there is no grant.
fn grant_of(reply: Reply) -> (u64, u64)
    ensures { result ≡ Rattle.c_calls.specs.Reports.grant_of reply }
{
    match reply {
        Reply::Granted { number, result } => (number, result),
        Reply::NotPrivileged | Reply::Corrupted { .. } => (0, 0),
    }
}

/// The same of an event, if there is one.
pub fn grant_in(event: Option<Event>) -> (u64, u64)
    ensures { result ≡ grant_in event }
{
    match event {
        Some(event) => grant_of(event.reply),
        None => (0, 0),
    }
}

/// The kind of a pass.
fn pass_kind(reply: Reply) -> u32
    ensures { result ≡ Rattle.c_calls.specs.Reports.pass_kind reply }
{
    match reply {
        Reply::Granted { .. } => 0,
        Reply::NotPrivileged | Reply::Corrupted { .. } => 1,
    }
}

/// The value that was written over.
fn old_of(value: u32, reply: Reply) -> u64
    ensures { result ≡ SavedOf.old_of value reply }
{
    match reply {
        Reply::Corrupted { old } => old as u64,
        Reply::Granted { .. } | Reply::NotPrivileged => value as u64,
    }
}

/// An event in a row.
fn row_of(event: Event) -> EventRow
    ensures { result ≡ row_for event.seat event.op event.reply }
{
    let (number, result) = grant_of(event.reply);
    match event.op {
        Op::Pass { machine, order } => EventRow {
            order,
            number,
            result,
            kind: pass_kind(event.reply),
            seat: event.seat,
            machine,
            value: 0,
        },
        Op::Member {
            machine,
            order,
            left,
        } => EventRow {
            order,
            number,
            result,
            kind: 2,
            seat: event.seat,
            machine,
            value: left,
        },
        Op::Corrupt { machine, value } => EventRow {
            order: 0,
            number: 0,
            result: old_of(value, event.reply),
            kind: 3,
            seat: event.seat,
            machine,
            value,
        },
    }
}

/// The answer to who asks for an event.
pub fn report_event(answer: Option<Event>, out: &mut EventRow) -> u32
    ensures { IsEventReport answer result out.old out.new }
{
    match answer {
        Some(event) => {
            *out = row_of(event);
            0
        }
        None => NO_EVENT,
    }
}

/// A text's size, and its bytes if there is room for them.
pub fn report_text(text: &[u8], out: &mut [u8], size: &mut u64) -> u32
    ensures { IsTextReport text.now result out.old out.new size.new }
{
    *size = text.len() as u64;
    if text.len() > out.len() {
        return TOO_SMALL;
    }
    out[..text.len()].copy_from_slice(text);
    0
}

/// No sums, with a line.
pub fn no_sums(line: u64) -> Sums
    ensures { result ≡ Rattle.c_calls.specs.Reports.no_sums line }
{
    Sums {
        events: 0,
        granted: 0,
        corrupted: 0,
        surveys: 0,
        line,
        rings: 0,
    }
}

/// The first line that is wrong, or none.
pub fn line_of(error: ReadError) -> u64
    ensures { result ≡ line_of error }
{
    match error {
        ReadError::Syntax(line) => line,
        ReadError::Truncated => 0,
        ReadError::OutOfMemory => 0,
    }
}

/// The answer of the checker.
pub fn report_check(answer: Result<Summary, CheckError>, out: &mut Sums) -> u32
    ensures { IsCheckReport answer result out.new }
{
    match answer {
        Ok(sums) => {
            *out = Sums {
                events: sums.events,
                granted: sums.granted,
                corrupted: sums.corrupted,
                surveys: sums.surveys,
                line: 0,
                rings: sums.rings,
            };
            0
        }
        Err(CheckError::Bad { line, kind }) => {
            *out = no_sums(line);
            kind_code(kind)
        }
        Err(CheckError::OutOfMemory) => {
            *out = no_sums(0);
            NO_MEMORY
        }
    }
}
