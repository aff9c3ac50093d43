//! The lines of events and surveys, as text that stays where it is. Nothing takes memory.

ghost use Rattle.std.specs.Prelude.{◌≡◌, []};
ghost use Rattle.saved_history.specs.declared.saved.SavedEvent.TheVariants.{Granted, Refused, Member, Corrupted};
ghost use Rattle.saved_history.specs.Spelling.{event_line, survey_line};

use crate::saved::{SavedEvent, SavedSurvey};
use text_lines::{Line, put_word};

/// Puts the line of a granted pass.
#[inline(always)]
fn put_granted(line: &mut Line, seat: u32, machine: u32, order: u64, number: u64, answer: u64)
    requires { line.old ≡ [] }
    ensures { line.new ≡ event_line (Granted seat machine order number answer) }
{
    line.byte(b'\n');
    line.number(answer);
    line.byte(b' ');
    line.number(number);
    put_word(line, b" g ");
    line.number(order);
    line.byte(b' ');
    line.number(machine as u64);
    line.byte(b' ');
    line.number(seat as u64);
    put_word(line, b"p ");
}

/// Puts the line of a pass that was not granted.
fn put_refused(line: &mut Line, seat: u32, machine: u32, order: u64)
    requires { line.old ≡ [] }
    ensures { line.new ≡ event_line (Refused seat machine order) }
{
    put_word(line, b" n\n");
    line.number(order);
    line.byte(b' ');
    line.number(machine as u64);
    line.byte(b' ');
    line.number(seat as u64);
    put_word(line, b"p ");
}

/// Puts the line of a member of a group.
fn put_member(
    line: &mut Line,
    seat: u32,
    machine: u32,
    order: u64,
    left: u32,
    number: u64,
    answer: u64,
)
    requires { line.old ≡ [] }
    ensures { line.new ≡ event_line (Member seat machine order left number answer) }
{
    line.byte(b'\n');
    line.number(answer);
    line.byte(b' ');
    line.number(number);
    line.byte(b' ');
    line.number(left as u64);
    line.byte(b' ');
    line.number(order);
    line.byte(b' ');
    line.number(machine as u64);
    line.byte(b' ');
    line.number(seat as u64);
    put_word(line, b"m ");
}

/// Puts the line of a fault.
fn put_corrupted(line: &mut Line, seat: u32, machine: u32, value: u32, old: u32)
    requires { line.old ≡ [] }
    ensures { line.new ≡ event_line (Corrupted seat machine value old) }
{
    line.byte(b'\n');
    line.number(old as u64);
    line.byte(b' ');
    line.number(value as u64);
    line.byte(b' ');
    line.number(machine as u64);
    line.byte(b' ');
    line.number(seat as u64);
    put_word(line, b"c ");
}

/// Puts the line of an event, as [`event_line`] makes it, where it need not be copied.
#[inline(always)]
pub fn put_event(line: &mut Line, event: SavedEvent)
    requires { line.old ≡ [] }
    ensures { line.new ≡ event_line event }
{
    match event {
        SavedEvent::Granted {
            seat,
            machine,
            order,
            number,
            result: answer,
        } => put_granted(line, seat, machine, order, number, answer),
        SavedEvent::Refused {
            seat,
            machine,
            order,
        } => put_refused(line, seat, machine, order),
        SavedEvent::Member {
            seat,
            machine,
            order,
            left,
            number,
            result: answer,
        } => put_member(line, seat, machine, order, left, number, answer),
        SavedEvent::Corrupted {
            seat,
            machine,
            value,
            old,
        } => put_corrupted(line, seat, machine, value, old),
    }
}

/// Puts the line of a survey, as [`survey_line`] makes it, where it need not be copied.
#[inline(always)]
pub fn put_survey(line: &mut Line, survey: SavedSurvey)
    requires { line.old ≡ [] }
    ensures { line.new ≡ survey_line survey }
{
    line.byte(b'\n');
    line.number(survey.rest);
    line.byte(b' ');
    line.number(survey.calm);
    line.byte(b' ');
    line.number(survey.first as u64);
    line.byte(b' ');
    line.number(survey.privileged as u64);
    line.byte(b' ');
    line.number(survey.position);
    line.byte(b' ');
    line.number(survey.seat as u64);
    put_word(line, b"s ");
}

/// The line of an event.
pub fn event_line(event: SavedEvent) -> Line
    ensures { result ≡ event_line event }
{
    let mut line = Line::new();
    put_event(&mut line, event);
    line
}

/// The line of a survey.
pub fn survey_line(survey: SavedSurvey) -> Line
    ensures { result ≡ survey_line survey }
{
    let mut line = Line::new();
    put_survey(&mut line, survey);
    line
}
