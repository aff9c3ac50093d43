//! The line of what each seat did.

ghost use Rattle.std.specs.Prelude.{◌≡◌, ◌++◌, codes};
ghost use Rattle.text_lines.specs.Spelling.{list_text};
ghost use Rattle.text_lines.specs.Writing.{Writes};
ghost use Rattle.ring_text.specs.SavedReport.{calls_by, grants_to, surveys_by, each_seat, seats_line};

use crate::farm_report::put_worded_list;
use ring_model::limits::SEAT_LIMIT;
use ring_model::{Event, Reply};
use saved_history::SavedSurvey;
use std::io::Write;
use text_lines::{WriteFault, put};

/// How many calls of a history are a seat's.
fn calls_by(history: &[Event], seat: u32) -> u64
    ensures { result ≡ calls_by history.now seat }
{
    history.iter().filter(|event| event.seat == seat).count() as u64
}

/// How many granted passes of a history are a seat's.
fn grants_to(history: &[Event], seat: u32) -> u64
    ensures { result ≡ grants_to history.now seat }
{
    history
        .iter()
        .filter(|event| event.seat == seat && matches!(event.reply, Reply::Granted { .. }))
        .count() as u64
}

/// How many surveys are a seat's.
fn surveys_by(surveys: &[SavedSurvey], seat: u32) -> u64
    ensures { result ≡ surveys_by surveys.now seat }
{
    surveys.iter().filter(|survey| survey.seat == seat).count() as u64
}

/// Writes how many surveys each seat was given, and the end of the line.
#[tactic(auto, using(text_lines::proofs::Writing::writes_then))]
fn put_surveys<W: Write>(out: &mut W, surveys: &[SavedSurvey]) -> Result<(), WriteFault>
    ensures { Writes (W.contents out.old) (W.contents out.new) result
        (codes " surveys " ++ (list_text (each_seat (surveys_by surveys.now)) ++ codes "\n")) }
{
    match put_worded_list(
        out,
        b" surveys ",
        SEAT_LIMIT as u32,
        |seat| surveys_by(surveys, seat),
    ) {
        Ok(()) => put(out, b"\n"),
        Err(fault) => Err(fault),
    }
}

/// Writes how many passes each seat was granted, and the rest of the line.
#[tactic(auto, using(text_lines::proofs::Writing::writes_then))]
fn put_grants<W: Write>(
    out: &mut W,
    history: &[Event],
    surveys: &[SavedSurvey],
) -> Result<(), WriteFault>
    ensures { Writes (W.contents out.old) (W.contents out.new) result
        (codes " granted "
        ++ (list_text (each_seat (grants_to history.now))
        ++ (codes " surveys "
        ++ (list_text (each_seat (surveys_by surveys.now)) ++ codes "\n")))) }
{
    match put_worded_list(
        out,
        b" granted ",
        SEAT_LIMIT as u32,
        |seat| grants_to(history, seat),
    ) {
        Ok(()) => put_surveys(out, surveys),
        Err(fault) => Err(fault),
    }
}

/// Writes what each seat did.
#[tactic(auto, using(text_lines::proofs::Writing::writes_then))]
pub(crate) fn put_seats_line<W: Write>(
    out: &mut W,
    history: &[Event],
    surveys: &[SavedSurvey],
) -> Result<(), WriteFault>
    ensures { Writes (W.contents out.old) (W.contents out.new) result
        (seats_line history.now surveys.now) }
{
    match put_worded_list(
        out,
        b"seats calls ",
        SEAT_LIMIT as u32,
        |seat| calls_by(history, seat),
    ) {
        Ok(()) => put_grants(out, history, surveys),
        Err(fault) => Err(fault),
    }
}
