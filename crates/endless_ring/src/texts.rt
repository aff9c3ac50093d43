//! The text of a ring's file, and the lines of its journal, written into bytes of a caller. It takes no memory.

ghost use Rattle.std.specs.Prelude.{◌≡◌, ◌<◌, ◌++◌, drop, IfOk};
ghost use Rattle.text_lines.specs.Spelling.{spaced, ended};
ghost use Rattle.segment_files.specs.Spelling.{head_text, BaseFits, HeadFits};
ghost use Rattle.one_thread_ring.specs.Journals.{event_lines};
ghost use Rattle.endless_ring.specs.Files.{head_at, file_text, IsTextAt, survey_lines};
ghost use Rattle.endless_ring.specs.Filling.{Fills};

use crate::files::Looked;
use crate::fills::{last_two, put};
use crate::places::FilePlace;
use crate::rings::EndlessRing;
use crate::saves::put_text;
use one_thread_ring::{saved_event, saved_survey};
use ring_model::{Base, Event};
use saved_history::{event_line, survey_line};
use std::alloc::{AllocError, Global};
use text_lines::Line;

/// The numbers of what came before, each of which is within its range by its type.
fn base_numbers(base: Base) -> Line
    ensures is { result ≡ spaced base.events ++ (spaced base.grants
        ++ (spaced base.amount ++ ended base.calm)) }
    ensures fits { BaseFits base }
{
    let mut line = last_two(base.amount, base.calm);
    line.byte(b' ');
    line.number(base.grants);
    line.byte(b' ');
    line.number(base.events);
    line
}

/// Puts the head of the file at this place of a chain, of one ring with this base, at the front of the bytes.
fn put_head(out: &mut [u8], file: &FilePlace, base: Base) -> usize
    ensures written { Fills out.old out.new 0 result (head_text (head_at file.now base)) }
    ensures fits { HeadFits (head_at file.now base) }
{
    let digits = file.behind();
    let begun = put(out, 0, b"ringsegment 1 ");
    let numbered = put(out, begun, last_two(file.number(), 1).as_bytes());
    let linked = put(out, numbered, b"behind ");
    let told = put(out, linked, &digits);
    let ended = put(out, told, b"\n");
    let named = put(out, ended, b"base ");
    put(out, named, base_numbers(base).as_bytes())
}

/// Puts the text of the file at this place of a chain, of this ring, at the front of the bytes, if they have room for it. Returns
/// its size.
pub(crate) fn put_file(out: &mut [u8], file: &FilePlace, ring: &EndlessRing) -> usize
    ensures written { Fills out.old out.new 0 result (file_text file.now ring.now) }
    ensures is { IsTextAt file.now ring.now (file_text file.now ring.now) }
{
    let headed = put_head(out, file, *ring.base());
    let begun = put(out, headed, b"ringjournal 1\n");
    put_text(out, begun, ring.segment())
}

/// The same text by itself.
pub(crate) fn file_text(
    alloc: Global,
    file: &FilePlace,
    ring: &EndlessRing,
) -> Result<Vec<u8>, AllocError>
    ensures { IfOk result (λ text. IsTextAt file.now ring.now text.items) }
{
    let size = put_file(&mut [], file, ring);
    if size == usize::MAX {
        return Err(AllocError);
    }
    let mut text = vec![in alloc; 0; size]?;
    put_file(text.as_mut_slice(), file, ring);
    Ok(text)
}

/// Puts a journal's line for each of these events.
fn put_calls(out: &mut [u8], place: usize, events: &[Event]) -> usize
    ensures { Fills out.old out.new place result (event_lines 0 events.now) }
{
    let mut behind = place;
    for event in events {
        let begun = put(out, behind, b"0 ");
        behind = put(out, begun, event_line(saved_event(*event)).as_bytes());
    }
    behind
}

/// Puts a journal's line for each of these surveys.
fn put_looked(out: &mut [u8], place: usize, looked: &[Looked]) -> usize
    ensures { Fills out.old out.new place result (survey_lines looked.now) }
{
    let mut behind = place;
    for one in looked {
        let begun = put(out, behind, b"0 ");
        behind = put(
            out,
            begun,
            survey_line(saved_survey(one.seat, one.survey)).as_bytes(),
        );
    }
    behind
}

/// The events of a history from a place on; none if it is after the end.
fn events_from(history: &[Event], from: usize) -> &[Event]
    ensures { result.now ≡ drop from history.now }
{
    if from > history.len() {
        return &[];
    }
    &history[from..]
}

/// Puts the lines of a journal for the events of a history from a place on, and for these surveys, at the front of the bytes, if
/// they have room for them. Returns their size.
pub(crate) fn put_lines(out: &mut [u8], history: &[Event], from: usize, looked: &[Looked]) -> usize
    ensures { Fills out.old out.new 0 result
        (event_lines 0 (drop from history.now) ++ survey_lines looked.now) }
{
    let called = put_calls(out, 0, events_from(history, from));
    put_looked(out, called, looked)
}
