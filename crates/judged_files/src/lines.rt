//! What a line says of names.

ghost use Rattle.std.specs.Prelude.{◌≡◌};
ghost use Rattle.lock_protocol.specs.Names.{IsName};
ghost use Rattle.journal.specs.Recovery.{has_line_end};
ghost use Rattle.name_remarks.specs.Remarks.{IsRemark};
ghost use Rattle.name_remarks.specs.Views.{seen};
ghost use Rattle.name_check.specs.Kept.{entry_of};
ghost use Rattle.judged_files.specs.Lines.{remark_says, pass_says, event_says, survey_says, call_says, is_done, is_named, is_block, IsRemarkHeard, IsCallHeard, IsHeard};

use crate::calls::{NoRoom, recorded};
use journal::Call;
use name_check::Line;
use name_remarks::{Misspelled, NameRemark, read_name_remark};
use ring_model::lock_seats::{GRANT_SEAT, LEAVE_SEAT, RELEASE_SEAT};
use saved_history::{SavedEvent, SavedSurvey};
use segment_files::is_remark;
use text_lines::fixed_word;

/// Why a line says nothing that there is.
#[derive(Clone, Copy)]
pub(crate) enum Unsaid {
    /// It begins as a remark about names, and is none.
    Misspelled,
    OutOfMemory,
}

/// Whether a line ends the blocks of the rings.
pub(crate) fn is_done(line: &[u8]) -> bool
    ensures { result ≡ is_done line.now }
{
    match line {
        [] => false,
        [b, ..] => *b == b'd',
    }
}

/// Whether a line begins as a remark about names.
pub(crate) fn is_named(line: &[u8]) -> bool
    ensures { result ≡ is_named line.now }
{
    fixed_word(line, b"# floor ").is_ok()
        || fixed_word(line, b"# name ").is_ok()
        || fixed_word(line, b"# free ").is_ok()
}

/// Whether a line begins the block of a ring.
pub(crate) fn is_block(line: &[u8]) -> bool
    ensures { result ≡ is_block line.now }
{
    fixed_word(line, b"ring ").is_ok()
}

/// Whether a line ends.
pub(crate) fn is_whole(line: &[u8]) -> bool
    ensures { result ≡ has_line_end line.now }
{
    line.contains(&b'\n')
}

/// A pass that is granted.
fn pass_says(ring: u32, seat: u32) -> Line<'static>
    ensures { entry_of result ≡ pass_says ring seat }
{
    if seat == GRANT_SEAT {
        Line::Grant(ring)
    } else {
        Line::Repair(ring)
    }
}

/// An event of a ring.
fn event_says(ring: u32, event: SavedEvent) -> Line<'static>
    ensures { entry_of result ≡ event_says ring event }
{
    match event {
        SavedEvent::Granted { seat, .. } => pass_says(ring, seat),
        SavedEvent::Member { seat, .. } => pass_says(ring, seat),
        SavedEvent::Refused { .. } => Line::Other,
        SavedEvent::Corrupted { .. } => Line::Other,
    }
}

/// A survey of a ring.
fn survey_says(ring: u32, survey: SavedSurvey) -> Line<'static>
    ensures { entry_of result ≡ survey_says ring survey }
{
    if survey.seat == RELEASE_SEAT || survey.seat == LEAVE_SEAT {
        Line::End(ring)
    } else {
        Line::Other
    }
}

/// A call of a ring.
fn call_says(ring: u32, call: Call) -> Line<'static>
    ensures { entry_of result ≡ call_says ring call }
{
    match call {
        Call::Event(event) => event_says(ring, event),
        Call::Survey(survey) => survey_says(ring, survey),
    }
}

/// The name of a remark, as a text.
fn text_of(name: &[u8]) -> &str
    requires { IsName name.now }
    ensures { result.now ≡ name.now }
{
    match str::from_utf8(name) {
        Ok(text) => text,
        // each byte of a name is one of ASCII
        Err(_) => unreachable!(),
    }
}

/// A remark about names.
fn named_says<'l>(line: &'l [u8], remark: NameRemark<'l>) -> Line<'l>
    requires { IsRemark (seen remark) line.now }
    ensures { entry_of result ≡ remark_says (seen remark.entry) }
{
    match remark {
        NameRemark::Bind {
            ring,
            before,
            floor,
            name,
        } => Line::Bind {
            ring,
            before,
            floor,
            name: text_of(name),
        },
        NameRemark::Free { ring } => Line::Free(ring),
        NameRemark::Top { grants } => Line::Top(grants),
    }
}

/// A remark.
fn remark_says(line: &[u8]) -> Result<Line<'_>, Unsaid>
    ensures { IsRemarkHeard line.now result }
{
    match read_name_remark(line) {
        Ok(Some(remark)) => Ok(named_says(line, remark)),
        Ok(None) => Ok(Line::Other),
        Err(Misspelled) => Err(Unsaid::Misspelled),
    }
}

/// A line after the blocks of the rings that is not a remark.
fn recorded_says(line: &[u8]) -> Result<Line<'_>, Unsaid>
    ensures { IsCallHeard line.now result }
{
    match recorded(line) {
        Ok(Some((recorded, _))) => Ok(call_says(recorded.ring, recorded.call)),
        Ok(None) => Err(Unsaid::Misspelled),
        Err(NoRoom) => Err(Unsaid::OutOfMemory),
    }
}

/// What a line says, by whether the blocks of the rings have ended.
pub(crate) fn line_says(line: &[u8], done: bool) -> Result<Line<'_>, Unsaid>
    ensures { IsHeard done line.now result }
{
    if is_remark(line) {
        return remark_says(line);
    }
    if !done {
        return Ok(Line::Other);
    }
    recorded_says(line)
}
