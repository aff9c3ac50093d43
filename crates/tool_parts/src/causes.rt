//! The words for the faults of the libraries, as a line has them.

ghost use Rattle.std.specs.Prelude.{◌≡◌, Some};
ghost use Rattle.line_service.specs.SegmentNumbers.{shown};
ghost use Rattle.tool_parts.specs.Causes.{cause_text, field_name, file_text, of_journal, entry_text};

use journal::RecoverError;
use line_service::EntryName;
use ring_settings::{Field, RingCause};
use segment_files::SegmentError;
use std::fmt;

/// Why a ring cannot begin.
#[derive(Clone, Copy)]
pub(crate) struct CauseText(pub(crate) RingCause);

impl fmt::Display for CauseText {
    ghost output = { λ text. Some (cause_text text.0) };

    fn fmt<W: fmt::Write>(&self, f: &mut fmt::Formatter<W>) -> fmt::Result {
        match self.0 {
            RingCause::TooFew => f.write_str("n is less than 2"),
            RingCause::TooMany => f.write_str("n is more than 1024"),
            RingCause::FewValues => f.write_str("k is less than n"),
            RingCause::ManyValues => f.write_str("k is more than 65536"),
            RingCause::Length => f.write_str("start does not have n values"),
            RingCause::Value(place) => write!(f, "start value {place} is not below k"),
        }
    }
}

/// A member of the settings, by its name.
#[derive(Clone, Copy)]
pub(crate) struct FieldName(pub(crate) Field);

impl fmt::Display for FieldName {
    ghost output = { λ name. Some (field_name name.0) };

    fn fmt<W: fmt::Write>(&self, f: &mut fmt::Formatter<W>) -> fmt::Result {
        f.write_str(match self.0 {
            Field::Top => "document",
            Field::Rings => "rings",
            Field::N => "n",
            Field::K => "k",
            Field::Start => "start",
            Field::Workers => "workers",
            Field::Injector => "injector",
            Field::Script => "script",
            Field::Seed => "seed",
            Field::Actions => "actions",
        })
    }
}

/// What is wrong with a journal's file.
#[derive(Clone, Copy)]
pub(crate) struct FileText(pub(crate) SegmentError);

impl fmt::Display for FileText {
    ghost output = { λ text. Some (file_text text.0) };

    fn fmt<W: fmt::Write>(&self, f: &mut fmt::Formatter<W>) -> fmt::Result {
        match self.0 {
            SegmentError::Truncated => f.write_str("truncated"),
            SegmentError::Syntax(line) => write!(f, "line {line}: syntax"),
            SegmentError::Bad { line, kind } => write!(f, "line {line}: {kind}"),
            SegmentError::Number => f.write_str("number"),
            SegmentError::Behind => f.write_str("behind"),
            SegmentError::Base => f.write_str("base"),
            SegmentError::Start => f.write_str("start"),
            SegmentError::Full => f.write_str("full"),
            SegmentError::Unfinished => f.write_str("unfinished"),
            SegmentError::OutOfMemory => f.write_str("out of memory"),
        }
    }
}

/// The same fault of a segment's file.
pub(crate) fn of_journal(error: RecoverError) -> SegmentError
    ensures { result ≡ of_journal error }
{
    match error {
        RecoverError::Truncated => SegmentError::Truncated,
        RecoverError::Syntax(line) => SegmentError::Syntax(line),
        RecoverError::Bad { line, kind } => SegmentError::Bad { line, kind },
        RecoverError::OutOfMemory => SegmentError::OutOfMemory,
    }
}

/// The bytes of a name in a folder that are shown.
fn shown_bytes(name: &EntryName) -> &[u8]
    ensures { result.now ≡ shown name.now }
{
    match name.bytes.get(..name.length) {
        Some(shown) => shown,
        None => name.bytes.as_slice(),
    }
}

/// A name in a folder, as far as it is shown.
pub(crate) fn entry_text(name: &EntryName) -> &str
    ensures { result.now ≡ entry_text name.now }
{
    match str::from_utf8(shown_bytes(name)) {
        Ok(text) => text,
        // (a name that was cut within a character)
        Err(_) => "a name that is too long",
    }
}
