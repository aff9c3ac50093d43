//! The code of each refusal of a ring and of a saved text, for other languages, and those that need no refusal of a library below.

ghost use Rattle.std.specs.Prelude.{◌≡◌};
ghost use Rattle.c_calls.specs.Codes;

use one_thread_ring::{CallError, OpenError, ResumeError};
use ring_check::Kind;
use ring_state::ParamsError;
use text_lines::ReadError;

/// Out of memory, whoever asks for it.
pub const NO_MEMORY: u32 = 23;

/// A call of what is closed.
pub const CLOSED: u32 = 24;

/// Opening what is open.
pub const STILL_OPEN: u32 = 37;

/// No seats are asked for, or too many.
pub const BAD_SEATS: u32 = 32;

/// A saved ring names a seat that there is not.
pub const NO_SEAT: u32 = 16;

/// A saved ring has more events than a history may have.
pub const HISTORY_FULL: u32 = 22;

/// A saved text has no ring at this place.
pub const NO_RING: u32 = 50;

/// A ring is over no till.
pub const NO_TILL: u32 = 80;

/// A file is not of one ring.
pub const MANY_RINGS: u32 = 53;

/// A buffer is too small.
pub const TOO_SMALL: u32 = 81;

/// A history has no event of this number.
pub const NO_EVENT: u32 = 82;

/// Locks are asked for that there may not be, or machines.
pub const BAD_LOCKS: u32 = 38;

pub const BAD_MACHINES: u32 = 33;

/// There is no further grant.
pub const NO_MORE: u32 = 3;

/// Some grants were not handed out.
pub const GRANTS_LEFT: u32 = 102;

/// The reason why a text of a ring is missing.
#[derive(Clone, Copy, Drop)]
pub enum TextError {
    /// The ring is not over a till, and texts are of tills.
    NoTill,
    /// No journal is kept of the ring.
    NoJournal,
    OutOfMemory,
}

/// Of a call.
pub fn call_code(error: CallError) -> u32
    ensures { result ≡ Codes.call_code error }
{
    match error {
        CallError::NoSeat => NO_SEAT,
        CallError::NoMachine => 17,
        CallError::NoValue => 18,
        CallError::NotRising => 19,
        CallError::WholeRing => 20,
        CallError::NotPrivileged(_) => 21,
        CallError::HistoryFull => HISTORY_FULL,
        CallError::OutOfMemory => NO_MEMORY,
    }
}

/// Of a size.
fn size_code(error: ParamsError) -> u32
    ensures { result ≡ Codes.size_code error }
{
    match error {
        ParamsError::TooFew => 33,
        ParamsError::TooMany => 33,
        ParamsError::FewValues => 34,
        ParamsError::ManyValues => 34,
    }
}

/// Of numbers from which no ring is opened.
pub fn open_code(error: OpenError) -> u32
    ensures { result ≡ Codes.open_code error }
{
    match error {
        OpenError::Seats => BAD_SEATS,
        OpenError::Size(error) => size_code(error),
        OpenError::Length => 35,
        OpenError::Value(_) => 36,
        OpenError::OutOfMemory => NO_MEMORY,
    }
}

/// Of bytes that are not a saved text.
pub fn read_code(error: ReadError) -> u32
    ensures { result ≡ Codes.read_code error }
{
    match error {
        ReadError::Syntax(_) => 48,
        ReadError::Truncated => 49,
        ReadError::OutOfMemory => NO_MEMORY,
    }
}

/// Of a saved ring that is not resumed.
pub fn resume_code(error: ResumeError) -> u32
    ensures { result ≡ Codes.resume_code error }
{
    match error {
        ResumeError::Open(error) => open_code(error),
        ResumeError::Call(error) => call_code(error),
        ResumeError::Differs => 51,
        ResumeError::OutOfMemory => NO_MEMORY,
    }
}

/// Of a text that is not legal.
pub fn kind_code(kind: Kind) -> u32
    ensures { result ≡ Codes.kind_code kind }
{
    match kind {
        Kind::Parameter => 64,
        Kind::Range => 65,
        Kind::Reply => 66,
        Kind::Count => 67,
        Kind::Survey => 68,
        Kind::Group => 69,
    }
}

/// Of a ring that has no such text.
pub fn text_code(error: TextError) -> u32
    ensures { result ≡ Codes.text_code error }
{
    match error {
        TextError::NoTill => NO_TILL,
        TextError::NoJournal => 83,
        TextError::OutOfMemory => NO_MEMORY,
    }
}
