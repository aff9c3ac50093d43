use std::fmt::{Debug, Display, Error as FmtError, Formatter, Write};
use thiserror::Error;

/// A member of a settings document, or the document itself.
#[derive(Clone, Copy, Drop, PartialEq, Eq)]
pub enum Field {
    Top,
    Rings,
    N,
    K,
    Start,
    Workers,
    Injector,
    Script,
    Seed,
    Actions,
}

impl Field {
    /// The member's name in a document; `document` for the whole.
    fn name(self) -> &'static str {
        match self {
            Field::Top => "document",
            Field::Rings => "rings",
            Field::N => "n",
            Field::K => "k",
            Field::Start => "start",
            Field::Workers => "workers",
            Field::Injector => "injector",
            Field::Script => "script",
            Field::Seed => "seed",
            Field::Actions => "actions",
        }
    }
}

impl Display for Field {
    fn fmt<W: Write>(&self, f: &mut Formatter<W>) -> Result<(), FmtError> {
        f.write_str(self.name())
    }
}

impl Debug for Field {
    fn fmt<W: Write>(&self, f: &mut Formatter<W>) -> Result<(), FmtError> {
        Display::fmt(self, f)
    }
}

/// Why a ring of the settings is refused.
#[derive(Clone, Copy, Drop, Error, PartialEq, Eq)]
pub enum RingCause {
    #[error("n is less than 2")]
    TooFew,
    #[error("n is more than 1024")]
    TooMany,
    #[error("k is less than n")]
    FewValues,
    #[error("k is more than 65536")]
    ManyValues,
    #[error("start does not have n values")]
    Length,
    /// The first value of `start` that is not below k, by its place.
    #[error("start value {0} is not below k")]
    Value(usize),
}

impl Debug for RingCause {
    fn fmt<W: Write>(&self, f: &mut Formatter<W>) -> Result<(), FmtError> {
        Display::fmt(self, f)
    }
}

/// Why settings are refused: the first fault of the walk over the document.
#[derive(Clone, Copy, Drop, Error, PartialEq, Eq)]
pub enum SettingsError {
    #[error("settings are not JSON")]
    Json,
    #[error("settings: {0} is missing or has the wrong shape")]
    Shape(Field),
    #[error("settings: {0} is out of limits")]
    Limit(Field),
    /// A ring, by its place, and its fault.
    #[error("ring {0}: {1}")]
    Ring(usize, RingCause),
    /// A seat, and the place in its script of the first entry that is not an action.
    #[error("seat {0}, action {1}: not an action")]
    Script(usize, usize),
    #[error("out of memory")]
    OutOfMemory,
}

impl Debug for SettingsError {
    fn fmt<W: Write>(&self, f: &mut Formatter<W>) -> Result<(), FmtError> {
        Display::fmt(self, f)
    }
}
