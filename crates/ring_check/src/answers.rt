//! The answers of the checker.

ghost use Rattle.std.specs.Prelude.{Some};
ghost use Rattle.ring_check.specs.Names.{kind_name};

use std::fmt;
use thiserror::Error;

/// The fault of a line. If a line has two, the one that comes first here is answered.
#[derive(Clone, Copy, Debug, PartialEq, Eq)]
pub enum Kind {
    /// No ring exists with these numbers of machines and values.
    Parameter,
    /// A seat, a machine or a value is too large.
    Range,
    /// The reply is not the one-thread ring's at this point.
    Reply,
    /// A count of the text, or the place of a ring in it, is wrong.
    Count,
    /// The survey is not the ring's at its place, has no place or one inside a block, or is earlier than the one
    /// before it.
    Survey,
    /// The members of a group are too many, do not follow one another, or do not move in the order of a block.
    Group,
}

impl fmt::Display for Kind {
    ghost output = { λ k. Some (kind_name k) };

    fn fmt<W: fmt::Write>(&self, f: &mut fmt::Formatter<W>) -> fmt::Result {
        f.write_str(match self {
            Kind::Parameter => "parameter",
            Kind::Range => "range",
            Kind::Reply => "reply",
            Kind::Count => "count",
            Kind::Survey => "survey",
            Kind::Group => "group",
        })
    }
}

/// The sums of a legal text over all its rings.
#[derive(Clone, Copy, Debug, PartialEq, Eq)]
pub struct Summary {
    pub rings: u32,
    pub events: u64,
    /// The passes that were granted.
    pub granted: u64,
    pub corrupted: u64,
    pub surveys: u64,
}

/// Why a text is not legal, or could not be checked.
#[derive(Clone, Copy, Debug, PartialEq, Eq, Error)]
pub enum CheckError {
    /// The first bad line, counted from 1, and its fault.
    #[error("line {line}: {kind}")]
    Bad { line: u64, kind: Kind },
    #[error("out of memory")]
    OutOfMemory,
}
