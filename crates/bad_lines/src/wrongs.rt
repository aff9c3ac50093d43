//! What a bad line has, and what it should have.

ghost use Rattle.std.specs.Prelude.{◌≡◌, ◌+◌, ◌<◌, ◌^◌, ◌++◌, OnOk};
ghost use Rattle.bad_lines.specs.BadLines.{told};

use ring_check::Kind;
use ring_model::{Reply, Survey};
use std::alloc::AllocError;

/// What is there in a bad line, and what should be.
#[derive(Clone, Copy)]
pub enum Wrong {
    /// The numbers of machines and of values, and the most of each.
    Size {
        n: u32,
        k: u32,
        machines: u32,
        values: u32,
    },
    /// A number that should be another one.
    Number {
        there: u64,
        should: u64,
    },
    /// A number that should be below a limit.
    Limit {
        there: u64,
        limit: u64,
    },
    /// A reply that should be another one.
    Replied {
        there: Reply,
        should: Reply,
    },
    /// No member of the open group, which should have this number of members left.
    Unfinished {
        left: u32,
    },
    /// The machines of a group are not in the order of the moves.
    Disordered,
    /// A survey of a seat and a position, which should be this one's or come after it.
    Early {
        seat: u32,
        position: u64,
        last_seat: u32,
        last: u64,
    },
    /// A survey at a position inside a group.
    Inside {
        position: u64,
    },
    /// A survey that should be another one.
    Surveyed {
        there: Survey,
        should: Survey,
    },
}

/// The fault of a line, with what is there and what should be.
#[derive(Clone, Copy)]
pub struct Bad {
    pub kind: Kind,
    pub wrong: Wrong,
}

/// A bad line: its number, from 1, and its fault.
#[derive(Clone, Copy)]
pub struct BadLine {
    pub line: u64,
    pub bad: Bad,
}

/// Adds the line after the first `line` ones to the bad lines, if it is one.
pub(crate) fn tell(out: &mut Vec<BadLine>, line: u64, bad: Option<Bad>) -> Result<(), AllocError>
    requires { line + 1 < 2 ^ 64 }
    ensures { OnOk result (out.new.items ≡ out.old.items ++ told line bad) }
{
    if let Some(bad) = bad {
        out.push(BadLine {
            line: line + 1,
            bad,
        })?;
    }
    Ok(())
}
