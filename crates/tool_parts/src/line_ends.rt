//! The ends of some lines that have several values, each from a value on: so the text of a line is proved in short formats.

ghost use Rattle.std.specs.Prelude.{Some, ◌++◌, codes};
ghost use Rattle.std.specs.Fmt.{decimal};
ghost use Rattle.tool_parts.specs.OneLine.{one_line};

use crate::one_line::OneLine;
use std::fmt;

/// An entry of a script that is not an action, by its place.
#[derive(Clone, Copy)]
pub(crate) struct NotAnAction(pub(crate) usize);

impl fmt::Display for NotAnAction {
    ghost output = { λ end. Some (codes "action " ++ decimal end.0 ++ codes ": not an action") };

    fn fmt<W: fmt::Write>(&self, f: &mut fmt::Formatter<W>) -> fmt::Result {
        write!(f, "action {}: not an action", self.0)
    }
}

/// A line, by its number, that is not that of an open hold.
#[derive(Clone, Copy)]
pub(crate) struct NoOpenHold(pub(crate) u64);

impl fmt::Display for NoOpenHold {
    ghost output = { λ end. Some (decimal end.0 ++ codes ": no open hold") };

    fn fmt<W: fmt::Write>(&self, f: &mut fmt::Formatter<W>) -> fmt::Result {
        write!(f, "{}: no open hold", self.0)
    }
}

/// The number of a lock, and after how many events its history is not that of a lock.
#[derive(Clone, Copy)]
pub(crate) struct NoHold(pub(crate) u64, pub(crate) u64);

impl fmt::Display for NoHold {
    ghost output = { λ end.
        Some (decimal end.0 ++ codes ": not the history of a lock at " ++ decimal end.1) };

    fn fmt<W: fmt::Write>(&self, f: &mut fmt::Formatter<W>) -> fmt::Result {
        write!(f, "{}: not the history of a lock at {}", self.0, self.1)
    }
}

/// A folder whose file of locks has another lock.
#[derive(Clone, Copy)]
pub(crate) struct OtherLock<'a>(pub(crate) &'a str);

impl fmt::Display for OtherLock<'_> {
    ghost output = { λ end. Some (one_line end.0.now ++ codes "/locks is another one") };

    fn fmt<W: fmt::Write>(&self, f: &mut fmt::Formatter<W>) -> fmt::Result {
        write!(f, "{}/locks is another one", OneLine(self.0))
    }
}
