//! The refusals of settings that are read strictly, and the line for each.

use std::error::Error;
use std::fmt;
use tool_parts::faults::ToolError;
use tool_parts::one_line::OneLine;

/// Why settings are refused that are read strictly. Its `Display` is the line on standard error.
#[derive(Drop)]
pub enum StrictRefusal<'a> {
    /// As other settings may be.
    Tool(ToolError<'a>),
    /// Nothing reads the member of this name.
    Unread(String),
}

impl StrictRefusal<'_> {
    ghost use Rattle.std.specs.Prelude.{◌≡◌, ◌≤◌};
    ghost use Rattle.strict_settings.specs.Refusals.{status_of};

    /// The program's exit status.
    pub fn status(&self) -> u8
        ensures is { result ≡ status_of self.now }
        ensures most { result ≤ 2 }
    {
        match self {
            StrictRefusal::Tool(fault) => fault.status(),
            StrictRefusal::Unread(_) => 1,
        }
    }
}

impl fmt::Display for StrictRefusal<'_> {
    ghost use Rattle.std.specs.Prelude.{Some};
    ghost use Rattle.strict_settings.specs.Refusals.{line_of};

    ghost output = { λ e. Some (line_of e) };

    fn fmt<W: fmt::Write>(&self, f: &mut fmt::Formatter<W>) -> fmt::Result {
        match self {
            StrictRefusal::Tool(fault) => fmt::Display::fmt(fault, f),
            StrictRefusal::Unread(name) => {
                write!(f, "settings: nothing reads \"{}\"", OneLine(name.as_str()))
            }
        }
    }
}

impl fmt::Debug for StrictRefusal<'_> {
    fn fmt<W: fmt::Write>(&self, f: &mut fmt::Formatter<W>) -> fmt::Result {
        fmt::Display::fmt(self, f)
    }
}

impl Error for StrictRefusal<'_> {}
