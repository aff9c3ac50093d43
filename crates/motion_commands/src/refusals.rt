//! The refusals of `picture --animate`, and the line for each.

use std::error::Error;
use std::fmt;
use tool_parts::faults::ToolError;

/// Why `picture --animate` is refused. Its `Display` is the line on standard error.
#[derive(Clone, Copy)]
pub enum Refusal<'a> {
    /// As each command may be.
    Tool(ToolError<'a>),
    /// The ring at this place has more machines than are drawn on a circle.
    ManyMachines(u32),
}

impl Refusal<'_> {
    ghost use Rattle.std.specs.Prelude.{◌≡◌};
    ghost use Rattle.motion_commands.specs.Refusals.{status_of};

    /// The program's exit status.
    pub fn status(&self) -> u8
        ensures { result ≡ status_of self.now }
    {
        match self {
            Refusal::Tool(fault) => fault.status(),
            Refusal::ManyMachines(_) => 1,
        }
    }
}

impl fmt::Display for Refusal<'_> {
    ghost use Rattle.std.specs.Prelude.{Some};
    ghost use Rattle.motion_commands.specs.Refusals.{line_of};

    ghost output = { λ e. Some (line_of e) };

    fn fmt<W: fmt::Write>(&self, f: &mut fmt::Formatter<W>) -> fmt::Result {
        match self {
            Refusal::Tool(fault) => fmt::Display::fmt(fault, f),
            Refusal::ManyMachines(place) => {
                write!(
                    f,
                    "ring {place}: a picture in motion has at most 32 machines"
                )
            }
        }
    }
}

impl fmt::Debug for Refusal<'_> {
    fn fmt<W: fmt::Write>(&self, f: &mut fmt::Formatter<W>) -> fmt::Result {
        fmt::Display::fmt(self, f)
    }
}

impl Error for Refusal<'_> {}
