//! The refusals of `repairs`, and the line for each.

use std::error::Error;
use std::fmt;
use tool_parts::faults::ToolError;

/// Why `repairs` is refused. Its `Display` is the line on standard error.
#[derive(Clone, Copy)]
pub enum Refusal<'a> {
    /// As each command may be.
    Tool(ToolError<'a>),
    /// No trial of repairs is asked for.
    NoTrials,
    /// More trials are asked for than there may be.
    ManyTrials,
    /// The ring at this place has fewer machines than are to be hit by faults.
    ManyFaults(usize),
    /// The ring at this place has more states than are tried.
    ManyStates(usize),
    /// More than one trial of each state is asked for, which would all be the same.
    OneTrial,
    /// No thread is to do the trials.
    NoThreads,
    /// More threads are to do the trials than may.
    ManyThreads,
}

impl Refusal<'_> {
    ghost use Rattle.std.specs.Prelude.{◌≡◌};
    ghost use Rattle.repair_requests.specs.Refusals.{status_of};

    /// The program's exit status.
    pub fn status(&self) -> u8
        ensures { result ≡ status_of self.now }
    {
        match self {
            Refusal::Tool(fault) => fault.status(),
            _ => 1,
        }
    }
}

impl fmt::Display for Refusal<'_> {
    ghost use Rattle.std.specs.Prelude.{Some};
    ghost use Rattle.repair_requests.specs.Refusals.{line_of};

    ghost output = { λ e. Some (line_of e) };

    fn fmt<W: fmt::Write>(&self, f: &mut fmt::Formatter<W>) -> fmt::Result {
        match self {
            Refusal::Tool(fault) => fmt::Display::fmt(fault, f),
            Refusal::NoTrials => f.write_str("there are no trials"),
            Refusal::ManyTrials => f.write_str("there are more than 10000000000 trials"),
            Refusal::ManyFaults(place) => {
                write!(f, "ring {place}: there are more faults than machines")
            }
            Refusal::ManyStates(place) => {
                write!(f, "ring {place}: there are more than 100000000 states")
            }
            Refusal::OneTrial => {
                f.write_str("a daemon that draws nothing makes one trial of each state")
            }
            Refusal::NoThreads => f.write_str("there are no threads"),
            Refusal::ManyThreads => f.write_str("there are more than 64 threads"),
        }
    }
}

impl fmt::Debug for Refusal<'_> {
    fn fmt<W: fmt::Write>(&self, f: &mut fmt::Formatter<W>) -> fmt::Result {
        fmt::Display::fmt(self, f)
    }
}

impl Error for Refusal<'_> {}
