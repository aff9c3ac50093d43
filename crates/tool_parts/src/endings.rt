//! How a command ends: its status, and the line of its fault.

ghost use Rattle.std.specs.Prelude.{◌≡◌};
ghost use Rattle.tool_parts.specs.Faults.{status_of};

use crate::faults::ToolError;
use std::io::Write;

/// Prints the fault's line, and answers its status. A fault of `err` itself changes nothing.
pub fn tell<E: Write>(fault: &ToolError<'_>, err: &mut E) -> u8
    ensures { result ≡ status_of fault.now }
{
    let _ = writeln!(err, "{fault}");
    fault.status()
}
