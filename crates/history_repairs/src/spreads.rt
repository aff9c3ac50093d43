//! What repairs took: the least, the median and the greatest number of passes.

ghost use Rattle.std.specs.Prelude.{◌≡◌, IfOk};
ghost use Rattle.history_repairs.specs.Lines.{passes_of, most_privileged, spread_if};

use crate::repairs::Repair;
use std::alloc::{AllocError, Global};

/// What some repairs took.
#[derive(Clone, Copy, Debug, PartialEq, Eq)]
pub struct Spread {
    /// The least number of granted passes.
    pub least: u64,
    /// The least number that at least half of them do not exceed.
    pub median: u64,
    /// The greatest number.
    pub greatest: u64,
    /// The greatest number of machines that a fault left privileged.
    pub privileged: u64,
}

/// The passes of each repair.
fn passes_of(alloc: Global, repairs: &[Repair]) -> Result<Vec<u64>, AllocError>
    ensures { IfOk result (λ passes. passes.items ≡ passes_of repairs.now) }
{
    repairs.iter().map(|repair| repair.passes).collect(alloc)
}

/// The greatest number of machines that a fault left privileged.
fn most_privileged(repairs: &[Repair]) -> u64
    ensures { result ≡ most_privileged repairs.now }
{
    let mut most = 0;
    for repair in repairs {
        most = most.max(repair.privileged);
    }
    most
}

/// Returns what some repairs took, if there are any.
///
/// # Errors
///
/// If there is no room for the passes of each.
pub fn spread_over(alloc: Global, repairs: &[Repair]) -> Result<Option<Spread>, AllocError>
    ensures { IfOk result (λ found. found ≡ spread_if repairs.now) }
{
    if repairs.is_empty() {
        return Ok(None);
    }
    let mut passes = passes_of(alloc, repairs)?;
    passes.sort()?;
    let last = passes.len() - 1;
    Ok(Some(Spread {
        least: passes[0],
        median: passes[last / 2],
        greatest: passes[last],
        privileged: most_privileged(repairs),
    }))
}
