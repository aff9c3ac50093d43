//! The refusals of a farm.

ghost use Rattle.std.specs.Prelude.{◌≡◌, None};
ghost use Rattle.ring_farm.specs.Refusals.{first_of};

use thiserror::Error;

/// Why a farm was refused. Nothing of a refused run is kept.
#[derive(Clone, Copy, Debug, Drop, Error, PartialEq, Eq)]
pub enum FarmError {
    /// A plan's thread could not be started.
    #[error("a thread could not be started")]
    Spawn,
    /// The gate did not let a worker on.
    #[error("the gate was shut")]
    GateShut,
    /// No place is left for a seat to look at its ring from.
    #[error("no reader place")]
    NoSeat,
    /// A ring's history has as many events as it may have.
    #[error("a history is full")]
    HistoryFull,
    /// A seat's log does not fit its ring's history.
    #[error("logs and history differ")]
    Mismatch,
    #[error("out of memory")]
    OutOfMemory,
}

/// The refusal when memory runs out.
pub(crate) fn out_of_memory() -> FarmError
    ensures { result ≡ FarmError.OutOfMemory }
{
    FarmError::OutOfMemory
}

/// The first of two faults.
pub(crate) fn first_fault(fault: Option<FarmError>, found: Option<FarmError>) -> Option<FarmError>
    ensures is { result ≡ first_of fault found }
    ensures none { result ≡ None → (fault ≡ None) × (found ≡ None) }
{
    match fault {
        Some(fault) => Some(fault),
        None => found,
    }
}
