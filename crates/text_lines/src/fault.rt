//! Why a reader stopped.

ghost use Rattle.std.specs.Prelude.{◌≡◌};
ghost use Rattle.text_lines.specs.declared.fault.Stop.TheVariants.{Memory};

use std::alloc::{AllocError, AllocFailed};

/// The first fault of the bytes: they end too early, or there is a first byte too many.
#[derive(Clone, Copy)]
pub enum Fault {
    /// The bytes end within a spelling.
    Short,
    /// No spelling continues with a certain byte: the number is that of the bytes from it to the end,
    /// itself among them.
    Bad(usize),
}

/// Why a reader has no value.
#[derive(Clone, Copy)]
pub enum Stop {
    /// There was no room for the value.
    Memory,
    /// The bytes are at fault.
    Fault(Fault),
}

impl From<AllocError> for Stop {
    ghost from_gives = { λ _ e. e ≡ Memory };

    fn from(_error: AllocError) -> Stop {
        Stop::Memory
    }
}

impl<T: Drop> From<AllocFailed<T>> for Stop {
    ghost from_gives = { λ _ e. e ≡ Memory };

    fn from(_error: AllocFailed<T>) -> Stop {
        Stop::Memory
    }
}
