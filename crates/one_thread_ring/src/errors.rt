//! Why a call is refused.

use ring_book::{BookError, GroupError};
use ring_state::{ParamsError, StateError};
use std::alloc::{AllocError, AllocFailed};

/// Why a ring is not opened.
#[derive(Clone, Copy, Drop, PartialEq, Eq)]
pub enum OpenError {
    /// No ring may have this size.
    Size(ParamsError),
    /// The start has another number of values than machines.
    Length,
    /// The index of the first start value that is not below K.
    Value(usize),
    /// No seats are asked for, or more than `SEAT_LIMIT`.
    Seats,
    OutOfMemory,
}

/// Why a call is refused. Nothing has changed then.
#[derive(Clone, Copy, Drop, PartialEq, Eq)]
pub enum CallError {
    /// The ring has no seat of this number.
    NoSeat,
    /// The ring has no machine of this number.
    NoMachine,
    /// The value is not below K.
    NoValue,
    /// The machines of a group do not rise, or there are none.
    NotRising,
    /// The group is the whole ring.
    WholeRing,
    /// The least machine of the group that is not privileged.
    NotPrivileged(u32),
    HistoryFull,
    OutOfMemory,
}

impl From<BookError> for CallError {
    ghost use Rattle.std.specs.Prelude.{◌≡◌};
    ghost use Rattle.one_thread_ring.specs.Rings.{refusal_of};

    ghost from_gives = { λ b e. e ≡ refusal_of b };

    fn from(error: BookError) -> CallError {
        match error {
            BookError::HistoryFull => CallError::HistoryFull,
            BookError::OutOfMemory => CallError::OutOfMemory,
        }
    }
}

impl From<GroupError> for CallError {
    ghost use Rattle.std.specs.Prelude.{◌≡◌};
    ghost use Rattle.one_thread_ring.specs.Rings.{group_refusal_of};

    ghost from_gives = { λ b e. e ≡ group_refusal_of b };

    fn from(error: GroupError) -> CallError {
        match error {
            GroupError::WholeRing => CallError::WholeRing,
            GroupError::NotPrivileged(machine) => CallError::NotPrivileged(machine),
            GroupError::HistoryFull => CallError::HistoryFull,
            GroupError::OutOfMemory => CallError::OutOfMemory,
        }
    }
}

impl From<AllocError> for CallError {
    ghost use Rattle.std.specs.Prelude.{◌≡◌};
    ghost use Rattle.one_thread_ring.specs.declared.errors.CallError.TheVariants as call;

    ghost from_gives = { λ b e. e ≡ call.OutOfMemory };

    fn from(_error: AllocError) -> CallError {
        CallError::OutOfMemory
    }
}

impl From<AllocError> for OpenError {
    ghost use Rattle.std.specs.Prelude.{◌≡◌};
    ghost use Rattle.one_thread_ring.specs.declared.errors.OpenError.TheVariants as opens;

    ghost from_gives = { λ b e. e ≡ opens.OutOfMemory };

    fn from(_error: AllocError) -> OpenError {
        OpenError::OutOfMemory
    }
}

impl<T: Drop> From<AllocFailed<T>> for OpenError {
    ghost use Rattle.std.specs.Prelude.{◌≡◌};
    ghost use Rattle.one_thread_ring.specs.declared.errors.OpenError.TheVariants as opens;

    ghost from_gives = { λ b e. e ≡ opens.OutOfMemory };

    fn from(_error: AllocFailed<T>) -> OpenError {
        OpenError::OutOfMemory
    }
}

impl From<ParamsError> for OpenError {
    ghost use Rattle.std.specs.Prelude.{◌≡◌};
    ghost use Rattle.one_thread_ring.specs.declared.errors.OpenError.TheVariants as opens;

    ghost from_gives = { λ b e. e ≡ opens.Size b };

    fn from(error: ParamsError) -> OpenError {
        OpenError::Size(error)
    }
}

impl From<StateError> for OpenError {
    ghost use Rattle.std.specs.Prelude.{◌≡◌};
    ghost use Rattle.one_thread_ring.specs.Rings.{open_refusal_of};

    ghost from_gives = { λ b e. e ≡ open_refusal_of b };

    fn from(error: StateError) -> OpenError {
        match error {
            StateError::Length => OpenError::Length,
            StateError::Value(index) => OpenError::Value(index),
            StateError::OutOfMemory => OpenError::OutOfMemory,
        }
    }
}
