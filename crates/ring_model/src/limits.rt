//! How large rings and histories may be. The crates above cite these names, and no number occurs twice.

ghost use Rattle.std.specs.Prelude.{◌≡◌};
ghost use Rattle.ring_model.specs.Limits.{machine_limit, value_limit, event_limit, seat_limit};

/// The most machines of a ring.
pub const MACHINE_LIMIT: u32 = 1_024;

/// The most values that a machine can have.
pub const VALUE_LIMIT: u32 = 65_536;

/// The most events of a history.
pub const EVENT_LIMIT: usize = 4_000_000;

/// The most seats of a ring, whose numbers are below it.
pub const SEAT_LIMIT: usize = 10;

/// The limits are those of the definitions.
pub fn limits_as_defined()
    ensures machines { MACHINE_LIMIT ≡ machine_limit }
    ensures values { VALUE_LIMIT ≡ value_limit }
    ensures events { EVENT_LIMIT ≡ event_limit }
    ensures seats { SEAT_LIMIT ≡ seat_limit }
{}
