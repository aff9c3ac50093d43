//! How much the settings of a farm may ask for.

ghost use Rattle.std.specs.Prelude.{◌≡◌};
ghost use Rattle.ring_settings.specs.Limits.{ring_limit, worker_limit, action_limit};

use ring_model::limits::SEAT_LIMIT;

/// The most rings of a farm.
pub const RING_LIMIT: usize = 16;

/// The most workers: the last seat is the injector's.
pub const WORKER_LIMIT: usize = SEAT_LIMIT - 1;

/// The most actions of a seat.
pub const ACTION_LIMIT: u32 = 1_000_000;

/// The limits are those of the definitions.
pub fn limits_as_defined()
    ensures rings { RING_LIMIT ≡ ring_limit }
    ensures workers { WORKER_LIMIT ≡ worker_limit }
    ensures actions { ACTION_LIMIT ≡ action_limit }
{}
