//! How much may be tried.

ghost use Rattle.std.specs.Prelude.{◌≡◌};
ghost use Rattle.ring_repairs.specs.Limits.{trial_limit, state_limit};

/// The most trials of a study.
pub const TRIAL_LIMIT: u64 = 10_000_000_000;

/// The most states that are gone through.
pub const STATE_LIMIT: u64 = 100_000_000;

/// The limits are those of the definitions.
pub fn limits_as_defined()
    ensures trials { TRIAL_LIMIT ≡ trial_limit }
    ensures states { STATE_LIMIT ≡ state_limit }
{}
