//! How trials are split among threads.
ghost use Rattle.std.specs.Prelude.{◌≡◌, ◌<◌, ◌≤◌};
ghost use Rattle.ring_repairs.specs.Limits.{trial_limit};
ghost use Rattle.repair_threads.specs.Shares.{thread_limit, before};

/// How many of the trials come before the part at a place.
pub(crate) fn before(trials: u64, parts: u32, place: u32) -> u64
    requires trials { trials ≤ trial_limit }
    requires some { 0 < parts }
    requires place { place ≤ parts }
    requires parts { parts ≤ thread_limit }
    ensures is { result ≡ before trials parts place }
    ensures most { result ≤ trials }
{
    place as u64 * trials / parts as u64
}
