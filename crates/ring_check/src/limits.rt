//! How large the rings of a text may be, by the version of the text.

ghost use Rattle.std.specs.Prelude.{◌≡◌};
ghost use Rattle.ring_check.specs.Limits.{first_version_machine_limit, first_version_value_limit, machine_limit_of, value_limit_of};
ghost use Rattle.ring_check.specs.Table.{are_parameters};

use ring_model::limits::{MACHINE_LIMIT, VALUE_LIMIT};
use saved_history::FIRST_VERSION;

/// The most machines of a ring in a text of the first version.
pub const FIRST_VERSION_MACHINE_LIMIT: u32 = 256;

/// The most values of a ring in a text of the first version.
pub const FIRST_VERSION_VALUE_LIMIT: u32 = 256;

/// The limits are those of the definitions.
pub fn first_version_limits_as_defined()
    ensures machines { FIRST_VERSION_MACHINE_LIMIT ≡ first_version_machine_limit }
    ensures values { FIRST_VERSION_VALUE_LIMIT ≡ first_version_value_limit }
{}

/// The most machines of a ring in a text of this version.
pub fn machine_limit_of(version: u32) -> u32
    ensures { result ≡ machine_limit_of version }
{
    if version == FIRST_VERSION {
        FIRST_VERSION_MACHINE_LIMIT
    } else {
        MACHINE_LIMIT
    }
}

/// The most values.
pub fn value_limit_of(version: u32) -> u32
    ensures { result ≡ value_limit_of version }
{
    if version == FIRST_VERSION {
        FIRST_VERSION_VALUE_LIMIT
    } else {
        VALUE_LIMIT
    }
}

/// Whether a ring in a text of this version may have n machines and K values.
pub fn are_parameters(version: u32, n: u32, k: u32) -> bool
    ensures { result ≡ are_parameters version n k }
{
    2 <= n && n <= machine_limit_of(version) && n <= k && k <= value_limit_of(version)
}
