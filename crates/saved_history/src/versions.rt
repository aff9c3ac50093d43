//! The versions of the saved text.

ghost use Rattle.std.specs.Prelude.{◌≡◌};
ghost use Rattle.saved_history.specs.Versions.{first_version, latest_version};
ghost use Rattle.saved_history.specs.Content.{content, upgraded};
ghost use Rattle.saved_history.specs.Meaning.{FirstHasNoMembers};

use crate::saved::Saved;

/// The first version.
pub const FIRST_VERSION: u32 = 1;

/// The version in which a farm's outcome is written, and that an upgrade gives.
pub const LATEST_VERSION: u32 = 2;

/// The versions are those of the definitions.
pub fn versions_as_defined()
    ensures first { FIRST_VERSION ≡ first_version }
    ensures latest { LATEST_VERSION ≡ latest_version }
{}

/// The same value in the latest version of the text: nothing else changes. It takes no memory.
pub fn upgrade(saved: Saved) -> Saved
    ensures { content result ≡ upgraded (content saved) }
{
    Saved {
        version: LATEST_VERSION,
        ..saved
    }
}

/// A value of the first version that fits has no member of a group: [`write_saved`](crate::write_saved) can write
/// each value that was read.
pub fn first_version_has_no_members()
    ensures { FirstHasNoMembers }
{}
