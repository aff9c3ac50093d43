//! A name's open hold is handed to another client, after a start.

ghost use Rattle.std.specs.Prelude.{◌≡◌, true, false};
ghost use Rattle.lock_names.specs.Kept.{seen, IsKeptNamed};
ghost use Rattle.lock_names.specs.Handed.{IsHandedByName, CannotBeHandedByName};

use crate::asks::{Rings, own_number};
use crate::table::Table;
use held_locks::Handover;

/// Hands a name's open hold with this token to a client, if client 0 has it and no client waits for the name.
pub(crate) fn hand_among(
    rings: &mut Rings,
    table: &Table,
    name: &str,
    token: u64,
    client: u64,
) -> bool
    requires { IsKeptNamed (seen rings.old table.now) }
    ensures yes { result ≡ true → IsHandedByName (seen rings.old table.now)
        (seen rings.new table.now) name.now token client }
    ensures no { result ≡ false → CannotBeHandedByName (seen rings.old table.now) name.now token
        × (rings.new ≡ rings.old) }
    ensures kept { IsKeptNamed (seen rings.new table.now) }
{
    let Some(ring) = table.find(name) else {
        return false;
    };
    let counts = table.counts(ring);
    let own = own_number(counts, token, rings.locks.holder(ring));
    let handed = rings.locks.hand(Handover {
        lock: ring,
        token: own,
        client,
    });
    rings.locks.are_kept(); // says: they are right
    handed
}
