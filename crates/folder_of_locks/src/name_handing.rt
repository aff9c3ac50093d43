//! Hands open holds of names over, one after the other.

ghost use Rattle.std.specs.Prelude.{◌≡◌, true, false, map, OnOk, IfErr};
ghost use Rattle.lock_names.specs.Handed.{IsHandedByName};
ghost use Rattle.folder_of_locks.specs.Holders.{hold_of};
ghost use Rattle.folder_of_locks.specs.NameHolders.{CannotHandName, AreHandedByName, IsNameNotHanded};

use crate::holder_reading::NamedHold;
use lock_names::Names;

/// Hands an open hold to its client, if the ring of its name has it.
fn hand(names: &mut Names, hold: &NamedHold) -> bool
    ensures yes { result ≡ true
        → IsHandedByName names.old names.new hold.now.name.items hold.now.token hold.now.client }
    ensures no { result ≡ false → CannotHandName names.old (hold_of hold.now) }
{
    match str::from_utf8(&hold.name) {
        Ok(name) => names.hand(name, hold.token, hold.client),
        Err(_) => false,
    }
}

/// Hands each open hold to its client.
///
/// # Errors
///
/// The line, from 1, of the first that cannot be. Those before it have been handed over then.
pub(crate) fn hand_names(names: &mut Names, holders: &[NamedHold]) -> Result<(), u64>
    ensures ok { OnOk result (AreHandedByName names.old (map hold_of holders.now) names.new) }
    ensures err { IfErr result
        (λ line. IsNameNotHanded names.old (map hold_of holders.now) line) }
{
    for (place, holder) in holders.iter().enumerate() {
        if !hand(names, holder) {
            return Err(place as u64 + 1);
        }
    }
    Ok(())
}
