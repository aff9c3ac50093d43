//! Hands open holds over, one after the other.

ghost use Rattle.std.specs.Prelude.{◌≡◌, true, false, map, OnOk, IfErr};
ghost use Rattle.folder_of_locks.specs.Holders.{hold_of, IsHandedBy, CannotBeHandedBy, AreHandedBy, IsNotHanded};

use crate::holder_reading::NamedHold;
use held_locks::{Handover, Locks};
use lock_protocol::LockNames;

/// Hands an open hold to its client, if the lock of its name has it.
fn hand(locks: &mut Locks, names: &LockNames, hold: &NamedHold) -> bool
    ensures yes { result ≡ true → IsHandedBy names.now locks.old locks.new (hold_of hold.now) }
    ensures no { result ≡ false → CannotBeHandedBy names.now locks.old (hold_of hold.now) }
{
    match names.find(&hold.name) {
        None => false,
        Some(lock) => locks.hand(Handover {
            lock,
            token: hold.token,
            client: hold.client,
        }),
    }
}

/// Hands each open hold to its client.
///
/// # Errors
///
/// The line, from 1, of the first that cannot be: client 0 does not hold the lock with this token, or there is no lock of this name.
/// Those before it have been handed over then.
pub fn hand_all(locks: &mut Locks, names: &LockNames, holders: &[NamedHold]) -> Result<(), u64>
    ensures ok { OnOk result (AreHandedBy names.now locks.old (map hold_of holders.now) locks.new) }
    ensures err { IfErr result
        (λ line. IsNotHanded names.now locks.old (map hold_of holders.now) line) }
{
    for (place, holder) in holders.iter().enumerate() {
        if !hand(locks, names, holder) {
            return Err(place as u64 + 1);
        }
    }
    Ok(())
}
