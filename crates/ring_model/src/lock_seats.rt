//! The seats of a lock's ring: what a call by each says of the lock. No number occurs twice.

ghost use Rattle.std.specs.Prelude.{◌≡◌};
ghost use Rattle.ring_model.specs.LockSeats.{grant_seat, release_seat, leave_seat, carried_seat, fault_seat, repair_seat};

/// A grant: a pass, whose number is the token of the hold, and whose order is the client's.
pub const GRANT_SEAT: u32 = 0;

/// The end of a hold that its client released: a survey.
pub const RELEASE_SEAT: u32 = 1;

/// The end of a hold whose client left: a survey.
pub const LEAVE_SEAT: u32 = 2;

/// The hold that is open where a segment begins: a pass that is not granted, whose order is its token.
pub const CARRIED_SEAT: u32 = 3;

/// A fault: a corruption.
pub const FAULT_SEAT: u32 = 8;

/// The repair after it: passes.
pub const REPAIR_SEAT: u32 = 9;

/// The seats are those of the definitions.
pub fn lock_seats_as_defined()
    ensures grant { GRANT_SEAT ≡ grant_seat }
    ensures release { RELEASE_SEAT ≡ release_seat }
    ensures leave { LEAVE_SEAT ≡ leave_seat }
    ensures carried { CARRIED_SEAT ≡ carried_seat }
    ensures fault { FAULT_SEAT ≡ fault_seat }
    ensures repair { REPAIR_SEAT ≡ repair_seat }
{}
