//! What an event records of holds.

ghost use Rattle.std.specs.Prelude.{◌≡◌};
ghost use Rattle.chain_readers.specs.Signs.{other, sign_of, place};

use ring_model::Base;
use ring_model::lock_seats::{CARRIED_SEAT, GRANT_SEAT};
use saved_history::SavedEvent;

/// What is at a place of a ring's history, as far as it records holds.
#[derive(Clone, Copy)]
pub enum Sign {
    /// A grant: a hold with this token begins.
    Granted { token: u64, label: u64 },
    /// A hold that is open where a segment begins: the one with this token continues.
    Carried { token: u64 },
    /// The end of a hold, and whether its client left.
    Ended { left: bool },
    /// An event of another seat, as a fault and its repair.
    Other,
    /// Another event of the seats of grants and of what is carried, which no lock's history has.
    Wrong,
}

/// An event that is neither a grant nor carries a hold.
fn other(seat: u32) -> Sign
    ensures { result ≡ other seat }
{
    if seat == GRANT_SEAT || seat == CARRIED_SEAT {
        Sign::Wrong
    } else {
        Sign::Other
    }
}

/// What an event of a segment with this base records.
pub(crate) fn sign_of(base: &Base, event: SavedEvent) -> Sign
    ensures { result ≡ sign_of base.now event }
{
    match event {
        SavedEvent::Granted {
            seat,
            order,
            number,
            ..
        } => {
            if seat == GRANT_SEAT {
                return Sign::Granted {
                    token: base.grants.saturating_add(number),
                    label: order,
                };
            }
            other(seat)
        }
        SavedEvent::Refused { seat, order, .. } => {
            if seat == CARRIED_SEAT {
                return Sign::Carried { token: order };
            }
            other(seat)
        }
        SavedEvent::Member { seat, .. } | SavedEvent::Corrupted { seat, .. } => other(seat),
    }
}

/// How many events come before a place of a segment with this base, over all segments.
pub(crate) fn place(base: &Base, before: u64) -> u64
    ensures { result ≡ place base.now before }
{
    base.events.saturating_add(before)
}
