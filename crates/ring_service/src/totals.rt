//! The sums over rings that are served.

ghost use Rattle.std.specs.Prelude.{◌≡◌, ◌≤◌, ◌^◌, IfSome, IsNone, map};
ghost use Rattle.ring_service.specs.Standings.{standing_of};
ghost use Rattle.ring_service.specs.Totals.{surveys_among, with_ring, totals_of, AreTooLarge};

use crate::served::Served;
use endless_ring::EndlessRing;
use one_thread_ring::{OneThreadRing, Totals, granted};
use ring_book::Till;

/// How many surveys the clients of a ring were given; none if they are 2 to the power 64 or more.
pub(crate) fn surveys_of(ring: &OneThreadRing<Till>) -> Option<u64>
    ensures some { IfSome result (λ count. count ≡ surveys_among ring.now.clients) }
    ensures none { IsNone result → 2 ^ 64 ≤ surveys_among ring.now.clients }
{
    let clients = ring.clients();
    let mut all: u64 = 0;
    for client in clients {
        all = all.checked_add(client.surveys().len() as u64)?;
    }
    Some(all)
}

/// The sums over rings, with one ring more; none if one of them has more than 64 bits.
fn with_ring(all: Totals, ring: &EndlessRing) -> Option<Totals>
    ensures some { IfSome result (λ totals. totals ≡ with_ring all (standing_of ring.now)) }
    ensures none { IsNone result → AreTooLarge (with_ring all (standing_of ring.now)) }
{
    let base = ring.base();
    let history = ring.segment().history();
    let events = all.events.checked_add(base.events)?;
    let grants = all.granted.checked_add(base.grants)?;
    Some(Totals {
        events: events.checked_add(history.len() as u64)?,
        granted: grants.checked_add(granted(history) as u64)?,
        surveys: all.surveys.checked_add(surveys_of(ring.segment())?)?,
    })
}

/// The sums over rings; none if one of them has more than 64 bits.
fn totals_of(rings: &[EndlessRing]) -> Option<Totals>
    ensures some { IfSome result (λ totals. totals ≡ totals_of (map standing_of rings.now)) }
    ensures none { IsNone result → AreTooLarge (totals_of (map standing_of rings.now)) }
{
    let mut all = Totals {
        events: 0,
        granted: 0,
        surveys: 0,
    };
    for ring in rings {
        all = with_ring(all, ring)?;
    }
    Some(all)
}

impl Served {
    /// The events, the granted passes and the surveys of all rings; none if one of these numbers has more than 64 bits.
    pub fn totals(&self) -> Option<Totals>
        ensures some { IfSome result (λ totals. totals ≡ totals_of self.now) }
        ensures none { IsNone result → AreTooLarge (totals_of self.now) }
    {
        totals_of(self.rings())
    }
}
