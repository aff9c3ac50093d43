//! The tally of a segment: its replies, added up as they come.

ghost use Rattle.std.specs.Prelude.{◌≡◌};
ghost use Rattle.ring_model.specs.Bases.{is_quiet};
ghost use Rattle.ring_model.specs.Tallies.{empty_tally, tally_with, tallied};

use crate::events::{Event, Reply};

/// The replies of a segment so far, added up.
#[derive(Clone, Copy, Debug, PartialEq, Eq)]
pub struct Tally {
    /// The number of the last grant, which is how many there are.
    pub grants: u64,
    /// The result of the last grant, which is the amount in the till.
    pub amount: u64,
    /// Whether no corruption came.
    pub quiet: bool,
}

/// The number and the result of the last grant of these events; 0 and 0 if there is none.
fn last_grant(events: &[Event]) -> (u64, u64)
    ensures number { result.0 ≡ (tallied empty_tally events.now).grants }
    ensures result { result.1 ≡ (tallied empty_tally events.now).amount }
{
    let mut left = events.len();
    while left > 0 {
        left -= 1;
        if let Reply::Granted { number, result } = events[left].reply {
            return (number, result);
        }
    }
    (0, 0)
}

impl Tally {
    /// The tally of no replies.
    pub fn empty() -> Tally
        ensures { result ≡ empty_tally }
    {
        Tally {
            grants: 0,
            amount: 0,
            quiet: true,
        }
    }

    /// The tally of these events, of which it is known whether a corruption came. It looks for the last grant from their end.
    pub fn of(events: &[Event], quiet: bool) -> Tally
        requires { quiet ≡ is_quiet events.now }
        ensures { result ≡ tallied empty_tally events.now }
    {
        let (grants, amount) = last_grant(events);
        Tally {
            grants,
            amount,
            quiet,
        }
    }

    /// The tally with one reply more.
    pub fn with_reply(self, reply: Reply) -> Tally
        ensures { result ≡ tally_with self reply }
    {
        match reply {
            Reply::Granted { number, result } => Tally {
                grants: number,
                amount: result,
                quiet: self.quiet,
            },
            Reply::NotPrivileged => self,
            Reply::Corrupted { .. } => Tally {
                grants: self.grants,
                amount: self.amount,
                quiet: false,
            },
        }
    }

    /// The tally with the replies of these events more.
    #[tactic(auto, using(crate::proofs::Tallied::tallied_more))]
    pub fn with_events(self, events: &[Event]) -> Tally
        ensures { result ≡ tallied self events.now }
    {
        let mut tally = self;
        for event in events {
            tally = tally.with_reply(event.reply);
        }
        tally
    }
}
