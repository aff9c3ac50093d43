//! The tickets that the clients of a closed desk were given.
ghost use Rattle.ticket_desk.specs.Tickets.{NoneTwice};

use crate::counts::times_given;
use crate::rolls::TICKETS;
use ring_shared::Log;

/// Counts the tickets that were given and those that were given twice, and adds up the numbers of the given ones.
pub(crate) fn count_tickets(logs: &[Log]) -> (u64, u64, u64)
    requires { NoneTwice logs.now }
{
    let (mut given, mut twice, mut sum) = (0u64, 0u64, 0u64);
    for ticket in 1..=TICKETS {
        let times = times_given(logs, ticket);
        if times > 0 {
            given = given.saturating_add(1);
            sum = sum.saturating_add(ticket);
        }
        if times > 1 {
            twice = twice.saturating_add(1);
        }
    }
    (given, twice, sum)
}
