//! Counts of a ticket in the logs of a closed desk.
ghost use Rattle.std.specs.Prelude.{◌≡◌, ◌≤◌, ◌<◌, ◌^◌};
ghost use Rattle.ticket_desk.specs.Tickets.{hands_out as hands_out_of, times_in as times_in_of, times_given as times_given_of};

use ring_model::{Entry, Reply};
use ring_shared::Log;

/// Whether the entry is the receipt of a pass that was given this ticket.
fn hands_out(entry: &Entry, ticket: u64) -> bool
    ensures { result ≡ hands_out_of ticket entry.now }
{
    match entry {
        Entry::Receipt(receipt) => match receipt.event.reply {
            Reply::Granted { number: _, result } => result == ticket,
            Reply::NotPrivileged | Reply::Corrupted { .. } => false,
        },
        Entry::Survey(_) => false,
    }
}

/// How often the ticket was given to the client with this log.
fn times_in(entries: &[Entry], ticket: u64) -> u64
    ensures { result ≡ times_in_of ticket entries.now }
{
    entries
        .iter()
        .filter(|entry| hands_out(entry, ticket))
        .count() as u64
}

/// How often the ticket, of those that are numbered from 1, was given to the clients with these logs.
pub fn times_given(logs: &[Log], ticket: u64) -> u64
    requires { times_given_of ticket logs.now < 2 ^ 64 }
    ensures { result ≡ times_given_of ticket logs.now }
{
    let mut times = 0;
    for log in logs {
        times += times_in(log.entries.as_slice(), ticket);
    }
    times
}
