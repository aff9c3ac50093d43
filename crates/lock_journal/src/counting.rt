//! How many lines a journal has.

ghost use Rattle.std.specs.Prelude.{◌≡◌, ◌-◌, ◌<◌, length};
ghost use Rattle.ring_service.specs.Standings.{standing_of};
ghost use Rattle.ring_service.specs.Due.{lines_in};
ghost use Rattle.lock_journal.specs.Counting.{lines_at_start, end_count, count_of_all};

use crate::noting::events_at;
use endless_ring::EndlessRing;
use held_locks::{HoldEnd, Left, Locks};

/// What is left of `remaining` lines after those of one ring with which a journal begins.
fn after_ring(remaining: u64, ring: &EndlessRing) -> u64
    ensures { result ≡ remaining - lines_in (standing_of ring.now) }
{
    let events = ring.segment().history().len() as u64;
    let clients = ring.segment().clients();
    let mut more = remaining.saturating_sub(events);
    for client in clients {
        more = more.saturating_sub(client.surveys().len() as u64);
    }
    more
}

/// What is left of `remaining` lines after those with which a journal of these locks begins.
pub fn after_start(remaining: u64, locks: &Locks) -> u64
    ensures { result ≡ remaining - lines_at_start locks.now }
{
    let count = locks.count();
    let mut more = remaining;
    for lock in 0..count {
        more = after_ring(more, locks.ring(lock));
    }
    more
}

/// What is left after the end of a hold, if one ended.
pub fn after_end(remaining: u64, ended: Option<HoldEnd>) -> u64
    ensures { result ≡ remaining - end_count ended }
{
    match ended {
        Some(_) => remaining.saturating_sub(1),
        None => remaining,
    }
}

/// What is left after the events from a place on, of a ring that has `events` of them.
pub fn after_events(remaining: u64, place: usize, events: usize) -> u64
    ensures { result ≡ remaining - (events - place) }
{
    let more = events.saturating_sub(place);
    remaining.saturating_sub(more as u64)
}

/// What is left after a client has left all locks, which held these.
pub fn after_left(remaining: u64, locks: &Locks, left: &[Left]) -> u64
    ensures { result ≡ remaining - count_of_all locks.now left.now }
{
    let mut more = remaining;
    for one in left {
        let place = one.ended.survey.position as usize;
        more = after_events(more.saturating_sub(1), place, events_at(locks, one.lock));
    }
    more
}
