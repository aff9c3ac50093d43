//! A roll of tickets that a ring guards, and a desk at which three clients draw from it while
//! faults are injected. The program has the tickets of a roll drawn twice, each time by a ring of
//! three machines, and prints what the clients were given: first at such a desk, and then in turns.
//! What it prints is the same whatever the threads' schedule was; the longest wait for a turn,
//! which is not, goes to standard error.
#![tactic(auto)]

mod clients;
mod counts;
mod desks;
mod rolls;
mod tickets;
mod waits;

use anyhow::bail;
use clients::{CLIENTS, TURNS, draw_in_turns};
use desks::run_desk;
use ring_state::{Params, RingState};
use rolls::TICKETS;
use std::alloc::Global;
use std::sync::Wait;
use std::thread::Threads;
use tickets::count_tickets;
use waits::{longest_wait, turns_of};

/// Makes a ring of three machines with these values.
fn ring_of(alloc: Global, values: &[u32]) -> anyhow::Result<RingState> {
    let Ok(size) = Params::new(3, 3) else {
        bail!("a ring of no size that is allowed");
    };
    let Ok(state) = RingState::from_values(alloc, &size, values) else {
        bail!("out of memory");
    };
    Ok(state)
}

/// Keeps a desk over a roll, and prints how many tickets were given.
fn print_tickets<R: Threads + Wait + Sync + Print + AllocGlobal>(rt: &R) -> anyhow::Result<()> {
    let desk = run_desk(rt, rt.alloc(), ring_of(rt.alloc(), &[0, 2, 1])?)?;
    let (given, twice, sum) = count_tickets(desk.logs.as_slice());
    let left = desk.book.resource().left();
    println!(rt; "tickets {TICKETS} given {given} twice {twice} left {left} sum {sum}")?;
    Ok(())
}

/// Has the clients draw a roll in turns, and prints how many turns each had.
fn print_turns<R: Threads + Wait + Sync + Print + Eprint + AllocGlobal>(
    rt: &R,
) -> anyhow::Result<()> {
    let desk = draw_in_turns(rt, rt.alloc(), ring_of(rt.alloc(), &[0, 0, 0])?)?;
    let history = desk.book.history();
    let mut longest: u64 = 0;
    for log in &desk.logs {
        let turns = turns_of(&log.entries, log.seat);
        println!(rt; "client {} turns {turns} of {TURNS}", log.seat)?;
        longest = longest.max(longest_wait(history, &log.entries, log.seat));
    }
    let kept = longest < u64::from(CLIENTS);
    println!(rt;
        "tickets left {} each wait within one turn of each other client: {kept}",
        desk.book.resource().inner().left()
    )?;
    eprintln!(rt; "longest wait: {longest} turns of other clients")?;
    Ok(())
}

fn main(rt: HostRuntime) -> anyhow::Result<()> {
    print_tickets(&rt)?;
    print_turns(&rt)
}
