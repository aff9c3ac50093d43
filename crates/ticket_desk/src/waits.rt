//! The turns of a client, by its log and the history.

use ring_book::{Event, Op, Reply};
use ring_model::Entry;
use ring_turns::PASS_ON;

/// Whether an event is a turn: a granted pass on an order that does work.
fn is_turn(event: &Event) -> bool {
    match (event.op, event.reply) {
        (Op::Pass { machine: _, order }, Reply::Granted { .. }) => order != PASS_ON,
        _ => false,
    }
}

/// How many turns the client with this log had.
pub(crate) fn turns_of(entries: &[Entry], client: u32) -> u64 {
    let mut turns: u64 = 0;
    for entry in entries {
        if let Entry::Receipt(receipt) = entry
            && is_turn(&receipt.event)
            && receipt.event.seat == client
        {
            turns = turns.saturating_add(1);
        }
    }
    turns
}

/// How many turns others had in a stretch of the history, from one place to another.
fn turns_between(history: &[Event], from: u64, to: u64) -> u64 {
    let mut turns: u64 = 0;
    for (place, event) in history.iter().enumerate() {
        let place = place as u64;
        if from <= place && place < to && is_turn(event) {
            turns = turns.saturating_add(1);
        }
    }
    turns
}

/// The most turns that others had while this client waited, from its survey by which it asked to its turn.
pub(crate) fn longest_wait(history: &[Event], entries: &[Entry], client: u32) -> u64 {
    let (mut longest, mut asked_at): (u64, u64) = (0, 0);
    for entry in entries {
        match entry {
            Entry::Survey(survey) => asked_at = survey.position,
            Entry::Receipt(receipt) if is_turn(&receipt.event) => {
                longest = longest.max(turns_between(history, asked_at, receipt.position));
            }
            Entry::Receipt(_) => {}
        }
    }
    longest
}
