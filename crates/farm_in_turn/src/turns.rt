//! The turns of the seats of a ring.
ghost use Rattle.std.specs.Prelude.{◌≡◌, ◌<◌, ◌≤◌, ◌∷◌, MatchOption, OnOk, IfErr, length, vec_len, vec_capacity};
ghost use Rattle.ring_model.specs.Resources.{till};
ghost use Rattle.ring_model.specs.Limits.{seat_limit};
ghost use Rattle.one_thread_ring.specs.Rings.{IsOneThreadRing};
ghost use Rattle.farm_in_turn.specs.Turns.{waiting, next_seat, left_of, count_left, turns};
ghost use Rattle.farm_in_turn.specs.InTurn.{with_action, after_turns};
ghost use Rattle.farm_in_turn.specs.Rings.{so_far};

use crate::parts::Part;
use one_thread_ring::OneThreadRing;
use rand_pcg::Lcg64Xsh32;
use ring_book::Till;
use ring_repairs::draw;
use ring_settings::Action;
use std::alloc::{AllocError, Global};

/// Finds the seats that have an action left, in the order of their numbers.
fn find_waiting(parts: &[Part], seats: &mut Vec<u32>)
    requires count { length parts.now ≤ seat_limit }
    requires room { length parts.now ≤ vec_capacity seats.old }
    ensures seats { seats.new.items ≡ waiting parts.now }
    ensures room { vec_capacity seats.new ≡ vec_capacity seats.old }
{
    seats.clear();
    for seat in 0..parts.len() {
        if !parts[seat].is_done() {
            seats.push_reserved(seat as u32);
        }
    }
}

/// Draws the seat of the next turn, if an action is left.
fn draw_seat(words: &mut Lcg64Xsh32, parts: &[Part], seats: &mut Vec<u32>) -> Option<u32>
    requires count { length parts.now ≤ seat_limit }
    requires room { length parts.now ≤ vec_capacity seats.old }
    ensures seat { MatchOption result (count_left parts.now ≡ 0)
        (λ seat. ((seat, words.new) ≡ next_seat words.old parts.now)
        × (seat < length parts.now)
        × (0 < length (left_of parts.now seat))) }
    ensures room { vec_capacity seats.new ≡ vec_capacity seats.old }
{
    find_waiting(parts, seats);
    if seats.is_empty() {
        return None;
    }
    let place = draw(words, seats.len() as u32);
    Some(seats[place as usize])
}

/// A seat's action on the ring.
fn act(ring: &mut OneThreadRing<Till>, seat: u32, action: Action) -> Result<(), AllocError>
    requires ring { IsOneThreadRing till 0 ring.old }
    ensures done { OnOk result (so_far ring.new
        ≡ with_action ring.old.book.start (so_far ring.old) seat action) }
    ensures start { OnOk result (ring.new.book.start ≡ ring.old.book.start) }
    ensures ring { IsOneThreadRing till 0 ring.new }
{
    match action {
        Action::Pass {
            ring: _,
            machine,
            order,
        } => match ring.pass(seat, machine, order) {
            Ok(_) => Ok(()),
            Err(_) => Err(AllocError),
        },
        Action::Corrupt {
            ring: _,
            machine,
            value,
        } => match ring.corrupt(seat, machine, value) {
            Ok(_) => Ok(()),
            Err(_) => Err(AllocError),
        },
        Action::Survey { ring: _ } => match ring.survey(seat) {
            Ok(_) => Ok(()),
            Err(_) => Err(AllocError),
        },
    }
}

/// Takes all turns of the seats on the ring, until none of them has an action left.
///
/// # Errors
///
/// Only if memory runs out: the numbers of each action are those of the ring, and it has room for their events.
pub(crate) fn take_turns(
    alloc: Global,
    words: &mut Lcg64Xsh32,
    parts: &mut Vec<Part>,
    ring: &mut OneThreadRing<Till>,
) -> Result<(), AllocError>
    requires count { length parts.old.items ≤ seat_limit }
    requires ring { IsOneThreadRing till 0 ring.old }
    ensures done { OnOk result (so_far ring.new
        ≡ after_turns ring.old.book.start (so_far ring.old) (turns words.old parts.old.items)) }
    ensures start { OnOk result (ring.new.book.start ≡ ring.old.book.start) }
    ensures ring { IsOneThreadRing till 0 ring.new }
{
    let mut seats = Vec::with_capacity(alloc, parts.len())?;
    while let Some(seat) = draw_seat(words, parts.as_slice(), &mut seats) {
        if let Some(action) = parts[seat as usize].take() {
            act(ring, seat, action)?;
        }
    }
    Ok(())
}
