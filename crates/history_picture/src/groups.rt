//! Which place is shown for a place: a group moves at once, so nothing is shown from inside its block.

ghost use Rattle.std.specs.Prelude.{◌≡◌, ◌≤◌, take};
ghost use Rattle.ring_model.specs.Groups.{left_after};
ghost use Rattle.saved_history.specs.Content.{block_of};
ghost use Rattle.ring_check.specs.Legal.{history};
ghost use Rattle.history_picture.specs.Picture.{shown};

use ring_check::left_after;
use saved_history::SavedRing;

/// How many members come after the last event up to a place: 0 where the place is inside no group's block.
pub(crate) fn left_before(ring: &SavedRing, place: usize) -> u32
    ensures { result ≡ left_after (take place (history (block_of ring.now))) }
{
    let events = ring.events.as_slice();
    if place < events.len() {
        left_after(events, place)
    } else {
        left_after(events, events.len())
    }
}

/// The place that is shown for a place: the last one up to it that is inside no block.
pub(crate) fn shown(ring: &SavedRing, place: usize) -> usize
    ensures value { result ≡ shown (block_of ring.now) place }
    ensures few { result ≤ place }
{
    for turn in 0..place {
        let at = place - turn;
        if left_before(ring, at) == 0 {
            return at;
        }
    }
    0
}
