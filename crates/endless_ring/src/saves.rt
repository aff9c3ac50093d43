//! The saved text of a ring, written into bytes of a caller. It takes no memory.

ghost use Rattle.saved_history.specs.Spelling.{text, Fits};
ghost use Rattle.ring_check.specs.Legal.{IsLegalText};
ghost use Rattle.one_thread_ring.specs.Texts.{saved_alone};
ghost use Rattle.endless_ring.specs.Filling.{Fills};

use crate::fills::{put_clients, put_events, put_size, put_start, put_word};
use one_thread_ring::OneThreadRing;
use ring_book::Till;
use saved_history::LATEST_VERSION;

/// Puts the saved text of a ring at this place, if there is room for it; returns the place after it.
pub(crate) fn put_text(out: &mut [u8], place: usize, ring: &OneThreadRing<Till>) -> usize
    ensures written { Fills out.old out.new place result (text (saved_alone ring.now)) }
    ensures fits { Fits (saved_alone ring.now) }
    ensures legal { IsLegalText (saved_alone ring.now) }
{
    let headed = put_word(out, place, b"ringfarm ", LATEST_VERSION as u64);
    let sized = put_size(out, headed, 0, ring.start());
    let started = put_start(out, sized, ring.start());
    let passed = put_events(out, started, ring.history());
    let ended = put_word(out, passed, b"end ", ring.history_length());
    let surveyed = put_clients(out, ended, ring.clients());
    put_word(out, surveyed, b"done ", 1)
}
