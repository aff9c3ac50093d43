//! The ends of holds at each place of a segment.

ghost use Rattle.std.specs.Prelude.{◌≡◌, ◌+◌, ◌++◌, List, [], ◌∷◌, length, IfOk};
ghost use Rattle.saved_history.specs.declared.saved.SavedSurvey.{SavedSurvey};
ghost use Rattle.chain_readers.specs.Ends.{AreTallies};

use ring_model::lock_seats::{LEAVE_SEAT, RELEASE_SEAT};
use saved_history::{SavedRing, SavedSurvey};
use std::alloc::{AllocError, Global};

/// The ends at a place.
#[derive(Clone, Copy)]
pub enum Ends {
    Nothing,
    /// One, and whether the client left.
    One(bool),
    Several,
}

/// Puts a survey into the table, if it is the end of a hold at one of its places.
fn put(table: &mut Vec<Ends>, survey: &SavedSurvey)
    ensures same { length table.new.items ≡ length table.old.items }
    ensures put { (ss : List SavedSurvey) → AreTallies table.old.items ss
        → AreTallies table.new.items (ss ++ survey.now ∷ []) }
{
    if survey.seat != RELEASE_SEAT && survey.seat != LEAVE_SEAT {
        return;
    }
    if survey.position >= table.len() as u64 {
        return;
    }
    let at = survey.position as usize;
    table[at] = match table[at] {
        Ends::Nothing => Ends::One(survey.seat == LEAVE_SEAT),
        Ends::One(_) | Ends::Several => Ends::Several,
    };
}

/// The ends at each place of a ring's segment, from the one before its first event to the one after its last.
pub(crate) fn ends_of(alloc: Global, ring: &SavedRing) -> Result<Vec<Ends>, AllocError>
    ensures many { IfOk result
        (λ table. length table.items ≡ length ring.now.events.items + 1) }
    ensures tallies { IfOk result (λ table. AreTallies table.items ring.now.surveys.items) }
{
    let mut table = vec![in alloc; Ends::Nothing; ring.events.len() + 1]?;
    for survey in &ring.surveys {
        put(&mut table, survey);
    }
    Ok(table)
}
