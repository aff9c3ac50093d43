//! The answers of a seat on itself, each broken.

ghost use Rattle.std.specs.Prelude.{◌≡◌, ◌<◌, ◌≤◌, length, IsOk, IfOk, OnOk};
ghost use Rattle.ring_shared.specs.Client.{IsUnchanged};

use ring_book::Resource;
use ring_model::{Entry, Survey};
use ring_shared::{Name, Ring, Seat};
use std::alloc::AllocError;

/// Room for more of a log leaves what the log has: an entry is added.
pub fn reserve_adds_an_entry<N: Name, R: Resource + Drop>(
    ring: &Ring<N, R>,
    seat: &mut Seat<N>,
    more: usize,
) -> Result<usize, AllocError>
    ensures wrong { OnOk result (IsUnchanged seat.old seat.new → ⊥) }
{
    let room = seat.reserve(more)?;
    ring.survey(seat)?;
    Ok(room)
}

/// A seat answers all the room that was asked for: it answers one place less than that.
pub fn reserve_answers_too_little<N: Name>(
    seat: &mut Seat<N>,
    more: usize,
) -> Result<usize, AllocError>
    requires some { 1 ≤ more }
    ensures wrong { IfOk result (λ room. more ≤ room → ⊥) }
{
    seat.reserve(more)?;
    Ok(more - 1)
}

/// There is the room that is answered: nothing is reserved, though the log has less.
pub fn reserve_that_takes_nothing<N: Name>(
    seat: &mut Seat<N>,
    more: usize,
) -> Result<usize, AllocError>
    requires less { seat.old.room < more }
    ensures wrong { IfOk result (λ room. (more ≤ room) × (seat.new.room ≡ room) → ⊥) }
{
    seat.number();
    Ok(more)
}

/// With room in its log no survey is refused: one is.
pub fn survey_refused_with_room<N: Name, R: Resource + Drop>(
    ring: &Ring<N, R>,
    seat: &mut Seat<N>,
) -> Result<Survey, AllocError>
    requires room { 1 ≤ seat.old.room }
    ensures wrong { (1 ≤ seat.old.room → IsOk result) → ⊥ }
{
    ring.glance(seat);
    Err(AllocError)
}

/// A seat shows its whole log: the first entry is left out.
pub fn log_without_its_first_entry<N: Name>(seat: &Seat<N>) -> &[Entry]
    requires some { 1 ≤ length seat.now.log }
    ensures wrong { result.now ≡ seat.now.log → ⊥ }
{
    &seat.log()[1..]
}
