//! Turns of a client, each broken: a turn in which one thing is wrong.

ghost use Rattle.std.specs.Prelude.{◌≡◌, ◌≢◌, ◌<◌, length, IfOk, IsErrOf};
ghost use Rattle.ring_model.specs.History.{opening};
ghost use Rattle.ring_model.specs.Limits.{event_limit};
ghost use Rattle.ring_turns.specs.Spared.{spared};
ghost use Rattle.ring_turns.specs.Turning.{IsTurn};
ghost use Rattle.ring_turns.specs.Waiting.{HasWaited};

use ring_book::{BookError, Resource};
use ring_model::limits::EVENT_LIMIT;
use ring_model::{Event, Receipt, Reply};
use ring_shared::{Name, Seat};
use ring_turns::{Turn, Turns};
use std::sync::Wait;

/// A turn is a pass of the client's own machine: another client takes it, by its own.
pub fn turn_by_anothers_machine<N: Name, R: Resource + Drop, W: Wait>(
    turns: &Turns<N, R>,
    rt: &W,
    seat: &Seat<N>,
    other: &mut Seat<N>,
    order: u64,
) -> Result<Turn, BookError>
    requires client { other.old.number < turns.now }
    requires apart { other.old.number ≢ seat.now.number }
    ensures wrong { IfOk result
        (λ t. IsTurn (spared R.works) (opening N.start R.first) seat.now seat.now order t → ⊥) }
{
    turns.take_turn(rt, other, order)
}

/// A turn was granted: it is answered as one that was not.
pub fn turn_that_was_not_granted<N: Name, R: Resource + Drop, W: Wait>(
    turns: &Turns<N, R>,
    rt: &W,
    seat: &mut Seat<N>,
    order: u64,
) -> Result<Turn, BookError>
    requires client { seat.old.number < turns.now }
    ensures wrong { IfOk result
        (λ t. IsTurn (spared R.works) (opening N.start R.first) seat.old seat.new order t → ⊥) }
{
    let turn = turns.take_turn(rt, seat, order)?;
    let event = Event {
        reply: Reply::NotPrivileged,
        ..turn.receipt.event
    };
    Ok(Turn {
        receipt: Receipt {
            event,
            ..turn.receipt
        },
        ..turn
    })
}

/// The place that is returned is the one where the client asked: another one is returned.
pub fn turn_from_another_place<N: Name, R: Resource + Drop, W: Wait>(
    turns: &Turns<N, R>,
    rt: &W,
    seat: &mut Seat<N>,
    order: u64,
) -> Result<Turn, BookError>
    requires client { seat.old.number < turns.now }
    ensures wrong { IfOk result
        (λ t. IsTurn (spared R.works) (opening N.start R.first) seat.old seat.new order t → ⊥) }
{
    let turn = turns.take_turn(rt, seat, order)?;
    Ok(Turn {
        asked_at: if turn.asked_at == 0 { 1 } else { 0 },
        ..turn
    })
}

/// While a client waits its machine is granted nothing: it gets the answer that it waited since an earlier turn of its own.
pub fn wait_in_which_its_machine_was_granted<N: Name, R: Resource + Drop, W: Wait>(
    turns: &Turns<N, R>,
    rt: &W,
    seat: &mut Seat<N>,
    order: u64,
) -> Result<Turn, BookError>
    requires client { seat.old.number < turns.now }
    ensures wrong { IfOk result (λ t. HasWaited (spared R.works) (opening N.start R.first)
        seat.new.seen seat.old.number t.asked_at t.receipt.position → ⊥) }
{
    let first = turns.take_turn(rt, seat, order)?;
    let second = turns.take_turn(rt, seat, order)?;
    Ok(Turn {
        asked_at: first.asked_at,
        ..second
    })
}

/// A history is reported as full only if it is: memory ran out, and this is reported as a full history.
pub fn turn_refused_as_full<N: Name, R: Resource + Drop, W: Wait>(
    turns: &Turns<N, R>,
    rt: &W,
    seat: &mut Seat<N>,
    order: u64,
) -> Result<Turn, BookError>
    requires client { seat.old.number < turns.now }
    ensures wrong { IsErrOf result BookError.HistoryFull → length seat.new.seen ≡ event_limit → ⊥ }
{
    let Ok(turn) = turns.take_turn(rt, seat, order) else {
        let full = seat.seen().len() >= EVENT_LIMIT as u64;
        return Err(if full {
            BookError::OutOfMemory
        } else {
            BookError::HistoryFull
        });
    };
    Ok(turn)
}
