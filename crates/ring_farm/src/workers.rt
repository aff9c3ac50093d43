//! A worker: the actions of one plan on one ring, in order.
ghost use Rattle.std.specs.Prelude.{◌≡◌, ◌==◌, ◌≤◌, ◌<◌, ◌++◌, ◌∷◌, ◌+◌, [], None, Some, IfSome, IsTrue, IsFalse, length, vec_len};
ghost use Rattle.ring_settings.specs.Limits.{action_limit};
ghost use Rattle.ring_farm.specs.Refusals.{told_as, IsSeatFault};
ghost use Rattle.ring_farm.specs.Plans.{ring_of, planned, actions_of, IsActionOn, IsShort, IsPlanOn};

use crate::faults::FarmError;
use crate::gates::Gate;
use ring_book::{BookError, Resource};
use ring_settings::{Action, Plan};
use ring_shared::{Name, Ring, Seat};
use std::sync::Wait;

/// The seat that a worker hands back, and the refusal that it met.
#[derive(Drop)]
pub(crate) struct Work<N: Name> {
    pub(crate) seat: Seat<N>,
    pub(crate) fault: Option<FarmError>,
}

/// The farm's refusal for one of a book.
pub(crate) fn fault_of(error: BookError) -> FarmError
    ensures { result ≡ told_as error }
{
    match error {
        BookError::HistoryFull => FarmError::HistoryFull,
        BookError::OutOfMemory => FarmError::OutOfMemory,
    }
}

/// Whether an action is for the ring of this number.
fn is_on(action: &Action, number: u32) -> bool
    ensures { result ≡ (ring_of action.now == number) }
{
    let ring = match action {
        Action::Pass { ring, .. } | Action::Corrupt { ring, .. } | Action::Survey { ring } => *ring,
    };
    ring == number
}

/// The effect of a gate's answer: a worker that may not continue is refused.
fn refused_by(on: bool) -> Option<FarmError>
    ensures let_on { IsTrue on → result ≡ None }
    ensures shut { IsFalse on → result ≡ Some FarmError.GateShut }
{
    if on {
        return None;
    }
    Some(FarmError::GateShut)
}

/// Comes to the gate; the refusal where it is shut. The call has the number of the answers that the worker has:
/// call c comes just before action c, and the last one after the last answer.
fn comes<N: Name, G: Gate>(gate: &G, number: u32, seat: &Seat<N>) -> Option<FarmError>
    requires { length seat.now.log ≤ action_limit }
    ensures { IfSome result (λ e. e ≡ FarmError.GateShut) }
{
    refused_by(gate.arrive(number, seat.number(), seat.log().len() as u32))
}

/// Makes one action on the ring, if the gate lets the worker on; the refusal that it met.
fn make<N: Name, R: Resource + Drop, G: Gate, W: Wait>(
    rt: &W,
    ring: &Ring<N, R>,
    gate: &G,
    number: u32,
    action: Action,
    seat: &mut Seat<N>,
) -> Option<FarmError>
    requires few { length seat.old.log ≤ action_limit }
    requires possible { IsActionOn N.start action }
    ensures number { seat.new.number ≡ seat.old.number }
    ensures log { result ≡ None
        → actions_of (ring_of action) seat.new.log
        ≡ actions_of (ring_of action) seat.old.log ++ Some action ∷ [] }
    ensures one { result ≡ None → length seat.new.log ≡ length seat.old.log + 1 }
    ensures fault { IfSome result IsSeatFault }
{
    let shut = comes(gate, number, seat);
    if shut.is_some() {
        return shut;
    }
    match action {
        Action::Pass {
            ring: _,
            machine,
            order,
        } => match ring.pass(rt, seat, machine, order) {
            Ok(_) => None,
            Err(error) => Some(fault_of(error)),
        },
        Action::Corrupt {
            ring: _,
            machine,
            value,
        } => match ring.corrupt(rt, seat, machine, value) {
            Ok(_) => None,
            Err(error) => Some(fault_of(error)),
        },
        Action::Survey { ring: _ } => match ring.survey(seat) {
            Ok(_) => None,
            Err(_) => Some(FarmError::OutOfMemory),
        },
    }
}

/// Makes the part of a plan that is for the ring of this number, in order, until a refusal is met.
pub(crate) fn run_plan<N: Name, R: Resource + Drop, G: Gate, W: Wait>(
    rt: &W,
    ring: &Ring<N, R>,
    gate: &G,
    number: u32,
    plan: &Plan,
    seat: Seat<N>,
) -> Work<N>
    requires few { IsShort plan.now }
    requires possible { IsPlanOn number N.start plan.now }
    requires new { seat.log ≡ [] }
    ensures number { result.seat.number ≡ seat.number }
    ensures log { result.fault ≡ None
        → actions_of number result.seat.log ≡ planned number plan.now.actions.items }
    ensures fault { IfSome result.fault IsSeatFault }
{
    let mut seat = seat;
    for action in &plan.actions {
        if is_on(action, number) {
            let fault = make(rt, ring, gate, number, *action, &mut seat);
            if fault.is_some() {
                return Work { seat, fault };
            }
        }
    }
    let fault = comes(gate, number, &seat);
    Work { seat, fault }
}
