//! A legal history, replayed: how it leaves its ring and its till.

ghost use Rattle.std.specs.Prelude.{◌≡◌, ◌<◌, ◌≤◌, ◌+◌, ◌^◌, length, map, IfOk};
ghost use Rattle.ring_model.specs.Ring.{ring_with};
ghost use Rattle.ring_model.specs.History.{opening, next, reply, IsLegal};
ghost use Rattle.ring_model.specs.Resources.{till};
ghost use Rattle.ring_model.specs.Replay.{till_state, machine_of};
ghost use Rattle.ring_check.specs.Table.{event_of};
ghost use Rattle.ring_model.proofs.Histories.{calm_next};
ghost use Rattle.segment_files.specs.Replays.{IsLeftBy};

use ring_model::replay::step_with_till;
use ring_model::{Op, Reply};
use saved_history::SavedEvent;
use std::alloc::{AllocError, Global};

/// A ring with its till, as a history leaves it.
#[derive(Drop)]
pub(crate) struct Left {
    pub(crate) values: Vec<u32>,
    /// The till's amount.
    pub(crate) amount: u64,
    /// The granted passes since the last corruption.
    pub(crate) calm: u64,
}

/// The call of a saved event.
fn op_of(event: &SavedEvent) -> Op
    ensures { result ≡ (event_of event.now).op }
{
    match *event {
        SavedEvent::Granted { machine, order, .. } | SavedEvent::Refused { machine, order, .. } => {
            Op::Pass { machine, order }
        }
        SavedEvent::Member {
            machine,
            order,
            left,
            ..
        } => Op::Member {
            machine,
            order,
            left,
        },
        SavedEvent::Corrupted { machine, value, .. } => Op::Corrupt { machine, value },
    }
}

/// Makes a call of a ring, as [`step_with_till`] does.
fn step(k: u32, values: &mut Vec<u32>, amount: &mut u64, grants: &mut u64, op: Op) -> Reply
    requires positive { 0 < k }
    requires within { machine_of op < length values.old.items }
    requires room { grants.old + 1 < 2 ^ 64 }
    ensures state { till_state (ring_with k values.new.items) amount.new grants.new
        ≡ next till (till_state (ring_with k values.old.items) amount.old grants.old) op }
    ensures reply { result
        ≡ reply till (till_state (ring_with k values.old.items) amount.old grants.old) op }
{
    step_with_till(k, values, amount, grants, op)
}

/// The calm after one more event.
fn calm_with(calm: u64, event: &SavedEvent) -> u64
    requires { calm + 1 < 2 ^ 64 }
    ensures { result ≡ calm_next calm (event_of event.now).reply }
{
    match *event {
        SavedEvent::Granted { .. } | SavedEvent::Member { .. } => calm + 1,
        SavedEvent::Refused { .. } => calm,
        SavedEvent::Corrupted { .. } => 0,
    }
}

/// Replays the legal history of a ring from its start, over a till with the amount 0.
pub(crate) fn replay(
    alloc: Global,
    k: u32,
    start: &[u32],
    events: &[SavedEvent],
) -> Result<Left, AllocError>
    requires positive { 0 < k }
    requires legal { IsLegal till (opening (ring_with k start.now) 0) (map event_of events.now) }
    ensures left { IfOk result
        (λ left. IsLeftBy (ring_with k start.now) (map event_of events.now) left) }
    ensures few { IfOk result (λ left. left.calm ≤ length events.now) }
{
    let mut values = Vec::from_slice(alloc, start)?;
    let mut amount: u64 = 0;
    let mut grants: u64 = 0;
    let mut calm: u64 = 0;
    for event in events {
        step(k, &mut values, &mut amount, &mut grants, op_of(event));
        calm = calm_with(calm, event);
    }
    Ok(Left {
        values,
        amount,
        calm,
    })
}
