//! What the seats have left to do on a ring.
ghost use Rattle.std.specs.Prelude.{◌≡◌, ◌≤◌, ◌+◌, ◌==◌, ◌↔◌, ◌∷◌, [], IsTrue, MatchOption, IfOk, All, filter, length, map};
ghost use Rattle.ring_settings.specs.Limits.{action_limit};
ghost use Rattle.ring_model.specs.Limits.{seat_limit};
ghost use Rattle.ring_farm.specs.Plans.{part, ring_of, is_call};
ghost use Rattle.farm_in_turn.specs.Refusals.{call_count};
ghost use Rattle.ring_settings.specs.Views.{plan_actions};

use ring_settings::{Action, Plan};
use std::alloc::{AllocError, Global};
use std::collections::VecDeque;
use std::marker::Model;

/// The actions that a seat has left on a ring, in order.
#[derive(Drop)]
pub(crate) struct Part {
    actions: VecDeque<Action>,
}

impl Model for Part {
    ghost use Rattle.std.specs.Prelude.{List};
    ghost use Rattle.ring_settings.specs.declared.actions.Action.{Action};

    ghost Value = { List Action };

    ghost view = { λ p. p.actions.items };
}

/// Whether an action is for the ring of this number.
fn is_on(action: &Action, number: u32) -> bool
    ensures { result ≡ (ring_of action.now == number) }
{
    let ring = match action {
        Action::Pass { ring, .. } | Action::Corrupt { ring, .. } | Action::Survey { ring } => *ring,
    };
    ring == number
}

impl Part {
    /// The part of a plan that is for the ring of this number.
    fn of(alloc: Global, plan: &Plan, ring: u32) -> Result<Part, AllocError>
        ensures { IfOk result (λ p. p ≡ part ring plan.now.actions.items) }
    {
        let mut actions = VecDeque::new(alloc);
        for action in &plan.actions {
            if is_on(action, ring) {
                actions.push_back(*action)?;
            }
        }
        Ok(Part { actions })
    }

    /// Whether no action is left.
    pub(crate) fn is_done(&self) -> bool
        ensures { IsTrue result ↔ self.now ≡ [] }
    {
        self.actions.is_empty()
    }

    /// How many passes and corruptions are left.
    fn calls(&self) -> usize
        ensures { result ≡ length (filter is_call self.now) }
    {
        self.actions
            .iter()
            .filter(|action| !matches!(action, Action::Survey { .. }))
            .count()
    }

    /// Takes the next action, if one is left.
    pub(crate) fn take(&mut self) -> Option<Action>
        ensures { MatchOption result ((self.old ≡ []) × (self.new ≡ []))
            (λ a. self.old ≡ a ∷ self.new) }
    {
        self.actions.pop_front()
    }
}

/// The parts of the plans that are for the ring of this number.
pub(crate) fn parts_of(alloc: Global, plans: &[Plan], ring: u32) -> Result<Vec<Part>, AllocError>
    ensures { IfOk result (λ v. v.items ≡ map (part ring) (map plan_actions plans.now)) }
{
    let mut parts = Vec::with_capacity(alloc, plans.len())?;
    for plan in plans {
        let part = Part::of(alloc, plan, ring)?;
        parts.push_reserved(part);
    }
    Ok(parts)
}

/// How many passes and corruptions are left of all seats.
pub(crate) fn call_count(parts: &[Part]) -> u32
    requires seats { length parts.now ≤ seat_limit }
    requires few { All (λ p. length p ≤ action_limit) parts.now }
    ensures { result ≡ call_count parts.now }
{
    let mut count = 0;
    for part in parts {
        count += part.calls() as u32;
    }
    count
}
