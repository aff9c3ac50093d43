ghost use Rattle.std.specs.Prelude.{◌≡◌, ◌<◌, ◌≤◌, length, IfOk};
ghost use Rattle.ring_settings.specs.Limits.{action_limit};
ghost use Rattle.ring_settings.specs.Draws.{action_of_words, next_four, after_four, drawn, left_after};

use crate::actions::{Action, Plan, Role};
use rand_core::Rng;
use ring_state::Params;
use std::alloc::{AllocError, Global};

/// Of eight workers' words, one is a survey.
const SURVEY_ONE_IN: u32 = 8;

/// One action, from four words of a generator.
fn action_of_words(role: Role, rings: &[Params], words: [u32; 4]) -> Action
    requires { 0 < length rings.now }
    ensures { result ≡ action_of_words role rings.now words }
{
    let [ring_word, kind_word, machine_word, last_word] = words;
    let place = ring_word as usize % rings.len();
    let ring = place as u32;
    let size = &rings[place];
    let machine = machine_word % size.n();
    match role {
        Role::Worker => {
            if kind_word % SURVEY_ONE_IN == 0 {
                Action::Survey { ring }
            } else {
                Action::Pass {
                    ring,
                    machine,
                    order: u64::from(last_word),
                }
            }
        }
        Role::Injector => Action::Corrupt {
            ring,
            machine,
            value: last_word % size.k(),
        },
    }
}

/// The next four words of a generator.
fn four_words<G: Rng>(g: &mut G) -> [u32; 4]
    ensures words { result ≡ next_four (G.stream g.old) }
    ensures left { G.stream g.new ≡ after_four (G.stream g.old) }
{
    [g.next_u32(), g.next_u32(), g.next_u32(), g.next_u32()]
}

/// Draws a plan of this many actions for rings of these sizes, with just four words of the
/// generator for each action. There is at least one ring, and at most `ACTION_LIMIT` actions.
///
/// # Errors
///
/// Only if memory runs out. The generator may have given words then.
pub fn draw_plan<G: Rng>(
    alloc: Global,
    g: &mut G,
    role: Role,
    rings: &[Params],
    actions: u32,
) -> Result<Plan, AllocError>
    requires some { 0 < length rings.now }
    requires most { actions ≤ action_limit }
    ensures plan { IfOk result (λ p. p.actions.items
        ≡ drawn role rings.now actions (G.stream g.old)) }
    ensures words { IfOk result (λ p. G.stream g.new ≡ left_after actions (G.stream g.old)) }
{
    let mut plan = Vec::with_capacity(alloc, actions as usize)?;
    for _ in 0..actions {
        let words = four_words(g);
        plan.push(action_of_words(role, rings, words))?;
    }
    Ok(Plan { actions: plan })
}
