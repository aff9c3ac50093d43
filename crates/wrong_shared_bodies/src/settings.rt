//! Settings and their plans, each broken.

ghost use Rattle.std.specs.Prelude.{◌≡◌, ◌≢◌, ◌<◌, ◌≤◌, ◌-◌, ◌+◌, ℕ, Ok, Err, length, vec_len, map, slice_index_or, IfOk, IfErr, IfSome};
ghost use Rattle.rand_core.specs.Stream.{next_u32};
ghost use Rattle.ring_settings.specs.Contents.{ring_at, plan_of, plans_of};
ghost use Rattle.ring_settings.specs.Draws.{drawn, left_after};
ghost use Rattle.ring_settings.specs.Limits.{ring_limit, worker_limit, action_limit};
ghost use Rattle.ring_settings.specs.Seats.{settings_of};
ghost use Rattle.ring_settings.specs.Views.{plan_actions};
ghost use Rattle.ring_settings.specs.declared.actions.Plan.{Plan};

use rand_core::Rng;
use ring_settings::limits::{ACTION_LIMIT, RING_LIMIT, WORKER_LIMIT};
use ring_settings::{Plan, Role, Settings, SettingsError, draw_plan, plans, read_settings};
use ring_state::Params;
use std::alloc::{AllocError, Global};

/// The plans are in the order of the seats: the last one, which is another, comes first.
pub fn plans_with_the_injector_first(
    alloc: Global,
    settings: &Settings,
) -> Result<Vec<Plan>, AllocError>
    requires apart { plan_of settings.now (length settings.now.seats - 1) ≢ plan_of settings.now 0 }
    ensures wrong { IfOk result (λ ps. ((seat : ℕ) (d : Plan) → seat < vec_len ps
        → plan_actions (slice_index_or ps.items seat d) ≡ plan_of settings.now seat) → ⊥) }
{
    let mut plans = plans(alloc, settings)?;
    let last = plans.len() - 1;
    plans.swap(0, last);
    Ok(plans)
}

/// There is a plan for each seat: the injector's is left out.
pub fn plans_without_the_injector(
    alloc: Global,
    settings: &Settings,
) -> Result<Vec<Plan>, AllocError>
    ensures wrong { IfOk result (λ ps. map plan_actions ps.items ≡ plans_of settings.now → ⊥) }
{
    let mut plans = plans(alloc, settings)?;
    plans.pop();
    Ok(plans)
}

/// Each drawn action takes just four words of the generator: one more is taken, which it notices.
pub fn draw_that_takes_a_word_more<G: Rng>(
    alloc: Global,
    g: &mut G,
    role: Role,
    rings: &[Params],
    actions: u32,
) -> Result<Plan, AllocError>
    requires some { 0 < length rings.now }
    requires most { actions ≤ action_limit }
    requires moves { (next_u32 (left_after actions (G.stream g.old))).1
        ≢ left_after actions (G.stream g.old) }
    ensures wrong { IfOk result (λ p. G.stream g.new ≡ left_after actions (G.stream g.old) → ⊥) }
{
    let plan = draw_plan(alloc, g, role, rings, actions)?;
    g.next_u32();
    Ok(plan)
}

/// A drawn worker passes and surveys: an injector's actions are drawn.
pub fn draw_that_corrupts<G: Rng>(
    alloc: Global,
    g: &mut G,
    rings: &[Params],
    actions: u32,
) -> Result<Plan, AllocError>
    requires some { 0 < length rings.now }
    requires one { 1 ≤ actions }
    requires most { actions ≤ action_limit }
    ensures wrong { IfOk result
        (λ p. p.actions.items ≡ drawn Role.Worker rings.now actions (G.stream g.old) → ⊥) }
{
    let plan = draw_plan(alloc, g, Role::Injector, rings, actions)?;
    Ok(plan)
}

/// As many actions are drawn as were asked for: one fewer is.
pub fn draw_of_fewer_actions<G: Rng>(
    alloc: Global,
    g: &mut G,
    role: Role,
    rings: &[Params],
    actions: u32,
) -> Result<Plan, AllocError>
    requires some { 0 < length rings.now }
    requires one { 1 ≤ actions }
    requires most { actions ≤ action_limit }
    ensures wrong { IfOk result
        (λ p. p.actions.items ≡ drawn role rings.now actions (G.stream g.old) → ⊥) }
{
    let plan = draw_plan(alloc, g, role, rings, actions - 1)?;
    Ok(plan)
}

/// Settings are what their bytes say: those of other bytes are read, which say something else.
pub fn settings_of_other_bytes(
    alloc: Global,
    bytes: &[u8],
    other: &[u8],
) -> Result<Settings, SettingsError>
    requires apart { settings_of other.now ≢ settings_of bytes.now }
    ensures wrong { IfOk result (λ s. settings_of bytes.now ≡ Ok s → ⊥) }
{
    read_settings(alloc, other)
}

/// The first ring with a fault is reported, by its place: another place is reported.
pub fn fault_of_another_ring(alloc: Global, bytes: &[u8]) -> Option<Result<Settings, SettingsError>>
    ensures wrong { IfSome result (λ answer.
        IfErr answer (λ e. (e ≢ SettingsError.OutOfMemory → settings_of bytes.now ≡ Err e) → ⊥)) }
{
    match read_settings(alloc, bytes) {
        Err(SettingsError::Ring(place, cause)) => {
            let other = if place == 0 { 1 } else { 0 };
            Some(Err(SettingsError::Ring(other, cause)))
        }
        _ => None,
    }
}

/// The first entry of a script that is not an action is reported: another place is reported.
pub fn fault_of_another_entry(
    alloc: Global,
    bytes: &[u8],
) -> Option<Result<Settings, SettingsError>>
    ensures wrong { IfSome result (λ answer.
        IfErr answer (λ e. (e ≢ SettingsError.OutOfMemory → settings_of bytes.now ≡ Err e) → ⊥)) }
{
    match read_settings(alloc, bytes) {
        Err(SettingsError::Script(seat, place)) => {
            let other = if place == 0 { 1 } else { 0 };
            Some(Err(SettingsError::Script(seat, other)))
        }
        _ => None,
    }
}

/// Settings are refused only where something is wrong with them: others are refused as not JSON.
pub fn settings_that_are_refused(
    alloc: Global,
    bytes: &[u8],
) -> Option<Result<Settings, SettingsError>>
    ensures wrong { IfSome result (λ answer.
        IfErr answer (λ e. (e ≢ SettingsError.OutOfMemory → settings_of bytes.now ≡ Err e) → ⊥)) }
{
    match read_settings(alloc, bytes) {
        Ok(_) => Some(Err(SettingsError::Json)),
        Err(_) => None,
    }
}

/// A farm has at most as many rings as the definitions say: one more is allowed.
pub fn ring_limit_one_too_far() -> usize
    ensures wrong { result ≡ ring_limit → ⊥ }
{
    RING_LIMIT + 1
}

/// A farm has at most as many workers as the definitions say: one more is allowed.
pub fn worker_limit_one_too_far() -> usize
    ensures wrong { result ≡ worker_limit → ⊥ }
{
    WORKER_LIMIT + 1
}

/// A plan has at most as many actions as the definitions say: one more is allowed.
pub fn action_limit_one_too_far() -> u32
    ensures wrong { result ≡ action_limit → ⊥ }
{
    ACTION_LIMIT + 1
}

/// A ring starts as the settings say of it: the start of another ring is returned, which is another.
pub fn start_of_another_ring(settings: &Settings, ring: usize, other: usize) -> &[u32]
    requires other { other < length settings.now.rings }
    requires apart { (ring_at settings.now other).start ≢ (ring_at settings.now ring).start }
    ensures wrong { result.now ≡ (ring_at settings.now ring).start → ⊥ }
{
    settings.start(other)
}
