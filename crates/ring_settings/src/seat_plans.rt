ghost use Rattle.std.specs.Prelude.{◌≡◌, ◌<◌, ◌≤◌, ℕ, IfOk, All, length, map, vec_len, slice_index_or};
ghost use Rattle.ring_settings.specs.Limits.{action_limit};
ghost use Rattle.ring_model.specs.Limits.{seat_limit};
ghost use Rattle.ring_settings.specs.Actions.{IsActionFor};
ghost use Rattle.ring_settings.specs.Contents.{IsSeatFor, sizes_of, seat_plan, plan_of, plans_of};
ghost use Rattle.ring_settings.specs.Draws.{drawn, seat_stream};
ghost use Rattle.ring_settings.specs.Views.{seat_data, plan_actions};
ghost use Rattle.ring_settings.specs.declared.actions.Plan.{Plan};

use crate::actions::{Plan, Role};
use crate::contents::{SeatSetting, Settings};
use crate::draws::draw_plan;
use rand_pcg::Lcg64Xsh32;
use ring_state::Params;
use std::alloc::{AllocError, Global};

/// Draws the plan of a seat from the generator `Lcg64Xsh32::new(seed, seat)`.
fn draw_seat(
    alloc: Global,
    seed: u64,
    seat: usize,
    role: Role,
    sizes: &[Params],
    actions: u32,
) -> Result<Plan, AllocError>
    requires some { 0 < length sizes.now }
    requires most { actions ≤ action_limit }
    ensures { IfOk result (λ p. p.actions.items
        ≡ drawn role sizes.now actions (seat_stream seed seat)) }
{
    let mut g = Lcg64Xsh32::new(seed, seat as u64);
    draw_plan(alloc, &mut g, role, sizes, actions)
}

/// The plan of a seat of this number.
fn seat_plan(
    alloc: Global,
    sizes: &[Params],
    seat: usize,
    setting: &SeatSetting,
) -> Result<Plan, AllocError>
    requires some { 0 < length sizes.now }
    requires fits { IsSeatFor sizes.now (seat_data setting.now) }
    ensures { IfOk result (λ p. p.actions.items
        ≡ seat_plan sizes.now seat (seat_data setting.now)) }
{
    match setting {
        SeatSetting::Script(script) => {
            let actions = Vec::from_slice(alloc, script.as_slice())?;
            Ok(Plan { actions })
        }
        SeatSetting::Drawn {
            role,
            seed,
            actions,
        } => draw_seat(alloc, *seed, seat, *role, sizes, *actions),
    }
}

/// The plans of a farm: one for each seat, the workers' in their order and then the injector's.
///
/// There are 1 to `SEAT_LIMIT` plans, each with at most `ACTION_LIMIT` actions. Each action is for a ring that is there,
/// a machine of that ring, and a value below its K.
///
/// # Errors
///
/// Only if memory runs out.
pub fn plans(alloc: Global, settings: &Settings) -> Result<Vec<Plan>, AllocError>
    ensures is { IfOk result (λ ps. map plan_actions ps.items ≡ plans_of settings.now) }
    ensures count { IfOk result (λ ps. vec_len ps ≡ length settings.now.seats) }
    ensures plan { IfOk result (λ ps. (seat : ℕ) (d : Plan) → seat < vec_len ps
        → plan_actions (slice_index_or ps.items seat d) ≡ plan_of settings.now seat) }
    ensures some { IfOk result (λ ps. 1 ≤ vec_len ps) }
    ensures most { IfOk result (λ ps. vec_len ps ≤ seat_limit) }
    ensures few { IfOk result (λ ps. All (λ p. length p.actions.items ≤ action_limit) ps.items) }
    ensures fits { IfOk result (λ ps.
        All (λ p. All (IsActionFor (sizes_of settings.now.rings)) p.actions.items) ps.items) }
{
    let sizes = settings.sizes(alloc)?;
    let mut plans = Vec::new(alloc);
    for seat in 0..settings.seat_count() {
        let plan = seat_plan(alloc, sizes.as_slice(), seat, settings.seat(seat))?;
        plans.push(plan)?;
    }
    Ok(plans)
}
