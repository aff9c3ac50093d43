//! All rings of the settings, one after the other.
ghost use Rattle.std.specs.Prelude.{◌≡◌, ◌≤◌, All, IfOk, IfErr, map, length, vec_len};
ghost use Rattle.ring_model.specs.Limits.{seat_limit};
ghost use Rattle.ring_settings.specs.Contents.{IsSettings, plans_of};
ghost use Rattle.ring_settings.specs.Views.{plan_actions};
ghost use Rattle.ring_farm.specs.Headline.{IsFarmOf};
ghost use Rattle.ring_farm.specs.Consequences.{IsLawfulFarm};
ghost use Rattle.ring_farm.specs.Plans.{IsShort};
ghost use Rattle.farm_in_turn.specs.InTurn.{AreInTurn};
ghost use Rattle.farm_in_turn.specs.Rings.{AreRunsInTurn};
ghost use Rattle.farm_in_turn.specs.Refusals.{IsTurnsFault};

use crate::rings::run_ring;
use ring_farm::{FarmError, Outcome};
use ring_logs::RingOutcome;
use ring_settings::{Plan, Settings, plans};
use std::alloc::Global;

/// Runs each ring of the settings, one after the other.
fn run_each(
    alloc: Global,
    settings: &Settings,
    plans: &[Plan],
    seed: u64,
) -> Result<Vec<RingOutcome>, FarmError>
    requires seats { length plans.now ≡ length settings.now.seats }
    requires few_seats { length plans.now ≤ seat_limit }
    requires few { All IsShort plans.now }
    requires plans { map plan_actions plans.now ≡ plans_of settings.now }
    ensures settings { IsSettings settings.now }
    ensures count { IfOk result (λ v. vec_len v ≡ length settings.now.rings) }
    ensures each { IfOk result (λ v. AreRunsInTurn settings.now plans.now seed v.items) }
    ensures err { IfErr result (λ e. IsTurnsFault settings.now e) }
{
    let count = settings.ring_count();
    let Ok(mut rings) = Vec::with_capacity(alloc, count) else {
        return Err(FarmError::OutOfMemory);
    };
    for ring in 0..count {
        match run_ring(alloc, settings, plans, seed, ring) {
            Ok(outcome) => rings.push_reserved(outcome),
            Err(fault) => return Err(fault),
        }
    }
    Ok(rings)
}

/// Runs the rings of the settings on this thread, one after the other. On each ring the next action is that of a seat that is
/// drawn among those that have one left; so the outcome is a function of the settings and the seed.
///
/// At Ok it is such as [`run_farm`](ring_farm::run_farm) hands out (`headline`, `lawful`), and each ring's history and logs are
/// those of the turns that the generator of the seed and of the ring's number draws (`in_turn`).
///
/// # Errors
///
/// `HistoryFull` where the plans have more passes and corruptions for one of the rings than a history may have; else
/// `OutOfMemory`. Nothing of a refused run is kept.
pub fn run_in_turn(alloc: Global, settings: &Settings, seed: u64) -> Result<Outcome, FarmError>
    ensures headline { IfOk result (IsFarmOf settings.now) }
    ensures lawful { IfOk result (IsLawfulFarm settings.now) }
    ensures in_turn { IfOk result (AreInTurn settings.now seed) }
    ensures err { IfErr result (λ e. IsTurnsFault settings.now e) }
{
    let Ok(plans) = plans(alloc, settings) else {
        return Err(FarmError::OutOfMemory);
    };
    match run_each(alloc, settings, plans.as_slice(), seed) {
        Ok(rings) => Ok(Outcome { rings }),
        Err(fault) => Err(fault),
    }
}
