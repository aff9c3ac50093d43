//! Rings of given sizes, with the values that their machines start with.

ghost use Rattle.std.specs.Prelude.{◌≡◌, ◌<◌, ◌≤◌, ◌^◌, IfOk, IfErr, Some, length, map, vec_len};
ghost use Rattle.std.specs.List.{All};
ghost use Rattle.ring_settings.specs.Rings.{size_fault};
ghost use Rattle.ring_state.specs.Sizes.{IsSize};
ghost use Rattle.ring_repairs.specs.declared.starts.Start.TheVariants as start;
ghost use Rattle.ring_repairs.specs.Draws.{generator};
ghost use Rattle.ring_repairs.specs.Starts.{start_values};
ghost use Rattle.saved_history.specs.Content.{block_of};
ghost use Rattle.setup_commands.specs.Rings.{size_given, start_of, ring_of, rings_of, block_at, blocks_from, AreSizes, IsRingRefusal, IsRingsRefusal};

use ring_repairs::{draw, generator};
use ring_settings::RingCause;
use ring_state::{Params, ParamsError};
use saved_history::SavedRing;
use std::alloc::{AllocError, Global};
use tool_parts::faults::ToolError;
use tool_parts::requests::RingSize;

/// A drawn value for each machine: those with which the trial of this number starts, of trials from any state.
fn drawn_start(alloc: Global, seed: u64, trial: u64, size: &Params) -> Result<Vec<u32>, AllocError>
    ensures values { IfOk result
        (λ values. values.items ≡ start_values start.Any size.now 0 (generator seed trial)) }
    ensures long { IfOk result (λ values. vec_len values ≡ size.now.n) }
{
    let mut words = generator(seed, trial);
    let mut values = Vec::new(alloc);
    for machine in 0..size.n() {
        let value = draw(&mut words, size.k());
        values.push(value)?;
    }
    Ok(values)
}

/// The values that the machines of the ring at this place start with: drawn ones if there is a seed, else 0.
fn start_at(
    alloc: Global,
    seed: Option<u64>,
    place: usize,
    size: &Params,
) -> Result<Vec<u32>, AllocError>
    ensures values { IfOk result (λ values. values.items ≡ start_of seed place size.now) }
    ensures long { IfOk result (λ values. vec_len values ≡ size.now.n) }
{
    match seed {
        None => vec![in alloc; 0u32; size.n() as usize],
        Some(seed) => drawn_start(alloc, seed, place as u64, size),
    }
}

/// The size, if it is allowed.
///
/// # Errors
///
/// Its first fault.
fn allowed(size: RingSize) -> Result<Params, RingCause>
    ensures ok { IfOk result (λ p. (p ≡ size_given size) × IsSize (size_given size)) }
    ensures err { IfErr result (λ cause. size_fault size.n size.k ≡ Some cause) }
{
    match Params::new(size.n, size.k) {
        Ok(params) => Ok(params),
        Err(ParamsError::TooFew) => Err(RingCause::TooFew),
        Err(ParamsError::TooMany) => Err(RingCause::TooMany),
        Err(ParamsError::FewValues) => Err(RingCause::FewValues),
        Err(ParamsError::ManyValues) => Err(RingCause::ManyValues),
    }
}

/// The ring of this size at its place, to which nothing has happened yet, if the size is allowed.
///
/// # Errors
///
/// `Ring` with the place and the first fault of the size, and `OutOfMemory`.
fn ring_at<'a>(
    alloc: Global,
    seed: Option<u64>,
    place: usize,
    size: RingSize,
) -> Result<SavedRing, ToolError<'a>>
    requires { place < 2 ^ 32 }
    ensures ok { IfOk result
        (λ ring. (block_of ring ≡ block_at place (ring_of seed place (size_given size)))
        × IsSize (size_given size)) }
    ensures err { IfErr result (λ e. IsRingRefusal place (size_given size) e) }
{
    let params = match allowed(size) {
        Ok(params) => params,
        Err(cause) => return Err(ToolError::Ring(place, cause)),
    };
    let start = match start_at(alloc, seed, place, &params) {
        Ok(start) => start,
        Err(AllocError) => return Err(ToolError::OutOfMemory),
    };
    Ok(SavedRing {
        index: place as u32,
        n: params.n(),
        k: params.k(),
        start,
        events: Vec::new(alloc),
        events_said: 0,
        surveys: Vec::new(alloc),
    })
}

/// The rings of these sizes, to which nothing has happened yet, if all are allowed.
///
/// # Errors
///
/// `Ring` with the place of the first size that is not allowed and its fault, and `OutOfMemory`.
fn all_rings<'a>(
    alloc: Global,
    seed: Option<u64>,
    sizes: &[RingSize],
) -> Result<Vec<SavedRing>, ToolError<'a>>
    requires { length sizes.now < 2 ^ 32 }
    ensures ok { IfOk result (λ rings.
        (map block_of rings.items ≡ blocks_from 0 (rings_of seed (map size_given sizes.now)))
        × All IsSize (map size_given sizes.now)) }
    ensures count { IfOk result (λ rings. length rings.items ≡ length sizes.now) }
    ensures err { IfErr result (λ e. IsRingsRefusal (map size_given sizes.now) e) }
{
    let mut rings = Vec::new(alloc);
    for (place, size) in sizes.iter().enumerate() {
        let ring = match ring_at(alloc, seed, place, *size) {
            Ok(ring) => ring,
            Err(fault) => return Err(fault),
        };
        let Ok(()) = rings.push(ring) else {
            return Err(ToolError::OutOfMemory);
        };
    }
    Ok(rings)
}

/// The rings of these sizes, to which nothing has happened yet, if there are some and all are allowed.
///
/// # Errors
///
/// `NoRing` if there is no size, `TotalsTooLarge` if there are too many for a saved history, and those of [`all_rings`].
pub(crate) fn rings_of<'a>(
    alloc: Global,
    seed: Option<u64>,
    sizes: &[RingSize],
) -> Result<Vec<SavedRing>, ToolError<'a>>
    ensures ok { IfOk result (λ rings.
        (map block_of rings.items ≡ blocks_from 0 (rings_of seed (map size_given sizes.now)))
        × AreSizes (map size_given sizes.now)) }
    ensures some { IfOk result (λ rings. 1 ≤ length rings.items) }
    ensures few { IfOk result (λ rings. length rings.items < 2 ^ 32) }
    ensures err { IfErr result (λ e. IsRingsRefusal (map size_given sizes.now) e) }
{
    if sizes.is_empty() {
        return Err(ToolError::NoRing(0));
    }
    let Ok(_count) = u32::try_from(sizes.len()) else {
        return Err(ToolError::TotalsTooLarge);
    };
    match all_rings(alloc, seed, sizes) {
        Ok(rings) => Ok(rings),
        Err(fault) => Err(fault),
    }
}
