//! `new`: the saved history of settled rings that have no events yet.

ghost use Rattle.std.specs.Prelude.{◌≡◌, ◌≢◌, ◌<◌, ◌^◌, IfOk, IfErr, OnOk, length, map};
ghost use Rattle.std.specs.List.{All};
ghost use Rattle.ring_state.specs.Sizes.{IsSize};
ghost use Rattle.saved_history.specs.Content.{block_of, content};
ghost use Rattle.run_commands.specs.Fresh.{fresh_block, fresh_blocks, fresh, AreSizes, FreshIsSettled};
ghost use Rattle.run_commands.specs.New.{size_given, IsRingRefusal, IsSizesRefusal, IsNewAnswer, IsNewRefusal};

use ring_check::legal_as_defined;
use ring_settings::RingCause;
use ring_state::{Params, ParamsError};
use saved_history::{LATEST_VERSION, Saved, SavedRing, write_saved};
use std::alloc::{AllocError, Global};
use std::io::Write;
use tool_parts::faults::ToolError;
use tool_parts::requests::{NewWords, RingSize};

/// Rings of sizes that are allowed are settled from the start, and their history without events is legal.
pub fn fresh_is_settled()
    ensures { FreshIsSettled }
{
    legal_as_defined(); // says: a text is legal by the table if it is right in the subject's words
}

/// The size of the ring at this place.
///
/// # Errors
///
/// `Ring` with the place and the first fault of the size.
fn allowed<'a>(place: usize, size: RingSize) -> Result<Params, ToolError<'a>>
    ensures ok { IfOk result (λ p. (p ≡ size_given size) × IsSize (size_given size)) }
    ensures err { IfErr result (λ e. IsRingRefusal place (size_given size) e) }
{
    match Params::new(size.n, size.k) {
        Ok(params) => Ok(params),
        Err(ParamsError::TooFew) => Err(ToolError::Ring(place, RingCause::TooFew)),
        Err(ParamsError::TooMany) => Err(ToolError::Ring(place, RingCause::TooMany)),
        Err(ParamsError::FewValues) => Err(ToolError::Ring(place, RingCause::FewValues)),
        Err(ParamsError::ManyValues) => Err(ToolError::Ring(place, RingCause::ManyValues)),
    }
}

/// The ring of this size at its place, whose machines all have the value 0, before any event.
fn fresh_ring(alloc: Global, place: u32, size: Params) -> Result<SavedRing, AllocError>
    ensures { IfOk result (λ ring. block_of ring ≡ fresh_block place size) }
{
    let n = size.n();
    let start = vec![in alloc; 0u32; n as usize]?;
    Ok(SavedRing {
        index: place,
        n,
        k: size.k(),
        start,
        events: Vec::new(alloc),
        events_said: 0,
        surveys: Vec::new(alloc),
    })
}

/// The ring of this size at its place, if the size is allowed.
fn ring_at<'a>(alloc: Global, place: usize, size: RingSize) -> Result<SavedRing, ToolError<'a>>
    requires { place < 2 ^ 32 }
    ensures ok { IfOk result (λ ring. (block_of ring ≡ fresh_block place (size_given size))
        × IsSize (size_given size)) }
    ensures err { IfErr result (λ e. IsRingRefusal place (size_given size) e) }
{
    let params = allowed(place, size)?;
    match fresh_ring(alloc, place as u32, params) {
        Ok(ring) => Ok(ring),
        Err(_) => Err(ToolError::OutOfMemory),
    }
}

/// The rings of these sizes, if all are allowed.
fn fresh_rings<'a>(alloc: Global, sizes: &[RingSize]) -> Result<Vec<SavedRing>, ToolError<'a>>
    requires { length sizes.now < 2 ^ 32 }
    ensures ok { IfOk result (λ rings.
        (map block_of rings.items ≡ fresh_blocks 0 (map size_given sizes.now))
        × All IsSize (map size_given sizes.now)) }
    ensures err { IfErr result (λ e. IsSizesRefusal (map size_given sizes.now) e) }
{
    let mut rings = Vec::new(alloc);
    for (place, size) in sizes.iter().enumerate() {
        let ring = ring_at(alloc, place, *size)?;
        let Ok(()) = rings.push(ring) else {
            return Err(ToolError::OutOfMemory);
        };
    }
    Ok(rings)
}

/// The history of rings of these sizes without events.
fn fresh<'a>(alloc: Global, sizes: &[RingSize]) -> Result<Saved, ToolError<'a>>
    ensures ok { IfOk result (λ saved. (content saved ≡ fresh (map size_given sizes.now))
        × AreSizes (map size_given sizes.now)) }
    ensures err { IfErr result (λ e. IsSizesRefusal (map size_given sizes.now) e) }
{
    if sizes.is_empty() {
        return Err(ToolError::NoRing(0));
    }
    let Ok(count) = u32::try_from(sizes.len()) else {
        return Err(ToolError::TotalsTooLarge);
    };
    let rings = fresh_rings(alloc, sizes)?;
    Ok(Saved {
        version: LATEST_VERSION,
        rings,
        rings_said: count,
    })
}

/// `new`, from its words: writes the saved text of settled rings of the given sizes, without events.
///
/// # Errors
///
/// `NoRing` if there is no ring, `TotalsTooLarge` if there are too many for a saved text, `Ring` with the place of the
/// first ring whose size is not allowed and its fault, and `OutOfMemory`: nothing is written then. `Write` if the writer
/// fails: the bytes written until then are a prefix of the text.
pub fn run<'a, W: Write>(alloc: Global, words: &NewWords, out: &mut W) -> Result<(), ToolError<'a>>
    ensures ok { OnOk result (IsNewAnswer words.now (W.contents out.old) (W.contents out.new)) }
    ensures err { IfErr result
        (λ e. IsNewRefusal words.now (W.contents out.old) (W.contents out.new) e) }
    ensures nothing { IfErr result (λ e. e ≢ ToolError.Write → out.new ≡ out.old) }
{
    fresh_is_settled(); // says: these rings are settled, and their history is legal
    let saved = fresh(alloc, words.rings.as_slice())?;
    write_saved(&saved, out)?;
    Ok(())
}
