//! The rings with which a file begins.

ghost use Rattle.std.specs.Prelude.{◌≡◌, map, Ok, IfOk, IfErr};
ghost use Rattle.saved_history.specs.Content.{block_of};
ghost use Rattle.segment_files.specs.Chain.{IsReadSegment};
ghost use Rattle.judged_files.specs.Beginnings.{beginning, open_token, AreRings, Begins, IsRingRead, refused_at, AreUnheld, IsUnbegun};

use crate::begin::beginning;
use crate::faults::JudgeError;
use chain_readers::{Hold, HoldError, HoldReader, holds_of_signs};
use name_check::Ring;
use ring_check::count_events;
use ring_model::Base;
use saved_history::SavedRing;
use segment_files::{Segment, SegmentError, read_segment};
use std::alloc::Global;

/// The token of the last of these holds, if it is open: none before it is.
fn open_token(holds: &[Hold]) -> Option<u64>
    ensures { result ≡ open_token holds.now }
{
    let Some(hold) = holds.last() else {
        return None;
    };
    if hold.end.is_none() {
        Some(hold.token)
    } else {
        None
    }
}

/// A ring after what is before the file and the events of its block.
fn ring_at(alloc: Global, base: &Base, ring: &SavedRing) -> Result<Ring, HoldError>
    ensures { IsRingRead base.now (block_of ring.now) result }
{
    let reader = match HoldReader::later(alloc).with_segment(alloc, base, ring) {
        Ok(reader) => reader,
        Err(error) => return Err(error),
    };
    let Ok(holds) = reader.holds() else {
        return Err(HoldError::OutOfMemory);
    };
    holds_of_signs(); // says: what was read are the holds of the block
    Ok(Ring {
        grants: base
            .grants
            .saturating_add(count_events(&ring.events).granted),
        held: open_token(&holds),
    })
}

/// A refusal of the block of the ring of this number.
fn refused_at(ring: u64, error: HoldError) -> JudgeError
    ensures { result ≡ refused_at ring error }
{
    match error {
        HoldError::NoHold(at) => JudgeError::NoHold { ring, at },
        HoldError::OutOfMemory => JudgeError::OutOfMemory,
    }
}

/// The rings after what is before the file and the events of their blocks.
fn rings_at(alloc: Global, bases: &[Base], rings: &[SavedRing]) -> Result<Vec<Ring>, JudgeError>
    ensures ok { IfOk result
        (λ found. AreRings bases.now (map block_of rings.now) found.items) }
    ensures err { IfErr result
        (λ e. AreUnheld bases.now (map block_of rings.now) e) }
{
    let mut found = Vec::new(alloc);
    let count = bases.len().min(rings.len());
    for i in 0..count {
        let ring = match ring_at(alloc, &bases[i], &rings[i]) {
            Ok(ring) => ring,
            Err(error) => return Err(refused_at(i as u64, error)),
        };
        let Ok(()) = found.push(ring) else {
            return Err(JudgeError::OutOfMemory);
        };
    }
    Ok(found)
}

/// The beginning of a file, read as one by itself.
fn begun_segment(alloc: Global, bytes: &[u8]) -> Result<Segment, JudgeError>
    ensures ok { IfOk result (λ s. IsReadSegment (beginning bytes.now) (Ok s)) }
    ensures err { IfErr result (λ e. IsUnbegun bytes.now e) }
{
    let Ok(begun) = beginning(alloc, bytes) else {
        return Err(JudgeError::OutOfMemory);
    };
    match read_segment(alloc, begun.as_slice()) {
        Ok(segment) => Ok(segment),
        Err(SegmentError::OutOfMemory) => Err(JudgeError::OutOfMemory),
        Err(error) => Err(JudgeError::Segment(error)),
    }
}

/// The rings with which a file begins.
///
/// # Errors
///
/// `NoHold`, `Segment`, `OutOfMemory`.
pub(crate) fn begun_rings(alloc: Global, bytes: &[u8]) -> Result<Vec<Ring>, JudgeError>
    ensures ok { IfOk result (λ rings. Begins bytes.now rings.items) }
    ensures err { IfErr result (λ e. IsUnbegun bytes.now e) }
{
    let segment = match begun_segment(alloc, bytes) {
        Ok(segment) => segment,
        Err(error) => return Err(error),
    };
    match rings_at(alloc, &segment.head.bases, &segment.saved.rings) {
        Ok(rings) => Ok(rings),
        Err(error) => Err(error),
    }
}
