//! The holds of the locks of a chain of files, one after the other, and those of a saved history.

ghost use Rattle.std.specs.Prelude.{◌≡◌, ◌≤◌, ◌+◌, [], length, map, None, Ok, OnOk, IfOk, IfErr};
ghost use Rattle.saved_history.specs.Content.{block_of, content};
ghost use Rattle.segment_files.specs.Chain.{sums_at};
ghost use Rattle.chain_readers.specs.Known.{known, all_holds};
ghost use Rattle.chain_readers.specs.Chains.{IsHeldWith, IsHoldRefusal, parts_of, locks_opened, started, part_of, unknown};
ghost use Rattle.chain_readers.specs.ChainSteps.{refused_at, ArePartsRead, AreBlocksHeld, AreBlocksRefused};

use crate::hold_errors::{ChainHoldError, HoldError};
use crate::holds::Hold;
use crate::reader::HoldReader;
use ring_model::Base;
use saved_history::{Saved, SavedRing};
use segment_files::{Chain, ChainSums, SegmentError, one_file, read_segment};
use std::alloc::{AllocError, Global};
use std::marker::Model;

/// Before the first segment of a ring that there is.
fn start(alloc: Global, base: &Base, ring: &SavedRing) -> HoldReader
    ensures { known result ≡ started (record { base = base.now; block = block_of ring.now }) }
{
    let _ = ring; // says: which ring's start it is
    if base.events == 0 {
        HoldReader::first(alloc)
    } else {
        HoldReader::later(alloc)
    }
}

/// Puts the locks more of a file after those that there are.
fn open_more(
    alloc: Global,
    locks: &mut Vec<HoldReader>,
    bases: &[Base],
    rings: &[SavedRing],
) -> Result<(), AllocError>
    ensures { OnOk result (map known locks.new.items
        ≡ locks_opened (map known locks.old.items) (parts_of bases.now (map block_of rings.now))) }
{
    let count = bases.len().min(rings.len());
    for i in locks.len()..count {
        locks.push(start(alloc, &bases[i], &rings[i]))?;
    }
    Ok(())
}

/// A refusal of a segment of the lock of this number.
fn refused_at(lock: u64, error: HoldError) -> ChainHoldError
    ensures { result ≡ refused_at lock error }
{
    match error {
        HoldError::NoHold(at) => ChainHoldError::NoHold { lock, at },
        HoldError::OutOfMemory => ChainHoldError::OutOfMemory,
    }
}

/// Reads the next segment of each lock.
fn add_parts(
    alloc: Global,
    locks: &mut Vec<HoldReader>,
    bases: &[Base],
    rings: &[SavedRing],
) -> Result<(), ChainHoldError>
    ensures { ArePartsRead (map known locks.old.items)
        (parts_of bases.now (map block_of rings.now)) result (map known locks.new.items) }
{
    let count = locks.len().min(bases.len()).min(rings.len());
    for i in 0..count {
        match locks[i].add(alloc, &bases[i], &rings[i]) {
            Ok(()) => {}
            Err(error) => return Err(refused_at(i as u64, error)),
        }
    }
    Ok(())
}

/// All holds of each lock.
fn holds_of(alloc: Global, locks: Vec<HoldReader>) -> Result<Vec<Vec<Hold>>, AllocError>
    ensures { IfOk result
        (λ found. map (λ v. v.items) found.items ≡ map all_holds (map known locks.items)) }
{
    let mut found = Vec::new(alloc);
    for lock in locks {
        found.push(lock.holds()?)?;
    }
    Ok(found)
}

/// The holds of the locks of the files so far.
#[derive(Drop)]
pub struct HoldChain {
    chain: Chain,
    locks: Vec<HoldReader>,
}

impl Model for HoldChain {
    ghost use Rattle.std.specs.Prelude.{map};
    ghost use Rattle.chain_readers.specs.Known.{known};
    ghost use Rattle.chain_readers.specs.Chains.{HoldsSoFar};

    ghost Value = { HoldsSoFar };

    ghost view = { λ c. record { state = c.chain; locks = map known c.locks.items } };
}

impl HoldChain {
    /// No file yet.
    pub fn new(alloc: Global) -> HoldChain
        ensures { result ≡ record { state = None; locks = [] } }
    {
        HoldChain {
            chain: Chain::new(),
            locks: Vec::new(alloc),
        }
    }

    /// The same with the next file of the chain, which may be the last one.
    ///
    /// The file is checked as [`Chain::add`] does, and then read once more: it takes time as two recoveries do.
    ///
    /// # Errors
    ///
    /// `Segment` with the first reason why the file does not follow; `NoHold` with the first lock that has a segment in it that
    /// is not that of a lock, and the first place there; `OutOfMemory`.
    pub fn with_file(
        self,
        alloc: Global,
        bytes: &[u8],
        last: bool,
    ) -> Result<HoldChain, ChainHoldError>
        ensures ok { IfOk result (λ new. IsHeldWith self bytes.now last new) }
        ensures err { IfErr result (λ e. IsHoldRefusal self bytes.now last e) }
    {
        let HoldChain {
            mut chain,
            mut locks,
        } = self;
        match chain.add(alloc, bytes, last) {
            Ok(()) => {}
            Err(SegmentError::OutOfMemory) => return Err(ChainHoldError::OutOfMemory),
            Err(error) => return Err(ChainHoldError::Segment(error)),
        }
        one_file(); // says: the file that is read is the one that was added
        let Ok(segment) = read_segment(alloc, bytes) else {
            // it was read before, so this is out of memory
            return Err(ChainHoldError::OutOfMemory);
        };
        open_more(alloc, &mut locks, &segment.head.bases, &segment.saved.rings)?;
        match add_parts(alloc, &mut locks, &segment.head.bases, &segment.saved.rings) {
            Ok(()) => Ok(HoldChain { chain, locks }),
            Err(error) => Err(error),
        }
    }

    /// What the files add up to.
    pub fn sums(&self) -> ChainSums
        ensures { result ≡ sums_at self.now.state }
    {
        self.chain.sums()
    }

    /// All holds of each lock, in the order of their numbers.
    ///
    /// # Errors
    ///
    /// Out of memory.
    pub fn holds(self, alloc: Global) -> Result<Vec<Vec<Hold>>, AllocError>
        ensures { IfOk result
            (λ found. map (λ v. v.items) found.items ≡ map all_holds self.locks) }
    {
        let HoldChain { locks, .. } = self;
        holds_of(alloc, locks)
    }
}

/// Before each of these rings, of which it is not known what came before.
fn unknown_locks(alloc: Global, rings: &[SavedRing]) -> Result<Vec<HoldReader>, AllocError>
    ensures { IfOk result
        (λ locks. map known locks.items ≡ map unknown (map block_of rings.now)) }
{
    let mut locks = Vec::new(alloc);
    for _ring in rings {
        locks.push(HoldReader::later(alloc))?;
    }
    Ok(locks)
}

/// For each of these rings the base before which nothing came.
fn no_bases(alloc: Global, rings: &[SavedRing]) -> Result<Vec<Base>, AllocError>
    ensures { IfOk result (λ bases. parts_of bases.items (map block_of rings.now)
        ≡ map part_of (map block_of rings.now)) }
{
    let bases = vec![in alloc; Base::none(); rings.len()]?;
    Ok(bases)
}

/// All holds of each lock of a saved history. Each may be a segment: its first event may carry a hold.
///
/// # Errors
///
/// `NoHold` with the first lock whose history is not that of a lock, and the first place there; `OutOfMemory`.
pub fn holds_of_saved(alloc: Global, saved: &Saved) -> Result<Vec<Vec<Hold>>, ChainHoldError>
    ensures ok { IfOk result
        (λ found. AreBlocksHeld (content saved.now).rings (map (λ v. v.items) found.items)) }
    ensures err { IfErr result (λ e. AreBlocksRefused (content saved.now).rings e) }
{
    let mut locks = unknown_locks(alloc, &saved.rings)?;
    let bases = no_bases(alloc, &saved.rings)?;
    match add_parts(alloc, &mut locks, &bases, &saved.rings) {
        Ok(()) => {}
        Err(error) => return Err(error),
    }
    match holds_of(alloc, locks) {
        Ok(holds) => Ok(holds),
        Err(_) => Err(ChainHoldError::OutOfMemory),
    }
}
