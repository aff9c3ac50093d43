//! The files of a chain, joined one after the other.

ghost use Rattle.std.specs.Prelude.{◌≡◌, ◌≢◌, ◌<◌, ◌^◌, ℕ, List, [], length, map, None, IfOk, IfErr, Err};
ghost use Rattle.saved_history.specs.Content.{content, block_of};
ghost use Rattle.ring_check.specs.Legal.{IsLegalText, summary_of};
ghost use Rattle.journal.specs.Prefixes.{CanBeSaved};
ghost use Rattle.segment_files.specs.Chain.{sums_at};
ghost use Rattle.chain_readers.specs.Joining.{content_of};
ghost use Rattle.chain_readers.specs.Joins.{Joined, IsJoinedWith, IsJoinRefusal, IsCount};

use crate::join_errors::JoinError;
use crate::joined_lines::{are_few_lines, overfull};
use crate::rings::add_file;
use journal::all_in_order;
use ring_check::{Summary, check_saved};
use saved_history::{LATEST_VERSION, Saved, SavedRing};
use segment_files::{Chain, ChainSums, SegmentError, one_file, read_segment};
use std::alloc::{AllocError, Global};
use std::marker::Model;

/// The files of a chain so far, as one history.
#[derive(Drop)]
pub struct Join {
    chain: Chain,
    rings: Vec<SavedRing>,
}

impl Model for Join {
    ghost use Rattle.std.specs.Prelude.{map};
    ghost use Rattle.saved_history.specs.Content.{block_of};
    ghost use Rattle.chain_readers.specs.Joins.{Joined};

    ghost Value = { Joined };

    ghost view = { λ j. record { state = j.chain; blocks = map block_of j.rings.items } };
}

impl Join {
    /// No file yet.
    pub fn new(alloc: Global) -> Join
        ensures { result ≡ record { state = None; blocks = [] } }
    {
        Join {
            chain: Chain::new(),
            rings: Vec::new(alloc),
        }
    }

    /// The next file of the chain, after those that were joined; it may be the last one.
    ///
    /// The file is checked as [`Chain::add`] does, and then read once more: it takes time as two recoveries do.
    ///
    /// # Errors
    ///
    /// `Segment` with the first reason why the file does not follow; `Full` with the first place of a ring that has more than
    /// 4,000,000 events with it; `OutOfMemory`.
    pub fn with_file(self, alloc: Global, bytes: &[u8], last: bool) -> Result<Join, JoinError>
        ensures ok { IfOk result (λ new. IsJoinedWith self bytes.now last new) }
        ensures err { IfErr result (λ e. IsJoinRefusal self bytes.now last e) }
    {
        let Join {
            mut chain,
            mut rings,
        } = self;
        match chain.add(alloc, bytes, last) {
            Ok(()) => {}
            Err(SegmentError::OutOfMemory) => return Err(JoinError::OutOfMemory),
            Err(error) => return Err(JoinError::Segment(error)),
        }
        one_file(); // says: the file that is read is the one that was added
        let Ok(segment) = read_segment(alloc, bytes) else {
            // it was read before, so this is out of memory
            return Err(JoinError::OutOfMemory);
        };
        add_file(alloc, &mut rings, &segment.head.bases, &segment.saved.rings)?;
        match overfull(&rings) {
            None => Ok(Join { chain, rings }),
            Some(place) => Err(JoinError::Full(place)),
        }
    }

    /// What the files add up to.
    pub fn sums(&self) -> ChainSums
        ensures { result ≡ sums_at self.now.state }
    {
        self.chain.sums()
    }

    /// The whole history of the files, with its sums. A chain has at least one ring, and fewer than 2 to the power 32.
    ///
    /// # Errors
    ///
    /// Out of memory.
    pub fn finish(self, alloc: Global) -> Result<(Saved, Summary), AllocError>
        requires { IsCount (length self.blocks) }
        ensures whole { IfOk result (λ x. content x.0 ≡ content_of self.blocks) }
        ensures legal { IfOk result (λ x. IsLegalText (content x.0)) }
        ensures saved { IfOk result (λ x. CanBeSaved (content x.0)) }
        ensures sums { IfOk result (λ x. x.1 ≡ summary_of (content x.0)) }
    {
        let rings_said = self.rings.len() as u32;
        let saved = Saved {
            version: LATEST_VERSION,
            rings: all_in_order(alloc, self.rings)?,
            rings_said,
        };
        if !are_few_lines(&saved.rings) {
            return Err(AllocError);
        }
        match check_saved(alloc, &saved) {
            Ok(sums) => Ok((saved, sums)),
            // the whole history of a chain is legal, so this is out of memory
            Err(_) => Err(AllocError),
        }
    }
}
