//! The check of a chain, one file after the other.

ghost use Rattle.std.specs.Prelude.{◌≡◌, List, ℕ, Option, None, Ok};
ghost use Rattle.segment_files.specs.Sums.{no_sums};
ghost use Rattle.segment_files.specs.Chain.{State, state_in, states_in, link_in, file_in, asked, sums_at, digest_at, IsReadSegment, IsRightStep, IsRightAdd};

use crate::digests::DIGEST_DIGITS;
use crate::errors::SegmentError;
use crate::links::{SegmentLink, after, opening, test};
use crate::segments::{Segment, read_segment};
use crate::sums::{ChainSums, none, sums_with};
use std::alloc::Global;
use std::marker::Model;

/// Where a chain is.
#[derive(Drop)]
pub struct Checked {
    pub(crate) link: SegmentLink,
    pub(crate) sums: ChainSums,
}

/// Where the chain is after a file, if it follows.
fn follow(
    alloc: Global,
    link: &SegmentLink,
    sums: ChainSums,
    segment: &Segment,
    bytes: &[u8],
    last: bool,
) -> Result<Checked, SegmentError>
    requires { IsReadSegment bytes.now (Ok segment.now) }
    ensures { (s : Option State) → asked s (file_in bytes.now segment.now) ≡ link_in link.now
        → sums_at s ≡ sums → IsRightStep state_in s bytes.now last result }
{
    test(link, segment)?;
    if !last && !segment.whole {
        return Err(SegmentError::Unfinished);
    }
    let link = after(alloc, bytes, segment)?;
    let sums = sums_with(sums, segment, &link);
    Ok(Checked { link, sums })
}

/// Where a chain is after these bytes.
fn step(
    alloc: Global,
    now: &Option<Checked>,
    bytes: &[u8],
    last: bool,
) -> Result<Checked, SegmentError>
    ensures { IsRightStep state_in (states_in now.now) bytes.now last result }
{
    let segment = read_segment(alloc, bytes)?;
    match now {
        Some(now) => follow(alloc, &now.link, now.sums, &segment, bytes, last),
        None => {
            let link = opening(alloc, &segment)?;
            follow(alloc, &link, none(), &segment, bytes, last)
        }
    }
}

/// A chain of files, as far as they were added.
#[derive(Drop)]
pub struct Chain {
    reached: Option<Checked>,
}

impl Model for Chain {
    ghost Value = { Option State };

    ghost view = { λ c. states_in c.reached };
}

impl Chain {
    /// No file yet.
    pub fn new() -> Chain
        ensures { result ≡ None }
    {
        Chain { reached: None }
    }

    /// Adds the next file of the chain, which may be the last one. Nothing may be left out of a file after which others
    /// come; from the last one the recovery may leave out its end, if that was cut. If the first file is not the first of
    /// all, what it says of those before it is taken on trust.
    ///
    /// It takes time and memory as [`recover_journal`](journal::recover_journal) does, and keeps nothing of the file
    /// but its digest, and where its rings ended.
    ///
    /// # Errors
    ///
    /// The first reason why the file does not follow, in the order of [`SegmentError`]. The chain is then as before.
    pub fn add(&mut self, alloc: Global, bytes: &[u8], last: bool) -> Result<(), SegmentError>
        ensures { IsRightAdd self.old bytes.now last self.new result }
    {
        let next = step(alloc, &self.reached, bytes, last)?;
        self.reached = Some(next);
        Ok(())
    }

    /// What the files add up to.
    pub fn sums(&self) -> ChainSums
        ensures { result ≡ sums_at self.now }
    {
        match &self.reached {
            Some(reached) => reached.sums,
            None => none(),
        }
    }

    /// The digest of the last file that was added, which the next one must have; 64 times 0 if there is none.
    pub fn digest(&self) -> [u8; DIGEST_DIGITS]
        ensures { result ≡ digest_at self.now }
    {
        match &self.reached {
            Some(reached) => reached.link.behind,
            None => [b'0'; DIGEST_DIGITS],
        }
    }
}
