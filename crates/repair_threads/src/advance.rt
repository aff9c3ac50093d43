//! The next trials of a study, by threads.
ghost use Rattle.std.specs.Prelude.{◌≡◌, ◌+◌, ◌<◌, ◌≤◌, ℕ, List, length, min, IfOk, OnOk, OnErr, slice_index_or};
ghost use Rattle.ring_repairs.specs.Limits.{trial_limit};
ghost use Rattle.ring_repairs.specs.Parts.{IsPart};
ghost use Rattle.ring_repairs.specs.Studies.{AreRepairs, trial_count};
ghost use Rattle.repair_threads.specs.Shares.{thread_limit, before, share};

use crate::counts::ThreadCount;
use crate::shares::before;
use rayon::prelude::*;
use ring_repairs::{Histogram, Repairs, Study, count_part};
use std::alloc::{AllocError, Global};
use std::thread::Threads;

/// What is split: trials from `first` on, into parts.
#[derive(Clone, Copy)]
struct Split {
    first: u64,
    trials: u64,
    parts: u32,
}

/// Counts the part at a place.
fn count_share(
    alloc: Global,
    study: &Study,
    split: Split,
    place: u32,
) -> Result<Histogram, AllocError>
    requires all { split.first + split.trials ≤ trial_count study.now }
    requires parts { split.parts ≤ thread_limit }
    requires place { place < split.parts }
    ensures { IfOk result (IsPart study.now
        (split.first + before split.trials split.parts place)
        (share split.trials split.parts place)) }
{
    study.count(); // says: they are within the limit
    let from = before(split.trials, split.parts, place);
    let until = before(split.trials, split.parts, place + 1);
    count_part(alloc, study, split.first + from, until - from)
}

/// Counts all parts, each in a thread.
fn count_shares(
    rt: &(impl Threads + Sync),
    alloc: Global,
    study: &Study,
    split: Split,
) -> Result<Vec<Histogram>, AllocError>
    requires all { split.first + split.trials ≤ trial_count study.now }
    requires parts { split.parts ≤ thread_limit }
    ensures long { IfOk result (λ v. length v.items ≡ split.parts) }
    ensures parts { IfOk result (λ v. (place : ℕ) (d : List ℕ) → place < split.parts
        → IsPart study.now (split.first + before split.trials split.parts place)
        (share split.trials split.parts place) (slice_index_or v.items place d)) }
{
    (0..split.parts)
        .into_par_iter()
        .with_min_len(1)
        .map(
            |place: u32| -> Result<Histogram, AllocError>
                requires { (split.first + split.trials ≤ trial_count study.now)
                    × (split.parts ≤ thread_limit)
                    × (place < split.parts) }
                ensures { IfOk result (IsPart study.entry.now
                    (split.first + before split.trials split.parts place)
                    (share split.trials split.parts place)) }
            { count_share(alloc, study, split, place) },
        )
        .collect::<Result<Vec<Histogram>, AllocError>>(rt, alloc)?
}

/// Joins the parts of a split.
fn join_shares(repairs: &mut Repairs, split: Split, shares: &[Histogram])
    requires first { split.first ≡ repairs.old.done }
    requires some { 0 < split.parts }
    requires few { split.parts ≤ thread_limit }
    requires trials { split.trials ≤ trial_limit }
    requires long { length shares.now ≡ split.parts }
    requires parts { (place : ℕ) (d : List ℕ) → place < split.parts
        → IsPart repairs.old.study (split.first + before split.trials split.parts place)
        (share split.trials split.parts place) (slice_index_or shares.now place d) }
    ensures study { repairs.new.study ≡ repairs.old.study }
    ensures done { repairs.new.done ≡ repairs.old.done + split.trials }
    ensures counted { AreRepairs repairs.new }
{
    repairs.passes(); // says: it counts each trial once
    for place in 0..split.parts {
        let from = before(split.trials, split.parts, place);
        let until = before(split.trials, split.parts, place + 1);
        repairs.join(until - from, &shares[place as usize]);
    }
}

/// Does the next trials, `most` of them, or fewer where fewer are left, in as many threads as are asked for, or as there are processors
/// where these are fewer. What it counts is what [`Repairs::advance`] does, whatever the number of threads.
///
/// # Errors
///
/// Only if memory runs out: no more trials are done then. With one thread it takes no memory.
pub fn advance_on(
    rt: &(impl Threads + Sync),
    alloc: Global,
    repairs: &mut Repairs,
    threads: ThreadCount,
    most: u64,
) -> Result<(), AllocError>
    ensures done { OnOk result (repairs.new.done
        ≡ min (repairs.old.done + most) (trial_count repairs.old.study)) }
    ensures err { OnErr result (repairs.new ≡ repairs.old) }
    ensures study { repairs.new.study ≡ repairs.old.study }
    ensures counted { AreRepairs repairs.new }
{
    let threads = threads.get();
    if threads == 1 {
        repairs.advance(most);
        return Ok(());
    }
    repairs.passes(); // says: it counts each trial once
    let left = repairs.study().count() - repairs.done();
    let split = Split {
        first: repairs.done(),
        trials: most.min(left),
        parts: threads,
    };
    let shares = count_shares(rt, alloc, repairs.study(), split)?;
    join_shares(repairs, split, shares.as_slice());
    Ok(())
}
