//! Parts of the trials of a study, each counted by itself.
ghost use Rattle.std.specs.Prelude.{◌≡◌, ◌+◌, ◌≤◌, IfOk};
ghost use Rattle.ring_model.specs.RepairLaws.{longest_repair};
ghost use Rattle.ring_state.specs.Sizes.{size_of};
ghost use Rattle.ring_repairs.specs.Histograms.{IsEmpty};
ghost use Rattle.ring_repairs.specs.Parts.{IsPart};
ghost use Rattle.ring_repairs.specs.Studies.{trial_count};

use crate::histograms::Histogram;
use crate::studies::Study;
use crate::trials::{count_trials, longest_repair};
use ring_state::RingState;
use std::alloc::{AllocError, Global};

/// A histogram in which nothing is counted, with an entry for each number that a trial can have, and a ring as the place for trials.
pub(crate) fn place_for(alloc: Global, study: &Study) -> Result<(Histogram, RingState), AllocError>
    ensures none { IfOk result (λ p. IsEmpty (longest_repair study.now.size.n + 1) p.0) }
    ensures size { IfOk result (λ p. size_of p.1 ≡ study.now.size) }
{
    let size = study.size();
    let passes = Histogram::new(alloc, longest_repair(size.n()) as u32 + 1)?;
    let values = vec![in alloc; 0u32; size.n() as usize]?;
    let Ok(ring) = RingState::from_values(alloc, &size, values.as_slice()) else {
        return Err(AllocError);
    };
    Ok((passes, ring))
}

/// How many of the trials from `first` on, `trials` of them, took each number of passes.
///
/// # Errors
///
/// Only if memory runs out.
pub fn count_part(
    alloc: Global,
    study: &Study,
    first: u64,
    trials: u64,
) -> Result<Histogram, AllocError>
    requires { first + trials ≤ trial_count study.now }
    ensures { IfOk result (IsPart study.now first trials) }
{
    study.count(); // says: they are within the limit
    let (mut passes, mut ring) = place_for(alloc, study)?;
    count_trials(study, first, trials, &mut ring, &mut passes);
    Ok(passes)
}
