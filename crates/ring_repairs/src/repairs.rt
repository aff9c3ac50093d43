//! The trials of a study that are done so far.
ghost use Rattle.std.specs.Prelude.{◌≡◌, ◌+◌, ◌≤◌, min, IfOk};
ghost use Rattle.ring_repairs.specs.Parts.{IsPart};
ghost use Rattle.ring_repairs.specs.Studies.{AreRepairs, repairs_with, trial_count};

use crate::histograms::Histogram;
use crate::parts::place_for;
use crate::studies::Study;
use crate::trials::count_trials;
use ring_state::RingState;
use std::alloc::{AllocError, Global};
use std::marker::Model;

/// The trials of a study that are done so far: the first of them, in order, each counted once.
#[derive(Drop)]
pub struct Repairs {
    study: Study,
    done: u64,
    passes: Histogram,
    ring: RingState,
}

impl Model for Repairs {
    ghost use Rattle.std.specs.Prelude.{◌≡◌};
    ghost use Rattle.ring_state.specs.Sizes.{size_of};
    ghost use Rattle.ring_repairs.specs.Studies.{RepairsData, AreRepairs, repairs_with};

    ghost Value = { RepairsData };

    ghost view = { λ r. repairs_with r.study r.done r.passes };

    ghost invariant = { λ r.
        AreRepairs (repairs_with r.study r.done r.passes) × (size_of r.ring ≡ r.study.size) };
}

impl Repairs {
    /// A study of which no trial is done.
    ///
    /// # Errors
    ///
    /// Only if memory runs out. All memory that the trials need is taken here.
    pub fn new(alloc: Global, study: Study) -> Result<Repairs, AllocError>
        ensures none { IfOk result (λ r. (r.study ≡ study) × (r.done ≡ 0)) }
        ensures counted { IfOk result (λ r. AreRepairs r) }
    {
        study.count(); // says: it is within the limits
        let (passes, ring) = place_for(alloc, &study)?;
        Ok(Repairs {
            study,
            done: 0,
            passes,
            ring,
        })
    }

    /// What is tried.
    pub fn study(&self) -> &Study
        ensures { result.now ≡ self.now.study }
    {
        &self.study
    }

    /// How many trials are done, the first ones of the study.
    pub fn done(&self) -> u64
        ensures is { result ≡ self.now.done }
        ensures within { result ≤ trial_count self.now.study }
    {
        self.done
    }

    /// How many of the trials that are done took each number of passes: it has an entry for each number up to `longest_repair` of
    /// the ring's n, and counts each of these trials once.
    pub fn passes(&self) -> &Histogram
        ensures is { result.now ≡ self.now.passes }
        ensures counted { AreRepairs self.now }
    {
        &self.passes
    }

    /// Does the next trials, `most` of them, or fewer where fewer are left. It takes no memory.
    pub fn advance(&mut self, most: u64)
        ensures study { self.new.study ≡ self.old.study }
        ensures done { self.new.done ≡ min (self.old.done + most) (trial_count self.old.study) }
        ensures counted { AreRepairs self.new }
    {
        let left = self.study.count() - self.done;
        let trials = if most < left { most } else { left };
        count_trials(
            &self.study,
            self.done,
            trials,
            &mut self.ring,
            &mut self.passes,
        );
        self.done += trials;
    }

    /// The next trials are done, `trials` of them, which are counted in this histogram.
    pub fn join(&mut self, trials: u64, part: &Histogram)
        requires { IsPart self.old.study self.old.done trials part.now }
        ensures study { self.new.study ≡ self.old.study }
        ensures done { self.new.done ≡ self.old.done + trials }
        ensures counted { AreRepairs self.new }
    {
        self.study.count(); // says: they are within the limit
        self.passes.join(part);
        self.done += trials;
    }
}
