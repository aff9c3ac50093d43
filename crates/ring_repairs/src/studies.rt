//! What is tried.
ghost use Rattle.std.specs.Prelude.{◌≡◌, ◌↔◌, IfOk, IfErr, IsOk, IsTrue};
ghost use Rattle.ring_repairs.specs.Starts.{AreFaultsFor};
ghost use Rattle.ring_repairs.specs.Studies.{IsStudy, IsOnce, IsFirstFault, study_with, trial_count};

use crate::daemons::Daemon;
use crate::limits::TRIAL_LIMIT;
use crate::starts::{Start, states};
use ring_state::Params;
use std::marker::Model;

/// What is tried: the size of the rings, where each trial starts, who moves next, how many trials there are, and the seed. It is
/// always within the limits.
#[derive(Drop)]
pub struct Study {
    size: Params,
    start: Start,
    daemon: Daemon,
    trials: u64,
    seed: u64,
    count: u64,
}

impl Model for Study {
    ghost use Rattle.std.specs.Prelude.{◌≡◌};
    ghost use Rattle.ring_repairs.specs.Studies.{StudyData, IsStudy, study_with, trial_count};

    ghost Value = { StudyData };

    ghost view = { λ s. study_with s.size s.start s.daemon s.trials s.seed };

    ghost invariant = { λ s. IsStudy (study_with s.size s.start s.daemon s.trials s.seed)
        × (s.count ≡ trial_count (study_with s.size s.start s.daemon s.trials s.seed)) };
}

/// Why a study is refused.
#[derive(Clone, Copy, Debug, Drop, PartialEq, Eq)]
pub enum StudyError {
    NoTrials,
    ManyTrials,
    ManyFaults,
    ManyStates,
    OneTrial,
}

/// Whether a start has no more faults than the ring has machines.
fn are_faults_for(n: u32, start: Start) -> bool
    ensures { IsTrue result ↔ AreFaultsFor n start }
{
    match start {
        Start::Any => true,
        Start::Faults(faults) => faults <= n,
        Start::All => true,
    }
}

/// Whether there is one trial of each state, if each other would be the same.
fn is_once(start: Start, daemon: Daemon, trials: u64) -> bool
    ensures { IsTrue result ↔ IsOnce start daemon trials }
{
    match start {
        Start::All => daemon.draws() || trials == 1,
        Start::Any => true,
        Start::Faults(_) => true,
    }
}

impl Study {
    /// The study of `trials` trials of rings of this size, or of each of their states: from 1 trial to `TRIAL_LIMIT` in all.
    ///
    /// # Errors
    ///
    /// The first that applies: `NoTrials` where there is none, `ManyTrials` where they themselves are over the limit, `ManyFaults` where
    /// the start has more faults than the ring has machines, `ManyStates` where it goes through more states than there may be,
    /// `ManyTrials` where the trials of all states are over the limit, `OneTrial` where each state has more than one trial, and the
    /// daemon draws nothing.
    pub fn new(
        size: Params,
        start: Start,
        daemon: Daemon,
        trials: u64,
        seed: u64,
    ) -> Result<Study, StudyError>
        ensures ok { IfOk result (λ s. s ≡ study_with size start daemon trials seed) }
        ensures exact { IsOk result ↔ IsStudy (study_with size start daemon trials seed) }
        ensures err { IfErr result
            (λ e. IsFirstFault (study_with size start daemon trials seed) e) }
    {
        let n = size.n(); // says: it is a size
        if trials == 0 {
            return Err(StudyError::NoTrials);
        }
        if trials > TRIAL_LIMIT {
            return Err(StudyError::ManyTrials);
        }
        if !are_faults_for(n, start) {
            return Err(StudyError::ManyFaults);
        }
        let Some(states) = states(start, &size) else {
            return Err(StudyError::ManyStates);
        };
        let count = trials * states;
        if count > TRIAL_LIMIT {
            return Err(StudyError::ManyTrials);
        }
        if !is_once(start, daemon, trials) {
            return Err(StudyError::OneTrial);
        }
        Ok(Study {
            size,
            start,
            daemon,
            trials,
            seed,
            count,
        })
    }

    /// The size of the rings.
    pub fn size(&self) -> Params
        ensures is { result ≡ self.now.size }
        ensures study { IsStudy self.now }
    {
        self.size
    }

    /// Where each trial starts.
    pub fn start(&self) -> Start
        ensures { result ≡ self.now.start }
    {
        self.start
    }

    /// Which machine moves next.
    pub fn daemon(&self) -> Daemon
        ensures { result ≡ self.now.daemon }
    {
        self.daemon
    }

    /// How many trials there are of each state that the start goes through, at least 1.
    pub fn trials(&self) -> u64
        ensures is { result ≡ self.now.trials }
        ensures study { IsStudy self.now }
    {
        self.trials
    }

    /// How many trials there are in all, from 1 to `TRIAL_LIMIT`.
    pub fn count(&self) -> u64
        ensures is { result ≡ trial_count self.now }
        ensures study { IsStudy self.now }
    {
        self.count
    }

    /// The seed of the generators: that of trial t is `Lcg64Xsh32::new(seed, t)`.
    pub fn seed(&self) -> u64
        ensures { result ≡ self.now.seed }
    {
        self.seed
    }
}
