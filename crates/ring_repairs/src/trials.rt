//! Trials, one after the other.
ghost use Rattle.std.specs.Prelude.{◌≡◌, ◌≤◌, ◌<◌, ◌+◌, length};
ghost use Rattle.ring_model.specs.Limits.{machine_limit};
ghost use Rattle.ring_model.specs.RepairLaws.{longest_repair};
ghost use Rattle.ring_state.specs.Sizes.{size_of};
ghost use Rattle.ring_model.specs.Runs.{granted_passes};
ghost use Rattle.ring_repairs.specs.Daemons.{daemon_choices};
ghost use Rattle.ring_repairs.specs.Studies.{trial_passes, trial_count};
ghost use Rattle.ring_repairs.specs.Parts.{IsCountedOn};
ghost use Rattle.ring_repairs.specs.Histograms.{counted};
ghost use Rattle.ring_repairs.specs.Limits.{number_limit, trial_limit};

use crate::daemons::{Daemon, Memory};
use crate::draws::generator;
use crate::histograms::Histogram;
use crate::repairing::repair;
use crate::starts::write_start;
use crate::studies::Study;
use drawn_groups::repair_in_groups;
use ring_state::RingState;

/// How many granted passes the longest repair of `n` machines has, for `n` of at least 4; no repair of two or three machines has
/// more than this. `n` is 2 to 1,024.
pub fn longest_repair(n: u32) -> u64
    requires few { 2 ≤ n }
    requires many { n ≤ machine_limit }
    ensures is { result ≡ longest_repair n }
    ensures few { result < number_limit }
{
    (n as u64 - 2) * (3 * n as u64 + 1) / 2
}

/// How many machines pass until the ring is settled, at most `most`: those that the daemon chooses, or the members of drawn groups. No
/// machine was asked before.
fn pass_all(daemon: Daemon, most: u64, memory: &mut Memory, ring: &mut RingState) -> u64
    requires most { most ≡ longest_repair (length ring.old.values) }
    requires few { most ≤ number_limit }
    requires asked { memory.old.asked ≡ 0 }
    ensures passes { result
        ≡ length (granted_passes ring.old (daemon_choices daemon most memory.old ring.old)) }
    ensures most { result ≤ most }
    ensures size { length ring.new.values ≡ length ring.old.values }
    ensures same { ring.new.k ≡ ring.old.k }
{
    ring.params(); // says: it is a ring
    match daemon {
        Daemon::Groups => repair_in_groups(most, &mut memory.words, ring),
        _ => repair(daemon, most, memory, ring),
    }
}

/// How many passes the trial of this number takes, with the ring as the place for it.
pub(crate) fn try_one(study: &Study, trial: u64, ring: &mut RingState) -> u64
    requires { size_of ring.old ≡ study.now.size }
    ensures passes { result ≡ trial_passes study.now trial }
    ensures few { result ≤ longest_repair study.now.size.n }
    ensures size { size_of ring.new ≡ study.now.size }
{
    let most = longest_repair(study.size().n());
    let mut words = generator(study.seed(), trial);
    let number = trial / study.trials();
    write_start(study.start(), number, &mut words, ring);
    let mut memory = Memory { words, asked: 0 };
    pass_all(study.daemon(), most, &mut memory, ring)
}

/// Counts the trials from `first` on, `trials` of them, with the ring as the place for them.
pub(crate) fn count_trials(
    study: &Study,
    first: u64,
    trials: u64,
    ring: &mut RingState,
    passes: &mut Histogram,
)
    requires all { first + trials ≤ trial_count study.now }
    requires size { size_of ring.old ≡ study.now.size }
    requires numbers { length passes.old ≡ longest_repair study.now.size.n + 1 }
    requires room { counted passes.old + trials ≤ trial_limit }
    ensures size { size_of ring.new ≡ study.now.size }
    ensures counted { IsCountedOn (trial_passes study.now) first trials passes.old passes.new }
{
    study.count(); // says: they are within the limit
    for turn in 0..trials {
        let number = try_one(study, first + turn, ring);
        passes.add(number as usize);
    }
}
