//! Rounds: how often all machines are asked in turn.
ghost use Rattle.std.specs.Prelude.{◌≡◌, ◌<◌, ◌≤◌, ◌*◌, ◌==◌, IfOk, length};
ghost use Rattle.ring_model.specs.Numbers.{count_below};
ghost use Rattle.ring_model.specs.Limits.{machine_limit};
ghost use Rattle.ring_repairs.specs.Rounds.{most_rounds};
ghost use Rattle.ring_repairs.specs.Studies.{trial_rounds, IsCounted};

use crate::daemons::Daemon;
use crate::histograms::Histogram;
use crate::repairs::Repairs;
use std::alloc::{AllocError, Global};

/// How many complete rounds settle every ring of `n` machines, 2n - 3: in such a round each machine is asked at least once, in any
/// order. `n` is 2 to 1,024.
pub fn most_rounds(n: u32) -> u64
    requires few { 2 ≤ n }
    requires many { n ≤ machine_limit }
    ensures is { result ≡ most_rounds n }
    ensures few { result < 2 * machine_limit }
{
    2 * n as u64 - 3
}

/// How many of the trials that are done began no round.
fn without_rounds(repairs: &Repairs) -> u64
    ensures is { result
        ≡ count_below (λ t. trial_rounds repairs.now.study t == 0) repairs.now.done }
    ensures few { result ≤ repairs.now.done }
{
    let passes = repairs.passes().counts();
    match repairs.study().daemon() {
        Daemon::Turn => passes[0],
        _ => repairs.done(),
    }
}

/// How many of the trials that are done began each number of rounds: in a round of the daemon `Turn` each machine is asked once, from
/// machine 0 on, and the last round need not be complete; another daemon begins none. One round is always enough, so that it follows
/// from the passes.
///
/// # Errors
///
/// Only if memory runs out.
pub fn count_rounds(alloc: Global, repairs: &Repairs) -> Result<Histogram, AllocError>
    ensures numbers { IfOk result (λ h. length h ≡ 2) }
    ensures counted { IfOk result
        (λ h. IsCounted (trial_rounds repairs.now.study) repairs.now.done h) }
{
    repairs.passes(); // says: the trials are within the limits of a study
    let none = without_rounds(repairs);
    Histogram::of_two(alloc, none, repairs.done() - none)
}
