//! The figures of a study's trials.

ghost use Rattle.std.specs.Prelude.{◌≡◌, MatchOption};
ghost use Rattle.ring_repairs.specs.Histograms.{counted};
ghost use Rattle.repair_report.specs.Reports.{IsFigures, daemon_name, start_name, start_faults};

use repair_texts::Figures;
use ring_repairs::{Daemon, Histogram, Start};

/// The word for which machine moves next.
pub(crate) fn daemon_name(daemon: Daemon) -> &'static str
    ensures { result.now ≡ daemon_name daemon }
{
    match daemon {
        Daemon::First => "first",
        Daemon::Last => "last",
        Daemon::Random => "random",
        Daemon::Turn => "turn",
        Daemon::Slow => "slow",
        Daemon::Groups => "groups",
    }
}

/// The word for where a trial starts.
pub(crate) fn start_name(start: Start) -> &'static str
    ensures { result.now ≡ start_name start }
{
    match start {
        Start::Any => "any",
        Start::Faults(_) => "faults",
        Start::All => "all",
    }
}

/// With how many faults a trial starts, if it starts with some.
pub(crate) fn start_faults(start: Start) -> Option<u32>
    ensures { result ≡ start_faults start }
{
    match start {
        Start::Any => None,
        Start::Faults(faults) => Some(faults),
        Start::All => None,
    }
}

/// The figures of the trials that are counted, with these bounds of their numbers; none if none is.
pub(crate) fn figures_of(counts: &Histogram, bound: u64, longest: u64) -> Option<Figures>
    ensures { MatchOption result (counted counts.now ≡ 0) (IsFigures bound longest counts.now) }
{
    Some(Figures {
        trials: counts.total(),
        bound,
        longest,
        least: counts.least()?,
        mean: counts.mean_hundredths()?,
        median: counts.quantile(50, 100)?,
        p90: counts.quantile(90, 100)?,
        p99: counts.quantile(99, 100)?,
        p999: counts.quantile(999, 1_000)?,
        greatest: counts.greatest()?,
    })
}
