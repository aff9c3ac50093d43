//! The parts of a report: what was counted of the trials.

ghost use Rattle.std.specs.Prelude.{◌≡◌, ◌++◌, map, codes, OnOk, MatchOption};
ghost use Rattle.ring_model.specs.Ring.{bound};
ghost use Rattle.ring_model.specs.RepairLaws.{longest_repair};
ghost use Rattle.ring_repairs.specs.Histograms.{counted};
ghost use Rattle.ring_repairs.specs.Rounds.{most_rounds};
ghost use Rattle.repair_report.specs.Reports.{IsHeadOf, IsPart, row_of};

use crate::figures::{daemon_name, figures_of, start_faults, start_name};
use repair_texts::{Head, Row};
use ring_repairs::{Histogram, Repairs, Study, longest_repair, most_rounds};
use ring_settle::bound;
use std::alloc::AllocError;

/// What was counted of the trials.
#[derive(Clone, Copy)]
pub(crate) struct Part<'a> {
    pub(crate) row: Row<'static>,
    /// What the numbers are numbers of.
    pub(crate) unit: &'static [u8],
    /// How many trials had each number.
    pub(crate) counts: &'a [u64],
}

/// The words at which a line of a study begins, the first of which is given.
fn head_of(study: &Study, measure: &'static str) -> Head<'static>
    ensures { IsHeadOf measure.now study.now result }
{
    let size = study.size();
    let start = study.start();
    Head {
        measure,
        n: size.n(),
        k: size.k(),
        daemon: daemon_name(study.daemon()),
        start: start_name(start),
        faults: start_faults(start),
    }
}

/// The part on the passes of the trials that are done; none if none is.
pub(crate) fn passes_of(repairs: &Repairs) -> Option<Part<'_>>
    ensures { MatchOption result (counted repairs.now.passes ≡ 0)
        (IsPart (codes "repairs") (codes "passes") (bound repairs.now.study.size.n)
        (longest_repair repairs.now.study.size.n) repairs.now.study repairs.now.passes) }
{
    let study = repairs.study();
    let n = study.size().n(); // says: it is a size within the limits
    let counts = repairs.passes();
    Some(Part {
        row: Row {
            head: head_of(study, "repairs"),
            figures: figures_of(counts, bound(n), longest_repair(n))?,
        },
        unit: b"passes",
        counts: counts.counts(),
    })
}

/// The part on their rounds, which are counted here; none if none is.
pub(crate) fn rounds_of<'a>(study: &Study, counts: &'a Histogram) -> Option<Part<'a>>
    ensures { MatchOption result (counted counts.now ≡ 0)
        (IsPart (codes "rounds") (codes "rounds") (most_rounds study.now.size.n)
        (most_rounds study.now.size.n) study.now counts.now) }
{
    let n = study.size().n(); // says: it is a size within the limits
    let most = most_rounds(n);
    Some(Part {
        row: Row {
            head: head_of(study, "rounds"),
            figures: figures_of(counts, most, most)?,
        },
        unit: b"rounds",
        counts: counts.counts(),
    })
}

/// Adds the rows of parts to those that are given.
pub(crate) fn add_rows(rows: &mut Vec<Row<'static>>, parts: &[Part<'_>]) -> Result<(), AllocError>
    ensures { OnOk result (rows.new.items ≡ rows.old.items ++ map row_of parts.now) }
{
    for part in parts {
        rows.push(part.row)?;
    }
    Ok(())
}
