//! Rings that answer lines, with a journal in a file or in the segments of a folder.

ghost use Rattle.std.specs.Prelude.{◌≡◌, ◌≤◌, true, None};
ghost use Rattle.std.specs.List.{AllByRecursion};
ghost use Rattle.ring_service.specs.Due.{is_due};
ghost use Rattle.ring_service.specs.Saved.{IsRight};
ghost use Rattle.ring_service.specs.Rules.{file_rules, IsLimit};
ghost use Rattle.ring_service.specs.Services.{service_by, service_of, keeps_journal};

use crate::chain_segments::ChainRules;
use crate::permits::Permits;
use crate::rules::Rules;
use crate::served::Served;
use crate::serving::{answer_by, are_right};
use disks::Disk;
use line_service::{AnswersLines, Pending};
use std::alloc::{AllocError, Global};
use std::marker::Model;

/// Rings that answer lines by rules: with a journal in a file or without one, or in the segment of a number. Contracts see the
/// rules and the rings.
#[derive(Drop)]
pub struct RingService<'n> {
    pub(crate) alloc: Global,
    pub(crate) served: Served,
    pub(crate) rules: Rules<'n>,
    /// Whether no line is answered any more.
    pub(crate) shut: bool,
}

impl<'n> Model for RingService<'n> {
    ghost use Rattle.ring_service.specs.Services.{ServiceView, service_by, IsKnown};

    ghost Value = { ServiceView };

    ghost view = { λ s. service_by s.rules s.served };

    ghost invariant = { λ s. IsKnown s.rules s.served s.shut };
}

/// Whether the segment is due, which it never is without a limit.
pub(crate) fn is_due(served: &Served, limit: Option<u64>) -> bool
    ensures { result ≡ is_due limit served.now }
{
    match limit {
        None => false,
        Some(limit) => served.is_due(limit),
    }
}

impl<'n> RingService<'n> {
    /// Rings that answer lines by these rules, and refuse none yet.
    pub(crate) fn new(alloc: Global, served: Served, rules: Rules<'n>) -> RingService<'n>
        requires limit { IsLimit rules.limit }
        requires open { rules.refusing ≡ None }
        ensures is { result ≡ service_by rules.entry served }
        ensures right { AllByRecursion IsRight result.rings }
    {
        are_right(&served); // says: they are, at each moment
        let shut = is_due(&served, rules.limit);
        RingService {
            alloc,
            served,
            rules,
            shut,
        }
    }

    /// Rings with a journal in the file of this name, if one is kept: no segment ends.
    pub fn in_file(
        alloc: Global,
        served: Served,
        journal: Option<&'n str>,
        permits: Permits<'n>,
    ) -> RingService<'n>
        ensures is { result ≡ service_by (file_rules journal.entry permits.entry) served }
        ensures right { AllByRecursion IsRight result.rings }
    {
        RingService::new(alloc, served, Rules::in_file(journal, permits))
    }

    /// Rings in the segment of this number.
    pub fn in_segment(
        alloc: Global,
        served: Served,
        rules: ChainRules<'n>,
        number: u64,
    ) -> RingService<'n>
        requires { 1 ≤ rules.limit }
        ensures is { result ≡ service_of rules.entry served number None }
        ensures right { AllByRecursion IsRight result.rings }
        ensures journal { keeps_journal result ≡ true }
    {
        RingService::new(alloc, served, Rules::in_segment(rules, number))
    }

    /// The rings, as they are.
    pub fn into_rings(self) -> Served
        ensures { result ≡ self.entry.rings }
    {
        self.served
    }
}

impl AnswersLines for RingService<'_> {
    ghost use Rattle.ring_service.specs.Services.{IsServed, is_over, may_save};
    ghost use Rattle.ring_service.specs.Starts.{by_start};

    ghost is_answered = { IsServed };

    ghost is_over = { is_over };

    ghost changes_files = { may_save };

    ghost by_start = { by_start };

    /// The line is answered, even if memory is short for the text of its answer or for its notes; or on strict terms nothing has
    /// changed.
    fn answer<D: Disk>(
        &mut self,
        disk: &mut D,
        line: &[u8],
        pending: &mut Pending,
    ) -> Result<(), AllocError> {
        let told = answer_by(
            self.alloc,
            &mut self.served,
            disk,
            self.rules,
            line,
            &mut self.shut,
            pending,
        );
        are_right(&self.served); // says: the rings are right, at each moment
        told
    }

    fn is_over(&self) -> bool {
        self.shut
    }
}
