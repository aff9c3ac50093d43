//! Locks by any name that start.

ghost use Rattle.std.specs.Prelude.{◌≡◌, ◌||◌, IfOk};
ghost use Rattle.lock_journal.specs.declared.stages.Stage.{Stage};
ghost use Rattle.lock_journal.specs.Stages.{limit_of, stage_after};
ghost use Rattle.name_service.specs.First.{IsNameStart};
ghost use Rattle.name_service.specs.Serving.{is_name_past};

use crate::segment::NameSegment;
use crate::service::{NameService, NameTerms, is_past};
use lock_journal::{Stage, after_start, has_short, limit_of, stage_after};
use lock_names::Names;
use std::alloc::{AllocError, Global};

/// The segment with which these names start. Its journal may have `limit` lines until it is due, those with which it begins among
/// them.
fn first_segment(alloc: Global, names: Names, limit: u64) -> Result<NameSegment, AllocError>
    ensures { IfOk result (λ s. IsNameStart limit names s) }
{
    let remaining = after_start(limit, names.locks());
    let short = has_short(names.locks());
    NameSegment::begin(alloc, names, remaining, short)
}

impl NameService {
    /// Locks of these names that answer lines, with the segment with which they start. If it is `due`, since its file is that of an
    /// earlier run, it is to end before a line is answered.
    ///
    /// # Errors
    ///
    /// Only if memory is short. The names are let go then.
    pub fn new(
        alloc: Global,
        names: Names,
        terms: NameTerms,
        due: bool,
    ) -> Result<NameService, AllocError>
        ensures start { IfOk result
            (λ s. IsNameStart (limit_of terms.lines.limit) names s.segment) }
        ensures terms { IfOk result (λ s. s.terms ≡ terms) }
        ensures stage { IfOk result (λ s. s.stage
            ≡ stage_after Stage.Open (due || is_name_past terms s.segment)) }
    {
        let Ok(segment) = first_segment(alloc, names, limit_of(terms.lines.limit)) else {
            return Err(AllocError);
        };
        let stage = stage_after(Stage::Open, due || is_past(terms, &segment));
        Ok(NameService {
            segment,
            terms,
            stage,
        })
    }
}
