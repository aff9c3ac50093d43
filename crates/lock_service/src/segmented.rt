//! Locks live in segments.

ghost use Rattle.std.specs.Prelude.{◌≡◌, false};

use crate::service::LockService;
use line_service::{EndFault, Segmented};
use lock_journal::{Stage, end_fault, is_to_end, limit_of, segment_text};
use segment_files::DIGEST_DIGITS;
use std::alloc::Global;

impl Segmented for LockService {
    ghost use Rattle.std.specs.Prelude.{◌≡◌, false};
    ghost use Rattle.lock_service.specs.Segmented.{segmenting};
    ghost use Rattle.lock_service.specs.Knows.{knows};
    ghost use Rattle.lock_service.specs.Goes.{goes};

    ghost segmenting = { segmenting };

    ghost knows = { knows };

    ghost goes = { goes };

    fn is_due(&self) -> bool {
        is_to_end(self.stage)
    }

    fn next(&self, alloc: Global) -> Result<LockService, EndFault> {
        match self.segment.next(alloc, limit_of(self.terms.limit)) {
            Ok(segment) => Ok(LockService {
                segment,
                terms: self.terms,
                stage: Stage::Open,
            }),
            Err(why) => Err(end_fault(why)),
        }
    }

    fn text(
        &self,
        alloc: Global,
        number: u64,
        behind: [u8; DIGEST_DIGITS],
    ) -> Result<Vec<u8>, EndFault> {
        segment_text(alloc, number, behind, self.segment.locks())
    }

    fn keep_on(&mut self, why: EndFault) {
        self.stage = Stage::KeptOn;
    }
}
