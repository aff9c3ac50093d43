//! Locks by any name live in segments.

ghost use Rattle.std.specs.Prelude.{◌≡◌, false};

use crate::growing::next_segment;
use crate::service::NameService;
use crate::texts::named_text;
use line_service::{EndFault, Segmented};
use lock_journal::{Stage, end_fault, is_to_end, limit_of};
use segment_files::DIGEST_DIGITS;
use std::alloc::Global;

impl Segmented for NameService {
    ghost use Rattle.std.specs.Prelude.{◌≡◌, false};
    ghost use Rattle.name_service.specs.Segmented.{name_segmenting};
    ghost use Rattle.name_service.specs.Knows.{knows};
    ghost use Rattle.name_service.specs.Goes.{goes};

    ghost segmenting = { name_segmenting };

    ghost knows = { knows };

    ghost goes = { goes };

    fn is_due(&self) -> bool {
        is_to_end(self.stage)
    }

    fn next(&self, alloc: Global) -> Result<NameService, EndFault> {
        let terms = self.terms;
        let limit = limit_of(terms.lines.limit);
        match next_segment(&self.segment, alloc, terms.most, terms.size, limit) {
            Ok(segment) => Ok(NameService {
                segment,
                terms,
                stage: Stage::Open,
            }),
            Err(why) => Err(end_fault(why)),
        }
    }

    fn text(
        &self,
        alloc: Global,
        number: u64,
        behind: [u8; DIGEST_DIGITS],
    ) -> Result<Vec<u8>, EndFault> {
        named_text(alloc, number, behind, self.segment.names())
    }

    fn keep_on(&mut self, why: EndFault) {
        self.stage = Stage::KeptOn;
    }
}
