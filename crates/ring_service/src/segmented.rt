//! How rings live in segments.

ghost use Rattle.std.specs.Prelude.{◌≡◌, ◌⊎◌, IfOk, IfErr};
ghost use Rattle.ring_service.specs.Segments.{AreNext, IsFull};
ghost use Rattle.line_service.specs.declared.segmented.EndFault.TheVariants as end;
ghost use Rattle.ring_service.specs.Services.{refusal_of};

use crate::answers::Refusal;
use crate::served::Served;
use crate::service::{RingService, is_due};
use crate::texts::segment_text;
use endless_ring::NextError;
use line_service::{EndFault, Segmented};
use segment_files::DIGEST_DIGITS;
use std::alloc::Global;

/// The rings with their next segments.
fn next_rings(alloc: Global, served: &Served) -> Result<Served, EndFault>
    ensures next { IfOk result (λ next. AreNext served.now next) }
    ensures why { IfErr result
        (λ e. ((e ≡ end.Full) × IsFull served.now) ⊎ (e ≡ end.OutOfMemory)) }
{
    match served.next(alloc) {
        Ok(next) => Ok(next),
        Err(NextError::Full) => Err(EndFault::Full),
        Err(NextError::OutOfMemory) => Err(EndFault::OutOfMemory),
    }
}

/// What each line is refused with while a segment is kept on.
fn refusal_of(why: EndFault) -> Refusal
    ensures { result ≡ refusal_of why }
{
    match why {
        EndFault::File => Refusal::File,
        EndFault::OutOfMemory => Refusal::OutOfMemory,
        EndFault::Full => Refusal::HistoryFull,
    }
}

impl Segmented for RingService<'_> {
    ghost use Rattle.ring_service.specs.Services.{segmenting};
    ghost use Rattle.ring_service.specs.Starts.{goes, knows};

    ghost segmenting = { segmenting };

    ghost goes = { goes };

    ghost knows = { knows };

    fn is_due(&self) -> bool {
        is_due(&self.served, self.rules.limit)
    }

    fn next(&self, alloc: Global) -> Result<Self, EndFault> {
        let served = match next_rings(alloc, &self.served) {
            Ok(served) => served,
            Err(why) => return Err(why),
        };
        let rules = match self.rules.next() {
            Ok(rules) => rules,
            Err(why) => return Err(why),
        };
        let next = RingService::new(alloc, served, rules);
        Ok(next)
    }

    fn text(
        &self,
        alloc: Global,
        number: u64,
        behind: [u8; DIGEST_DIGITS],
    ) -> Result<Vec<u8>, EndFault> {
        segment_text(alloc, number, behind, &self.served)
    }

    fn keep_on(&mut self, why: EndFault) {
        self.rules.refusing = Some(refusal_of(why));
        self.shut = false;
    }
}
