//! A replica lives in segments as the service inside does, and keeps its keys and its last place.

ghost use Rattle.std.specs.Prelude.{◌≡◌};

use crate::numbered::Numbered;
use crate::replica::{Replica, note_own};
use line_service::{EndFault, Segmented};
use segment_files::DIGEST_DIGITS;
use std::alloc::{AllocError, Global};

impl<S: Segmented> Segmented for Replica<S> {
    ghost use Rattle.std.specs.Prelude.{◌≡◌, false};
    ghost use Rattle.line_replica.specs.Segmented.{segmenting};
    ghost use Rattle.line_replica.specs.Knows.{knows};

    ghost segmenting = { segmenting S.segmenting };

    ghost knows = { knows S.is_answered S.knows };

    ghost goes = { λ r e. S.goes r.numbered.inner e };

    fn is_due(&self) -> bool {
        self.numbered.inner.is_due()
    }

    fn next(&self, alloc: Global) -> Result<Replica<S>, EndFault> {
        let inner = match self.numbered.inner.next(alloc) {
            Ok(inner) => inner,
            Err(why) => return Err(why),
        };
        let keys = match self.numbered.keys.same() {
            Ok(keys) => keys,
            Err(AllocError) => return Err(EndFault::OutOfMemory),
        };
        let running = match self.running.same() {
            Ok(running) => running,
            Err(AllocError) => return Err(EndFault::OutOfMemory),
        };
        Ok(Replica {
            numbered: Numbered { inner, keys },
            running,
            lost: self.lost,
        })
    }

    fn text(
        &self,
        alloc: Global,
        number: u64,
        behind: [u8; DIGEST_DIGITS],
    ) -> Result<Vec<u8>, EndFault> {
        let mut text = match self.numbered.inner.text(alloc, number, behind) {
            Ok(text) => text,
            Err(why) => return Err(why),
        };
        match note_own(self, &mut text) {
            Ok(()) => Ok(text),
            Err(AllocError) => Err(EndFault::OutOfMemory),
        }
    }

    fn keep_on(&mut self, why: EndFault) {
        self.numbered.inner.keep_on(why);
    }
}
