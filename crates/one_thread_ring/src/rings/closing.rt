//! The end of a ring over a till: the run that can be saved.
ghost use Rattle.std.specs.Prelude.{◌≡◌, length, IfOk, IfErr};
ghost use Rattle.one_thread_ring.specs.Runs.{IsRightRun};
ghost use Rattle.one_thread_ring.specs.Clients.{told_all, AllStandInOrder};
ghost use Rattle.one_thread_ring.specs.Rings.{AreLogsOf};

use crate::clients::Client;
use crate::rings::OneThreadRing;
use ring_book::Till;
use ring_logs::{Log, RingOutcome};
use ring_model::Event;
use std::alloc::{AllocError, Global};

/// The logs of the clients, in their order, where this is the history.
fn logs_of(alloc: Global, history: &[Event], clients: &[Client]) -> Result<Vec<Log>, AllocError>
    requires { AllStandInOrder (length history.now) clients.now }
    ensures { IfOk result (λ logs. AreLogsOf (told_all history.now clients.now) logs.items) }
{
    let mut logs = Vec::with_capacity(alloc, clients.len())?;
    for client in clients {
        let entries = client.log(alloc, history)?;
        logs.push_reserved(Log {
            seat: client.number(),
            entries,
        });
    }
    Ok(logs)
}

impl OneThreadRing<Till> {
    /// Closes the ring: its book, and the log of each client. Both can be saved, and the saved text is legal.
    ///
    /// # Errors
    ///
    /// Only if memory runs out; the ring is handed back as it was.
    pub fn close(self, alloc: Global) -> Result<RingOutcome, OneThreadRing<Till>>
        ensures right { IfOk result (λ o. IsRightRun o) }
        ensures book { IfOk result (λ o. o.book ≡ self.book) }
        ensures logs { IfOk result (λ o. AreLogsOf self.clients o.logs.items) }
        ensures err { IfErr result (λ ring. ring ≡ self) }
    {
        let Ok(logs) = logs_of(alloc, self.book.history(), &self.clients) else {
            return Err(self);
        };
        Ok(RingOutcome {
            book: self.book,
            logs,
        })
    }
}
