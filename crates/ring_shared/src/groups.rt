//! Group passes of a ring that threads share.
ghost use Rattle.std.specs.Prelude.{◌≡◌, [], ◌<◌, ◌≤◌, ◌+◌, ◌++◌, ◌^◌, length, drop, fold, IfOk, IfErr, vec_capacity};
ghost use Rattle.ring_model.specs.Groups.{Rises};
ghost use Rattle.ring_book.specs.BookView.{IsBook};
ghost use Rattle.ring_book.specs.GroupView.{IsGroupRecorded};
ghost use Rattle.ring_shared.specs.Groups.{IsGroupUnderLock, IsGroupRefused};
ghost use Rattle.ring_logs.specs.Seats.{receipts_from};
ghost use Rattle.ring_shared.specs.Holding.{IsHeld};
ghost use Rattle.ring_shared.specs.Stepping.{stepped};

use crate::front::Front;
use crate::locked::{Locked, show};
use crate::names::Name;
use crate::seats::{RingWriter, Seat};
use crate::shown::Operation;
use ring_book::{Book, GroupError, GroupReceipt, Resource};
use ring_model::{Entry, Event, Receipt};
use ring_state::RingState;
use std::sync::Wait;

/// Shows readers the block that ends the book's history, where the events before it are shown. The ring is the book's.
fn show_block<N: Name, R: Resource + Drop, W: Wait>(
    rt: &W,
    book: &Book<R>,
    front: &Front<N>,
    writer: &mut RingWriter<N>,
    ring: RingState,
)
    requires held { IsHeld R.works R.first N.start N.seats N.legal book.now }
    requires ring { ring ≡ book.now.now.ring }
    requires longer { length writer.old.desk.shown.value < length book.now.history }
    requires none { fold stepped writer.old.desk.shown.value
        (drop writer.old.behind writer.old.log.items)
        ≡ writer.old.desk.shown.value }
    requires front { front.now ≡ book.now.history }
    ensures shown { writer.new.desk.shown.value ≡ book.now.history }
    ensures pending { drop writer.new.behind writer.new.log.items ≡ [] }
{
    let operation = Operation::block(book, ring, front.again());
    show(rt, writer, operation);
}

/// Logs the receipts of events that follow one another in a history, from `first` on.
fn log_events(log: &mut Vec<Entry>, events: &[Event], first: u64)
    requires room { length log.old.items + length events.now ≤ vec_capacity log.old }
    requires few { first + length events.now < 2 ^ 64 }
    ensures items { log.new.items ≡ log.old.items ++ receipts_from first events.now }
    ensures capacity { vec_capacity log.new ≡ vec_capacity log.old }
{
    let mut position = first;
    for event in events {
        log.push_reserved(Entry::Receipt(Receipt {
            position,
            event: *event,
        }));
        position += 1;
    }
}

/// Grows a seat's log, after which only the book can refuse; makes the group pass of the book, and logs the
/// receipt of each member.
fn log_group<N: Name, R: Resource + Drop>(
    book: &mut Book<R>,
    seat: &mut Seat<N>,
    machines: &[u32],
    order: u64,
) -> Result<GroupReceipt, GroupError>
    requires rising { Rises 0 (length book.old.now.ring.values) machines.now }
    requires some { 1 ≤ length machines.now }
    ensures ok { IfOk result
        (λ r. IsGroupRecorded R.works book.old book.new seat.old.number order machines.now r) }
    ensures book { IfOk result (λ _. IsBook R.works R.first book.new) }
    ensures within { seat.old.number < N.seats }
    ensures logged { IfOk result (λ r. seat.new
        ≡ record {
          number = seat.old.number;
          log = seat.old.log ++ receipts_from r.first (drop r.first book.new.history);
          seen = seat.old.seen;
          room = seat.new.room;
        }) }
    ensures room { IfOk result (λ _. seat.old.room ≤ seat.new.room + length machines.now) }
    ensures refused { IsGroupRefused book.old book.new seat.old seat.new machines.now result }
{
    let number = seat.number();
    if seat.log.reserve(machines.len()).is_err() {
        return Err(GroupError::OutOfMemory);
    }
    let receipt = match book.pass_group(number, machines, order) {
        Ok(receipt) => receipt,
        Err(error) => return Err(error),
    };
    let members = &book.history()[receipt.first as usize..];
    log_events(&mut seat.log, members, receipt.first);
    Ok(receipt)
}

impl<N: Name, R: Resource + Drop> Locked<N, R> {
    /// The critical section of a pass by a group of machines at once, for the seat: its log gains the receipt of each
    /// member, and their effect is shown at once. The machines are strictly increasing, below n and at least one.
    /// `rt` is as of `pass`.
    ///
    /// # Errors
    ///
    /// As of the book's `pass_group`, and `OutOfMemory` for the log and for what is shown. Nothing has changed then.
    pub fn pass_group<W: Wait>(
        &mut self,
        rt: &W,
        seat: &mut Seat<N>,
        machines: &[u32],
        order: u64,
    ) -> Result<GroupReceipt, GroupError>
        requires rising { Rises 0 (length N.start.values) machines.now }
        requires some { 1 ≤ length machines.now }
        ensures ok { IfOk result (λ r. IsGroupUnderLock R.works R.first N.start N.seats N.legal
            self.old self.new seat.old seat.new order machines.now r) }
        ensures refused { IsGroupRefused self.old self.new seat.old seat.new machines.now result }
        ensures size { length self.old.now.ring.values ≡ length N.start.values }
    {
        let Ok(mut ring) = self.book.state().try_copy(self.alloc) else {
            return Err(GroupError::OutOfMemory);
        };
        let receipt = log_group(&mut self.book, seat, machines, order)?;
        ring.copy_from(self.book.state());
        let members = &self.book.history()[receipt.first as usize..];
        self.front
            .surely_add_all(rt, &self.head, seat.front(), members);
        show_block(rt, &self.book, &self.front, &mut self.writer, ring);
        seat.catch_up(self.writer.published());
        Ok(receipt)
    }
}
