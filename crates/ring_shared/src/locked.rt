//! The value under the lock of a ring, and the critical sections.
ghost use Rattle.std.specs.Prelude.{◌≡◌, ◌<◌, ◌++◌, ◌∷◌, ◌+◌, ◌≤◌, ◌↔◌, [], length, drop, fold, IsOk, IfOk, OnErr, IsErrOf};
ghost use Rattle.ring_book.specs.BookView.{IsBook, IsRecorded};
ghost use Rattle.ring_model.specs.Groups.{IsAlone};
ghost use Rattle.ring_model.specs.Limits.{event_limit, seat_limit};
ghost use Rattle.ring_shared.specs.Calls.{IsCallUnderLock, IsRefusedUnderLock};
ghost use Rattle.ring_shared.specs.Holding.{IsHeld};
ghost use Rattle.ring_logs.specs.Replays.{IsCallOf};
ghost use Rattle.ring_shared.specs.Stepping.{stepped};

use crate::front::{Front, ListWord};
use crate::names::Name;
use crate::seats::{RingWriter, Seat};
use crate::shown::{Operation, Shown, last_effect};
use core::mem::replace_with;
use crossbeam_utils::rule::Unruled;
use left_right::Absorb;
use ring_book::{Book, BookError, Resource};
use ring_model::{Entry, Event, Op, Receipt};
use std::alloc::Global;
use std::marker::Model;
use std::sync::Wait;

/// The value under the lock of a ring: its book, the word of its list of events, the front of the whole
/// list, and the writer that shows it.
///
/// Contracts see the book. Whenever the lock is free, the book's start and its resource's first content are
/// the ring's, its history is legal from them and whole, each event's seat is one of the ring's, and the writer
/// shows the book's history. It is not `Drop`, since a writer is not.
pub struct Locked<N: Name, R: Resource + Drop>
where
    Shown<N>: Absorb<Operation<N>, State = [Event; 0]>,
{
    pub(crate) alloc: Global,
    pub(crate) book: Book<R>,
    pub(crate) head: ListWord<N>,
    pub(crate) front: Front<N>,
    pub(crate) writer: RingWriter<N>,
}

impl<N: Name, R: Resource + Drop> Model for Locked<N, R>
where
    Shown<N>: Absorb<Operation<N>, State = [Event; 0]>,
{
    ghost use Rattle.std.specs.Prelude.{◌≡◌, drop, fold};
    ghost use Rattle.ring_book.specs.BookView.{BookView};
    ghost use Rattle.ring_shared.specs.Holding.{IsHeld};
    ghost use Rattle.ring_shared.specs.Stepping.{stepped};

    ghost Value = { BookView R };

    ghost view = { λ l. l.book };

    ghost invariant = { λ l. IsHeld R.works R.first N.start N.seats N.legal l.book
        × (l.front ≡ l.book.history)
        × (l.writer.desk.shown.value ≡ l.book.history)
        × (fold stepped l.writer.desk.shown.value (drop l.writer.behind l.writer.log.items)
        ≡ l.book.history) };
}

/// Shows readers the pending operations, instead of the copy that they see.
#[inline(always)]
pub(crate) fn publish<N: Name, W: Wait>(rt: &W, writer: &mut RingWriter<N>)
    ensures shown { writer.new.desk.shown.value
        ≡ fold stepped writer.old.desk.shown.value (drop writer.old.behind writer.old.log.items) }
    ensures pending { drop writer.new.behind writer.new.log.items ≡ [] }
{
    replace_with(writer, rt, |writer, rt| {
        let (writer, _result) = writer.publish_as::<Unruled, W>(rt);
        (writer, ())
    });
}

/// Shows readers one event or one block more. Returns only where the operation was appended to the pending ones. It
/// returns at its first turn, since the places for operations are taken when the ring is opened.
#[inline(always)]
#[tactic(auto, using(crate::proofs::Stepped::stepped_last))]
pub(crate) fn show<N: Name, W: Wait>(rt: &W, writer: &mut RingWriter<N>, operation: Operation<N>)
    requires { stepped
        (fold stepped writer.old.desk.shown.value (drop writer.old.behind writer.old.log.items))
        operation
        ≡ operation.list }
    ensures shown { writer.new.desk.shown.value ≡ operation.list }
    ensures pending { drop writer.new.behind writer.new.log.items ≡ [] }
{
    let mut operation = operation;
    for _ in rt.forever() {
        match writer.append(operation) {
            Ok(()) => {
                publish(rt, writer);
                return;
            }
            Err(back) => operation = back,
        }
    }
    unreachable!()
}

impl<N: Name, R: Resource + Drop> Locked<N, R> {
    /// The book of a ring that is opened.
    pub(crate) fn new(
        alloc: Global,
        book: Book<R>,
        head: ListWord<N>,
        front: Front<N>,
        writer: RingWriter<N>,
    ) -> Locked<N, R>
        requires held { IsHeld R.works R.first N.start N.seats N.legal book }
        requires front { front ≡ book.history }
        requires shown { writer.desk.shown.value ≡ book.history }
        requires pending { fold stepped writer.desk.shown.value
            (drop writer.behind writer.log.items)
            ≡ book.history }
        ensures { result ≡ book }
    {
        Locked {
            alloc,
            book,
            head,
            front,
            writer,
        }
    }

    /// One critical section: the seat's log and the history are grown, after which nothing is refused; the
    /// book makes the call for the seat, its receipt is logged, its effect is shown, and the seat gets the receipt.
    #[inline(always)]
    pub(crate) fn call<W: Wait>(
        &mut self,
        rt: &W,
        seat: &mut Seat<N>,
        op: Op,
    ) -> Result<Receipt, BookError>
        requires call { IsCallOf N.start op }
        requires alone { IsAlone op }
        ensures ok { IfOk result (λ r. IsCallUnderLock R.works R.first N.start N.seats N.legal
            self.old self.new seat.old seat.new op r) }
        ensures refused { IsRefusedUnderLock self.old self.new seat.old seat.new result }
    {
        let receipt = log_call(&mut self.book, seat, op)?;
        self.front
            .surely_add(rt, &self.head, seat.front(), receipt.event);
        let effect = last_effect::<N, R>(&self.book, receipt.event);
        let operation = Operation::event(effect, self.front.again());
        show(rt, &mut self.writer, operation);
        seat.go_on(self.writer.published(), effect);
        Ok(receipt)
    }

    /// The critical section of a pass by `machine`, which is below n, for the seat. It waits for those that
    /// look at that copy which is not shown now, as surveys and glances do for a moment.
    ///
    /// # Errors
    ///
    /// `HistoryFull` where the history has `EVENT_LIMIT` events; `OutOfMemory` for the log or the history.
    /// Nothing has changed then.
    #[inline(always)]
    pub fn pass<W: Wait>(
        &mut self,
        rt: &W,
        seat: &mut Seat<N>,
        machine: u32,
        order: u64,
    ) -> Result<Receipt, BookError>
        requires { machine < length N.start.values }
        ensures ok { IfOk result (λ r. IsCallUnderLock R.works R.first N.start N.seats N.legal
            self.old self.new seat.old seat.new (Op.Pass machine order) r) }
        ensures refused { IsRefusedUnderLock self.old self.new seat.old seat.new result }
    {
        self.call(rt, seat, Op::Pass { machine, order })
    }

    /// The critical section of a corruption: `value`, which is below K, is written into `machine`, which is
    /// below n, for the seat. `rt` is as of `pass`.
    ///
    /// # Errors
    ///
    /// As of `pass`.
    pub fn corrupt<W: Wait>(
        &mut self,
        rt: &W,
        seat: &mut Seat<N>,
        machine: u32,
        value: u32,
    ) -> Result<Receipt, BookError>
        requires machine { machine < length N.start.values }
        requires value { value < N.start.k }
        ensures ok { IfOk result (λ r. IsCallUnderLock R.works R.first N.start N.seats N.legal
            self.old self.new seat.old seat.new (Op.Corrupt machine value) r) }
        ensures refused { IsRefusedUnderLock self.old self.new seat.old seat.new result }
    {
        self.call(rt, seat, Op::Corrupt { machine, value })
    }

    /// The parts of the value under the lock, of a ring that is closed.
    pub(crate) fn into_parts(self) -> (Book<R>, Front<N>, RingWriter<N>)
        ensures held { IsHeld R.works R.first N.start N.seats N.legal result.0 }
        ensures front { result.1 ≡ result.0.history }
    {
        let Locked {
            alloc: _,
            book,
            head: _head,
            front,
            writer,
        } = self;
        (book, front, writer)
    }
}

/// Makes a seat's call of the book, which grows the history before it changes anything.
#[inline(always)]
fn make_call<R: Resource + Drop>(
    book: &mut Book<R>,
    seat: u32,
    op: Op,
) -> Result<Receipt, BookError>
    requires seat { seat < seat_limit }
    requires call { IsCallOf book.old.now.ring op }
    requires alone { IsAlone op }
    ensures ok { IfOk result (λ r. IsRecorded R.works book.old book.new seat op r) }
    ensures book { IsBook R.works R.first book.new }
    ensures full { IsErrOf result BookError.HistoryFull ↔ (length book.old.history ≡ event_limit) }
    ensures err { OnErr result (book.new ≡ book.old) }
    ensures succeeds { 1 ≤ book.old.room → IsOk result }
{
    match op {
        Op::Pass { machine, order } => book.pass(seat, machine, order),
        Op::Corrupt { machine, value } => book.corrupt(seat, machine, value),
        Op::Member { .. } => unreachable!(),
    }
}

/// Grows a seat's log, after which only the book can refuse; makes the seat's call of the book, and
/// logs its receipt.
#[inline(always)]
fn log_call<N: Name, R: Resource + Drop>(
    book: &mut Book<R>,
    seat: &mut Seat<N>,
    op: Op,
) -> Result<Receipt, BookError>
    requires call { IsCallOf book.old.now.ring op }
    requires alone { IsAlone op }
    ensures ok { IfOk result (λ r. IsRecorded R.works book.old book.new seat.old.number op r) }
    ensures book { IfOk result (λ _. IsBook R.works R.first book.new) }
    ensures within { seat.old.number < N.seats }
    ensures logged { IfOk result (λ r. seat.new
        ≡ record {
          number = seat.old.number;
          log = seat.old.log ++ Entry.Receipt r ∷ [];
          seen = seat.old.seen;
          room = seat.new.room;
        }) }
    ensures room { IfOk result (λ _. seat.old.room ≤ seat.new.room + 1) }
    ensures refused { IsRefusedUnderLock book.old book.new seat.old seat.new result }
{
    let number = seat.number();
    if seat.log.reserve(1).is_err() {
        return Err(BookError::OutOfMemory);
    }
    let receipt = make_call(book, number, op)?;
    seat.log.push_reserved(Entry::Receipt(receipt));
    Ok(receipt)
}
